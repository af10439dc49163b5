ghost use Rattle.std.specs.Prelude.{◌≡◌, ◌↔◌, ℕ, ◌+◌, ◌-◌, ◌^◌, ◌<◌, ◌≤◌, ◌==◌, ◌&&◌, ◌||◌, nat_lt, List, [], ◌∷◌, ◌++◌, length, filter};
ghost use Rattle.std.specs.Prelude.{not, slice_set, slice_index_or, Some, None, IfOk, IsTrue, OnOk, OnErr, if◌then◌else◌};
ghost use Rattle.object_id.specs.declared.entry.Member.{Member};
ghost use Rattle.epoch_log.specs.declared.epoch_record.EpochRecord.{EpochRecord};
ghost use Rattle.epoch_log.specs.Members.{members_after};
ghost use Rattle.epoch_log.specs.Epochs.{begins_epoch, recovery_of as recovered_by, epoch_of, settled_of, members_in};
ghost use Rattle.epoch_log.specs.Appending.{MayAppend, IsLog};
ghost use Rattle.epoch_log.specs.Tally.{IsTally, mark_of, new_term, lacking, is_early as was_early};

use crate::appending::may_follow;
use crate::epoch_record::{EpochRecord, Mark};
use crate::roster::Roster;
use object_id::{EPOCH_MAX, Entry, Epoch, Member, NoMemory, NodeId};
use std::alloc::Global;
use std::collections::BTreeSet;

/// What the entries of a log come to: the newest epoch, the settled one and the members of each, without the entries. A [`crate::Log`]
/// keeps both; who has the entries elsewhere counts each here before it is put to the others.
pub struct Tally {
    /// The epochs that have begun, in order.
    terms: Vec<EpochRecord>,
    /// Each `Recovered` whose epoch had not begun.
    early: BTreeSet<(Epoch, NodeId)>,
    settled: Epoch,
}

/// Written out, so that letting one go is one call wherever it is done, and no cases there.
impl Drop for Tally {
    fn drop(self) {
        let Tally {
            terms,
            early,
            settled: _,
        } = self;
        drop(terms);
        drop(early);
    }
}

/// The node and the epoch of a `Recovered`.
fn recovery_of(entry: &Entry) -> Option<(NodeId, Epoch)>
    ensures { result ≡ recovered_by entry.now }
{
    match entry {
        Entry::Recovered { node, epoch } => Some((*node, *epoch)),
        _ => None,
    }
}

#[tactic(auto, unfolding(crate::specs::Tally::is_early))]
fn is_early(early: &BTreeSet<(Epoch, NodeId)>, epoch: Epoch, node: NodeId) -> bool
    ensures { result ≡ was_early early.now epoch.0 node.0 }
{
    early.contains(&(epoch, node))
}

/// Those of the members that did not recover in the epoch before it began.
fn not_early(
    alloc: Global,
    members: &[Member],
    early: &BTreeSet<(Epoch, NodeId)>,
    epoch: Epoch,
) -> Result<Vec<Member>, NoMemory>
    ensures { IfOk result (λ missing. missing.items
        ≡ filter (λ (member : Member). not (was_early early.now epoch.0 member.node.0)) members.now) }
{
    let mut missing = Vec::new(alloc);
    for member in members {
        if !is_early(early, epoch, member.node) {
            missing.push(*member)?;
        }
    }
    Ok(missing)
}

/// Keeps a `Recovered` whose epoch has not begun. Without memory nothing changes.
fn keep_early(
    early: &mut BTreeSet<(Epoch, NodeId)>,
    epoch: Epoch,
    node: NodeId,
) -> Result<(), NoMemory>
    ensures ok { OnOk result ((of by : ℕ)
        → was_early early.new of by ≡ (was_early early.old of by || (epoch.0 == of && node.0 == by))) }
    ensures err { OnErr result (early.new ≡ early.old) }
{
    early.insert((epoch, node))?;
    Ok(())
}

/// The members of the epoch that an entry begins; `None` where it begins none.
fn next_members(alloc: Global, newest: &Roster, entry: &Entry) -> Result<Option<Roster>, NoMemory>
    ensures { IfOk result (λ next. next ≡ (if begins_epoch entry.now then Some (members_after newest.now entry.now) else None)) }
{
    match entry {
        Entry::Join { node, zone, vnodes } => {
            let mut members = Roster::from_slice(alloc, newest.as_slice())?;
            members.join(Member {
                node: *node,
                zone: *zone,
                vnodes: *vnodes,
            })?;
            Ok(Some(members))
        }
        Entry::Leave { node } => {
            let mut members = Roster::from_slice(alloc, newest.as_slice())?;
            members.remove(*node);
            Ok(Some(members))
        }
        Entry::Reweight { node, vnodes } => { Ok(Some(newest.reweigh(alloc, *node, *vnodes)?)) }
        _ => Ok(None),
    }
}

fn has_begun(terms: &[EpochRecord], epoch: Epoch) -> bool
    ensures { IsTrue result ↔ ((1 ≤ epoch.0) × (epoch.0 ≤ length terms.now)) }
{
    1 <= epoch.0 && epoch.0 as usize <= terms.len()
}

/// The node has recovered in an epoch that has begun; answers the epoch that is settled then.
fn settle(terms: &mut Vec<EpochRecord>, settled: Epoch, node: NodeId, epoch: Epoch) -> Epoch
    requires begun { (1 ≤ epoch.0) × (epoch.0 ≤ length terms.old.items) }
    ensures terms { (d : EpochRecord) → terms.new.items
        ≡ slice_set terms.old.items (epoch.0 - 1) (lacking node.0 (slice_index_or terms.old.items (epoch.0 - 1) d)) }
    ensures settled { (d : EpochRecord) → let rest = (slice_index_or terms.new.items (epoch.0 - 1) d).missing in
        result.0 ≡ (if length rest == 0 && nat_lt settled.0 epoch.0 then epoch.0 else settled.0) }
{
    let term = &mut terms[epoch.0 as usize - 1];
    term.missing.remove(node);
    if term.missing.is_empty() && settled < epoch {
        epoch
    } else {
        settled
    }
}

impl Tally {
    /// What the first entry of a log, `Format` of these members, comes to. Costs the members.
    pub fn new(alloc: Global, members: &[Member]) -> Result<Tally, NoMemory>
        ensures { IfOk result (λ tally. IsTally (Entry.Format members.now ∷ []) tally) }
    {
        let mut terms = Vec::new(alloc);
        terms.push(EpochRecord {
            members: Roster::from_slice(alloc, members)?,
            missing: Roster::from_slice(alloc, members)?,
        })?;
        Ok(Tally {
            terms,
            early: BTreeSet::new(alloc),
            settled: Epoch(1),
        })
    }

    /// The newest epoch. Costs nothing: `before` is for the contract alone, here and in the other questions.
    pub fn epoch(&self, before: &[Entry]) -> Epoch
        requires log { IsLog before.now }
        requires tally { IsTally before.now self.now }
        ensures { result.0 ≡ epoch_of before.now }
    {
        Epoch(self.terms.len() as u32)
    }

    /// The settled epoch. Costs nothing.
    pub fn settled(&self, before: &[Entry]) -> Epoch
        requires { IsTally before.now self.now }
        ensures { result.0 ≡ settled_of before.now }
    {
        self.settled
    }

    /// The members of an epoch that has begun, in ascending number. Costs nothing.
    pub fn members(&self, before: &[Entry], epoch: Epoch) -> &[Member]
        requires tally { IsTally before.now self.now }
        requires begun { (1 ≤ epoch.0) × (epoch.0 ≤ epoch_of before.now) }
        ensures { result.now ≡ members_in before.now epoch.0 }
    {
        self.terms[epoch.0 as usize - 1].members.as_slice()
    }

    /// Whether an entry may stand next: what `count` asks of it. Costs a look at the newest members.
    pub fn may_count(&self, before: &[Entry], entry: &Entry) -> bool
        requires log { IsLog before.now }
        requires tally { IsTally before.now self.now }
        ensures { IsTrue result ↔ MayAppend before.now entry.now }
    {
        let newest = self.terms.len();
        newest < EPOCH_MAX as usize && may_follow(self.terms[newest - 1].members.as_slice(), entry)
    }

    /// What holds after the entries so far.
    pub(crate) fn mark(&self, before: &[Entry]) -> Mark
        requires log { IsLog before.now }
        requires tally { IsTally before.now self.now }
        ensures { result ≡ mark_of before.now }
    {
        Mark {
            epoch: self.epoch(before),
            settled: self.settled(before),
        }
    }

    /// Adds the term of the next epoch. Without memory nothing changes.
    fn begin(&mut self, alloc: Global, members: Roster) -> Result<(), NoMemory>
        requires { length self.old.terms.items < 2 ^ 32 - 1 }
        ensures terms { OnOk result (self.new.terms.items ≡ self.old.terms.items
            ++ new_term self.old.early (length self.old.terms.items + 1) members ∷ []) }
        ensures settled { OnOk result (let term = new_term self.old.early (length self.old.terms.items + 1) members in
            self.new.settled.0 ≡ (if length term.missing == 0 then length self.old.terms.items + 1 else self.old.settled.0)) }
        ensures early { self.new.early ≡ self.old.early }
        ensures err { OnErr result ((self.new.terms.items ≡ self.old.terms.items) × (self.new.settled ≡ self.old.settled)) }
    {
        let epoch = Epoch(self.terms.len() as u32 + 1);
        let missing = not_early(alloc, members.as_slice(), &self.early, epoch)?;
        let is_settled = missing.is_empty();
        self.terms.push(EpochRecord {
            members,
            missing: Roster::from_vec(missing),
        })?;
        if is_settled {
            self.settled = epoch;
        }
        Ok(())
    }

    /// Counts a `Recovered`. Without memory nothing changes.
    fn recover(
        &mut self,
        before: &[Entry],
        entry: &Entry,
        node: NodeId,
        epoch: Epoch,
    ) -> Result<(), NoMemory>
        requires log { IsLog before.now }
        requires tally { IsTally before.now self.old }
        requires is { entry.now ≡ Entry.Recovered node epoch }
        ensures ok { OnOk result (IsTally (before.now ++ entry.now ∷ []) self.new) }
        ensures err { OnErr result (IsTally before.now self.new) }
    {
        if has_begun(self.terms.as_slice(), epoch) {
            self.settled = settle(&mut self.terms, self.settled, node, epoch);
        } else {
            keep_early(&mut self.early, epoch, node)?;
        }
        Ok(())
    }

    /// Counts an entry after those before it. Without memory the tally is still theirs. An entry that begins an epoch costs the
    /// members, each with the logarithm of the `Recovered` that came before their epoch; a `Recovered` costs a look at those missing in
    /// its epoch, or that logarithm; any other entry costs nothing.
    pub fn count(&mut self, alloc: Global, before: &[Entry], entry: &Entry) -> Result<(), NoMemory>
        requires log { IsLog before.now }
        requires tally { IsTally before.now self.old }
        requires fits { MayAppend before.now entry.now }
        ensures ok { OnOk result (IsTally (before.now ++ entry.now ∷ []) self.new) }
        ensures err { OnErr result (IsTally before.now self.new) }
    {
        if let Some((node, epoch)) = recovery_of(entry) {
            return self.recover(before, entry, node, epoch);
        }
        let newest = self.terms.len() - 1;
        match next_members(alloc, &self.terms[newest].members, entry)? {
            Some(members) => {
                self.begin(alloc, members)?;
                Ok(())
            }
            None => Ok(()),
        }
    }
}
