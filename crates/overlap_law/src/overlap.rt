//! What the invariant of the overlap gives at once.
ghost use Rattle.std.specs.Prelude.{◌≡◌, ℕ, ◌<◌, Bool, true, List, Some, Ok};
ghost use Rattle.std.specs.FinMap as tree;
ghost use Rattle.object_id.specs.declared.node.NodeId.{NodeId};
ghost use Rattle.object_id.specs.declared.entry.Entry.{Entry};
ghost use Rattle.cluster_script.specs.declared.statement.Statement.{Statement};
ghost use Rattle.peer_proto.specs.declared.ask.PeerReq.{PeerReq};
ghost use Rattle.peer_proto.specs.Ask.{ask_in};
ghost use Rattle.message_wire.specs.declared.name.MessageName.{MessageName};
ghost use Rattle.message_wire.specs.declared.packet.Packet.TheVariants.{Request};
ghost use Rattle.overlap_law.specs.Reached.{Hosts};
ghost use Rattle.epoch_log.specs.Epochs.{settled_of};
ghost use Rattle.overlap_law.specs.Holders.{targets_by};
ghost use Rattle.overlap_law.specs.Past.{MomentWithPast, counts, first_moment, next_moment, run_with_past};
ghost use Rattle.overlap_law.specs.Contents.{AttemptsStand};
ghost use Rattle.overlap_law.specs.Facts.{CompleteLists, HoldersOfTheBase, EachGood};
ghost use Rattle.overlap_law.specs.Headline.{IsLegalWhereAvailable};
ghost use Rattle.overlap_law.specs.Each.{EachHost};
ghost use Rattle.overlap_law.specs.Grants.{leave_of};
ghost use Rattle.overlap_law.specs.Packets.{Wire};
ghost use Rattle.overlap_law.specs.Flight.{TheGoneAreFenced};
ghost use Rattle.overlap_law.specs.NodeEpochs.{TheSettledHaveRecovered};
ghost use Rattle.overlap_law.specs.MomentChanges.{RunsAreInRange};
ghost use Rattle.overlap_law.specs.Overlap.{Overlap, OverlapAt, OverlapOf, OverlapByTests, CallsFewer};
ghost use Rattle.sheep_world.specs.RunsWithAsks.{Move};

/// The replies are legal in each moment of which the invariant holds.
pub fn the_overlap_gives_legal_replies()
    ensures { (moment : MomentWithPast) → Overlap moment → IsLegalWhereAvailable moment.past }
{}

/// The lists of recoveries are complete there, for each object that is good.
pub fn the_overlap_gives_complete_lists()
    ensures { (moment : MomentWithPast) → Overlap moment
        → EachGood moment.world moment.past (CompleteLists moment.past.listed moment.world.hosts) }
{}

/// An attempt that isn't made is doomed, or each row that reaches beyond its epoch has it, for each object that is good.
pub fn the_overlap_makes_attempts_stand()
    ensures { (moment : MomentWithPast) → Overlap moment → EachGood moment.world moment.past (AttemptsStand moment.world.hosts) }
{}

/// Each target of the base's epoch, or of a later settled one, that counts for it has a row that holds it, for each object
/// that is good.
pub fn the_overlap_gives_holders()
    ensures { (moment : MomentWithPast) → Overlap moment → EachGood moment.world moment.past
        (HoldersOfTheBase (targets_by moment.world.log) (counts moment.past.ended moment.world) (settled_of moment.world.log)
        moment.world.hosts) }
{}

/// The messages of a lost gateway are of epochs below that of its `Leave`, as the facts say it.
pub fn the_messages_of_the_gone_are_fenced()
    ensures { (log : List Entry) (hosts : Hosts) (wire : Wire) → TheGoneAreFenced log hosts wire
        → EachHost hosts (λ n host. (epoch : ℕ) (name : MessageName) (to : NodeId) (bytes : List ℕ) (request : PeerReq)
        → host.is_lost ≡ true → leave_of log n host.incarnation ≡ Some epoch → name.sender.0 ≡ n → tree.get wire name
        ≡ Some (Request to bytes)
        → ask_in bytes ≡ Ok request → request.epoch.0 < epoch) }
{}

/// Each member of the settled epoch has recovered in it, by what settled means: no event has anything to show there.
pub fn the_settled_have_recovered()
    ensures { (log : List Entry) (hosts : Hosts) → TheSettledHaveRecovered log hosts }
{}

/// What the invariant says of the objects that some tests call live and good, and of the ids of disks that one calls good, it says of those
/// that tests call so which call fewer so.
pub fn the_overlap_holds_of_fewer()
    ensures { (live good good_id few_live few_good few_ids : ℕ → Bool) (moment : MomentWithPast) → CallsFewer few_live live
        → CallsFewer few_good good → CallsFewer few_ids good_id → OverlapAt live good good_id moment
        → OverlapAt few_live few_good few_ids moment }
{}

/// The moment that a script opens with has the invariant, if the script's runs are in range: nobody has asked, written or recovered
/// anything.
pub fn a_script_opens_with_the_overlap()
    ensures { (script : List Statement) → RunsAreInRange script → OverlapOf script (first_moment script) }
{}

/// What the invariant says by the tests for live and good objects and good ids, it says at the moment before an event by the tests of the
/// moment after it too, in each run in range: what is dead or was once not available stays so, and of what isn't born yet there is nothing.
/// So the tests may stay the same over an event's trail.
pub fn the_overlap_holds_by_the_tests_of_an_events_end()
    ensures { (script : List Statement) (moves : List Move) (move : Move) (before after : MomentWithPast) → RunsAreInRange script
        → run_with_past script moves ≡ Some before → next_moment script move before ≡ Some after → Overlap before
        → OverlapByTests after before }
{}
