ghost use Rattle.std.specs.Prelude.{◌≡◌, ◌+◌, ◌^◌, ◌<◌, ◌==◌, ◌∷◌, ◌++◌, [], not, filter, IfOk, OnOk, fold, find, unwrap_or};
ghost use Rattle.std.specs.Option.{option_copied};
ghost use Rattle.std.specs.FinMap as tree;
ghost use Rattle.sheep_world.specs.declared.progress.StartedRequest.{StartedRequest as Started};
ghost use Rattle.sheep_world.specs.World.{no_progress};
ghost use Rattle.sheep_world.specs.Asking.{session_asking};
ghost use Rattle.sheep_world.specs.Effects.{progress_with_started};
ghost use Rattle.sheep_world.specs.NodeSteps.{progress_without_request, progress_after_reply_in, progress_after_reply};
ghost use Rattle.sheep_world.specs.HistoryAdditions.{is_started_request};
ghost use Rattle.sheep_world.specs.RepliesInParts.{is_check_request, checks_among, unanswered_checks};

use crate::progress::{SessionProgress, StartedRequest};
use crate::script_requests::{is_check_request, session_asking};
use cluster_script::Script;
use object_id::{Items, NoMemory};
use sheep_node::ReplyList;
use std::alloc::Global;
use std::collections::BTreeMap;
use std::marker::Model;

/// How far the sessions that have asked something are, by their numbers. Contracts see the finite map.
#[derive(Debug)]
pub(crate) struct Guests {
    by_number: BTreeMap<u32, SessionProgress>,
}

/// Written out, so that letting one go is one call wherever it is done, and no cases there.
impl Drop for Guests {
    fn drop(self) {
        let Guests { by_number } = self;
        drop(by_number);
    }
}

impl Model for Guests {
    ghost use Rattle.std.specs.Coded.{codes, coded_ℕ};
    ghost use Rattle.std.specs.FinMap as tree;
    ghost use Rattle.std.specs.Ordering.{nat_cmp};
    ghost use Rattle.sheep_world.specs.declared.progress.SessionProgress.{SessionProgress};

    ghost Value = { tree.FinMap nat_cmp SessionProgress };

    ghost coded = { tree.code coded_ℕ (Prim.hlevel codes) };

    ghost view = { λ guests. tree.from_entries guests.by_number.entries };
}

/// The request of a number among those that were started.
fn started_among(unanswered: &[StartedRequest], req: u32) -> Option<&StartedRequest>
    ensures { option_copied result ≡ find (is_started_request req) unanswered.now }
{
    unanswered.iter().find(|started| started.req == req)
}

/// A request is no longer among those that were started.
fn drop_request(unanswered: &mut Vec<StartedRequest>, req: u32)
    ensures { unanswered.new.items ≡ filter (λ (started : Started). not (started.req == req)) unanswered.old.items }
{
    unanswered.retain(|started| started.req != req);
}

/// A session with one request more that was started. Looks at none of the others.
fn with_started(
    progress: SessionProgress,
    started: StartedRequest,
) -> Result<SessionProgress, NoMemory>
    requires { progress.begun + 1 < 2 ^ 32 }
    ensures { IfOk result (λ longer. longer ≡ progress_with_started started progress) }
{
    let mut unanswered = progress.unanswered;
    unanswered.push(started)?;
    Ok(SessionProgress {
        begun: progress.begun + 1,
        unanswered,
    })
}

/// A session in which a request is no longer without reply. Takes no memory, and costs a look at each that is.
fn without_request(progress: SessionProgress, req: u32) -> SessionProgress
    ensures { result ≡ progress_without_request req progress }
{
    let mut unanswered = progress.unanswered.into_vec();
    drop_request(&mut unanswered, req);
    SessionProgress {
        begun: progress.begun,
        unanswered: Items::from_vec(unanswered),
    }
}

/// Adds a request, if it is a check.
fn add_check(script: &Script, checks: &mut Items<u32>, req: u32) -> Result<(), NoMemory>
    ensures { OnOk result (checks.new ≡ checks.old ++ filter (is_check_request script.now) (req ∷ [])) }
{
    if is_check_request(script, req) {
        return checks.push(req);
    }
    Ok(())
}

/// Adds the checks among a session's requests without reply.
fn add_checks(
    script: &Script,
    checks: &mut Items<u32>,
    unanswered: &[StartedRequest],
) -> Result<(), NoMemory>
    ensures { OnOk result (checks.new ≡ checks.old ++ checks_among script.now unanswered.now) }
{
    for started in unanswered {
        add_check(script, checks, started.req)?;
    }
    Ok(())
}

impl Guests {
    pub fn new(alloc: Global) -> Guests
        ensures { result ≡ tree.empty }
    {
        Guests {
            by_number: BTreeMap::new(alloc),
        }
    }

    pub fn get(&self, number: u32) -> Option<&SessionProgress>
        ensures { option_copied result ≡ tree.get self.now number }
    {
        self.by_number.get(&number)
    }

    /// How many requests of a session were started.
    pub fn begun(&self, number: u32) -> u32
        ensures { result ≡ (unwrap_or (tree.get self.now number) no_progress).begun }
    {
        match self.get(number) {
            Some(progress) => progress.begun,
            None => 0,
        }
    }

    /// The request of a number, where the session has started it, and it has no reply.
    pub fn started_at(&self, number: u32, req: u32) -> Option<StartedRequest>
        ensures { result ≡ find (is_started_request req) (unwrap_or (tree.get self.now number) no_progress).unanswered }
    {
        match self.get(number) {
            Some(progress) => started_among(progress.unanswered.as_slice(), req).copied(),
            None => None,
        }
    }

    /// The requests without reply that are checks, by their sessions. Looks at each without reply once, and takes memory for the checks
    /// alone.
    pub fn unanswered_checks(&self, alloc: Global, script: &Script) -> Result<Items<u32>, NoMemory>
        ensures { IfOk result (λ checks. checks ≡ unanswered_checks script.now self.now) }
    {
        let mut checks = Items::new(alloc);
        for (_, progress) in self.by_number.iter() {
            add_checks(script, &mut checks, progress.unanswered.as_slice())?;
        }
        Ok(checks)
    }

    fn put(&mut self, number: u32, progress: SessionProgress) -> Result<(), NoMemory>
        ensures { OnOk result (self.new ≡ tree.insert self.old number progress) }
    {
        drop(self.by_number.insert(number, progress)?);
        Ok(())
    }

    fn remove(&mut self, number: u32) -> Option<SessionProgress>
        ensures value { result ≡ tree.get self.old number }
        ensures gone { self.new ≡ tree.remove self.old number }
    {
        self.by_number.remove(&number)
    }

    /// The session of a number, which is no more among the others.
    fn take(&mut self, alloc: Global, number: u32) -> SessionProgress
        ensures session { result ≡ unwrap_or (tree.get self.old number) no_progress }
        ensures others { self.new ≡ tree.remove self.old number }
    {
        match self.remove(number) {
            Some(progress) => progress,
            None => SessionProgress {
                begun: 0,
                unanswered: Items::new(alloc),
            },
        }
    }

    /// A request of a session is started. Without memory nothing is known of the sessions.
    pub fn with_started(
        &mut self,
        alloc: Global,
        number: u32,
        started: StartedRequest,
    ) -> Result<(), NoMemory>
        requires { (unwrap_or (tree.get self.old number) no_progress).begun + 1 < 2 ^ 32 }
        ensures { OnOk result (self.new
            ≡ tree.insert self.old number (progress_with_started started (unwrap_or (tree.get self.old number) no_progress))) }
    {
        let progress = self.take(alloc, number);
        self.put(number, with_started(progress, started)?)
    }

    /// The request of a session has its reply, if a session asked it.
    fn answer(&mut self, alloc: Global, req: u32, asking: Option<u32>) -> Result<(), NoMemory>
        ensures { OnOk result (self.new ≡ progress_after_reply_in req asking self.old) }
    {
        match asking {
            Some(number) => {
                let progress = self.take(alloc, number);
                self.put(number, without_request(progress, req))
            }
            None => Ok(()),
        }
    }

    /// The request of a number has its reply, in the session that asked it. Without memory nothing is known of the sessions.
    pub fn after_reply(&mut self, alloc: Global, script: &Script, req: u32) -> Result<(), NoMemory>
        ensures { OnOk result (self.new ≡ progress_after_reply_in req (session_asking script.now req) self.old) }
    {
        self.answer(alloc, req, session_asking(script, req))
    }

    /// The requests of these replies have them, one after another. Without memory nothing is known of the sessions.
    pub fn after_replies(
        &mut self,
        alloc: Global,
        script: &Script,
        replies: &ReplyList,
    ) -> Result<(), NoMemory>
        ensures { OnOk result (self.new ≡ fold (progress_after_reply script.now) self.old replies.now) }
    {
        for reply in replies.as_slice() {
            self.after_reply(alloc, script, reply.0)?;
        }
        Ok(())
    }
}
