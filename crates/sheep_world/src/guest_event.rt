//! A session's next request begins.

ghost use Rattle.std.specs.Prelude.{◌≡◌, ◌+◌, ◌^◌, ◌<◌, [], ◌++◌, IfOk, Some, None};
ghost use Rattle.std.specs.Option.{option_copied};
ghost use Rattle.cluster_script.specs.Index.{session_seen};
ghost use Rattle.sheep_world.specs.World.{progress_at};
ghost use Rattle.sheep_world.specs.Effects.{open_disk_at, disk_open, request_started, guest_begun, guest_effect};
ghost use Rattle.sheep_world.specs.NodeSteps.{at_rest};
ghost use Rattle.sheep_world.specs.GuestInParts.{input_effect, input_adds};
ghost use Rattle.sheep_world.specs.HistoryAdditions.{request_grown, writes_grown, replies_grown};

use crate::history_blocks::add_begun;
use crate::progress::StartedRequest;
use crate::request_conditions::next_request;
use crate::script_requests::{input_of, statement_of};
use crate::world_state::WorldState;
use cluster_script::{Script, SessionOfScript};
use disk_history::HistList;
use guest_driver::Disk;
use object_id::NoMemory;

impl WorldState {
    /// The disk that a session has open at its gateway. Takes no memory.
    pub fn open_disk_of(&self, session: SessionOfScript) -> Option<&Disk>
        ensures { option_copied result ≡ open_disk_at (session_seen session) self.now }
    {
        let host = self.hosts.get(session.node)?;
        host.node().session(session.number)?.disk.as_ref()
    }

    /// Its id.
    fn disk_open(&self, session: SessionOfScript) -> Option<u32>
        ensures { result ≡ disk_open (session_seen session) self.now }
    {
        match self.open_disk_of(session) {
            Some(disk) => Some(disk.inode().vid().0),
            None => None,
        }
    }

    /// What a request begins on the disk that its session has open, if there is one: of a write its blocks.
    fn begun_writes(
        &self,
        script: &Script,
        session: SessionOfScript,
        req: u32,
    ) -> Result<HistList, NoMemory>
        ensures { IfOk result (λ events. events ≡ request_grown script.now self.now (session_seen session) (Some req)) }
    {
        let mut events = HistList::new(self.alloc);
        if let Some(statement) = statement_of(script, req) {
            let disk = self.open_disk_of(session);
            add_begun(self.alloc, &mut events, req, disk, statement)?;
        }
        Ok(events)
    }

    /// A request of a session is started, with the disk that the session has open.
    fn request_started(self, session: SessionOfScript, req: u32) -> Result<WorldState, NoMemory>
        requires { (progress_at session.number self).begun + 1 < 2 ^ 32 }
        ensures { IfOk result (λ after. after ≡ request_started (session_seen session) (Some req) self) }
    {
        let disk = self.disk_open(session);
        let started = StartedRequest { req, disk };
        let mut world = self;
        let alloc = world.alloc;
        world.guests.with_started(alloc, session.number, started)?;
        Ok(world)
    }

    /// The gateway steps on the input of a request, if it has one; with the events before, and behind them what the replies of the step
    /// add to the history. Takes the bytes of a write once.
    fn input_taken(
        self,
        script: &Script,
        node: u32,
        req: u32,
        earlier: HistList,
    ) -> Result<(WorldState, HistList), NoMemory>
        ensures world { IfOk result (λ made. made.0 ≡ input_effect script.now node req self) }
        ensures grown { IfOk result (λ made. made.1 ≡ input_adds script.now req self made.0 earlier) }
    {
        match input_of(self.alloc, script, req)? {
            Some(input) => self.replied(script, node, input, earlier),
            None => Ok((self, earlier)),
        }
    }

    /// A request of a session is started, and its gateway steps on it; with the writes that it begins, and behind them what the replies
    /// of the step add to the history.
    fn request_asked(
        self,
        script: &Script,
        session: SessionOfScript,
        req: u32,
    ) -> Result<(WorldState, HistList), NoMemory>
        requires { (progress_at session.number self).begun + 1 < 2 ^ 32 }
        ensures world { IfOk result (λ made. made.0
            ≡ input_effect script.now session.node req (request_started (session_seen session) (Some req) (at_rest self))) }
        ensures grown { IfOk result (λ made. made.1
            ≡ input_adds script.now req (request_started (session_seen session) (Some req) (at_rest self)) made.0
            (request_grown script.now self (session_seen session) (Some req))) }
    {
        let writes = self.begun_writes(script, session, req)?;
        let begun = self.at_rest().request_started(session, req)?;
        let (world, grown) = begun.input_taken(script, session.node, req, writes)?;
        Ok((world, grown))
    }

    /// No request is started: the world is at rest, and the history gets nothing. Takes no memory.
    fn rested(self) -> (WorldState, HistList)
        ensures world { result.0 ≡ at_rest self }
        ensures grown { result.1 ≡ [] }
    {
        let none = HistList::new(self.alloc);
        (self.at_rest(), none)
    }

    /// Guest: the session's next request is started, and its gateway steps on it; with the writes that it begins, and behind them what
    /// the replies of the step add to the history. Takes the bytes of a write three times.
    #[tactic(auto, unfolding(crate::specs::Effects::guest_effect))]
    pub fn guest_asked(
        self,
        script: &Script,
        number: u32,
    ) -> Result<(WorldState, HistList), NoMemory>
        ensures world { IfOk result (λ made. made.0 ≡ guest_effect script.now number self) }
        ensures grown { IfOk result (λ made. made.1
            ≡ writes_grown script.now number self ++ replies_grown script.now (guest_begun script.now number self) None made.0) }
    {
        let Some(session) = script.session(number) else {
            return Ok(self.rested());
        };
        let Some(req) = next_request(script, number, &self.guests) else {
            return Ok(self.rested());
        };
        let (world, grown) = self.request_asked(script, session, req)?;
        Ok((world, grown))
    }
}
