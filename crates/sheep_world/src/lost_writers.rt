//! Which writers a node's loss leaves without reply: what it adds to the history.

ghost use Rattle.std.specs.Prelude.{◌≡◌, ◌++◌, false, Some, IfOk, OnOk};
ghost use Rattle.std.specs.Option.{option_map_or};
ghost use Rattle.sheep_world.specs.HistoryAdditions.{is_of_incarnation, is_writing_request, writers_lost, loss_grown};
ghost use Rattle.sheep_world.specs.LossInParts.{is_lost_write_at, writer_lost};

use crate::host::Host;
use crate::reply_history::disk_began;
use crate::script_requests::{session_asking, statement_of};
use crate::world_state::WorldState;
use cluster_script::{Script, Statement};
use disk_history::{HistEvent, HistList};
use object_id::NoMemory;

impl Host {
    /// Whether a request writes: it is a write, or a check that has come to one.
    fn is_writing(&self, req: u32, statement: &Statement) -> bool
        ensures { result ≡ is_writing_request self.now.node (req, statement.now) }
    {
        match statement {
            Statement::Write { .. } => true,
            Statement::Check { .. } => self.has_check_written(req),
            _ => false,
        }
    }

    /// Whether a session belongs to the node's present incarnation.
    fn has_session(&self, script: &Script, node: u32, session: Option<u32>) -> bool
        ensures { result ≡ option_map_or (is_of_incarnation script.now node self.now.incarnation) session false }
    {
        let Some(number) = session else {
            return false;
        };
        match script.session(number) {
            Some(session) => session.node == node && session.incarnation == self.incarnation(),
            None => false,
        }
    }
}

impl WorldState {
    /// Whether the request of a number is a writer that a host's loss leaves without reply. Takes no memory.
    fn is_lost_write_at(&self, script: &Script, node: u32, host: &Host, req: u32) -> bool
        ensures { result ≡ is_lost_write_at script.now self.now node host.now req }
    {
        match statement_of(script, req) {
            Some(statement) => {
                host.is_writing(req, statement)
                    && host.has_session(script, node, session_asking(script, req))
                    && disk_began(script, req, &self.guests).is_some()
            }
            None => false,
        }
    }

    /// Adds a writer that is lost so.
    fn add_lost_writer(
        &self,
        script: &Script,
        events: &mut HistList,
        node: u32,
        host: &Host,
        req: u32,
    ) -> Result<(), NoMemory>
        ensures { OnOk result (events.new ≡ events.old ++ writer_lost script.now self.now node host.now req) }
    {
        if self.is_lost_write_at(script, node, host, req) {
            return events.push(HistEvent::WriterLost { req });
        }
        Ok(())
    }

    /// The writers that a host's loss leaves without reply, by request.
    fn writers_lost(&self, script: &Script, node: u32, host: &Host) -> Result<HistList, NoMemory>
        ensures { IfOk result (λ events. events ≡ writers_lost script.now self.now node (Some host.now)) }
    {
        let count = script.statements().len() as u32;
        let mut events = HistList::new(self.alloc);
        for place in 0..count {
            self.add_lost_writer(script, &mut events, node, host, place + 1)?;
        }
        Ok(events)
    }

    /// What the loss of a node adds to the history. Looks at each request of the script.
    pub fn loss_grown(&self, script: &Script, node: u32) -> Result<HistList, NoMemory>
        ensures { IfOk result (λ events. events ≡ loss_grown script.now node self.now) }
    {
        match self.hosts.get(node) {
            Some(host) => self.writers_lost(script, node, host),
            None => Ok(HistList::new(self.alloc)),
        }
    }
}
