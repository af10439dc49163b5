//! Which checks have come to a write. The history has to know it before a step, since a step may end them.

ghost use Rattle.std.specs.Prelude.{◌≡◌, ◌∷◌, ◌++◌, [], filter, IfOk, OnOk};
ghost use Rattle.std.specs.Option.{option_map, option_copied};
ghost use Rattle.sheep_node.specs.CheckWrites.{has_check_written};
ghost use Rattle.sheep_world.specs.World.{Host as TheHost};
ghost use Rattle.sheep_world.specs.HistoryAdditions.{gateway_of};
ghost use Rattle.sheep_world.specs.RepliesInParts.{is_written_check, written_checks};

use crate::host::Host;
use crate::script_requests::session_asking;
use crate::world_state::WorldState;
use cluster_script::Script;
use object_id::{Items, NoMemory};

impl Host {
    /// Whether the node has a request as a check that has come to a write.
    pub fn has_check_written(&self, req: u32) -> bool
        ensures { result ≡ has_check_written req self.now.node }
    {
        match self.node().request(req) {
            Some(request) => request.course.has_written(),
            None => false,
        }
    }
}

impl WorldState {
    /// The host of the gateway of a request.
    fn gateway_of(&self, script: &Script, req: u32) -> Option<&Host>
        ensures { option_map (λ (host : TheHost). host.node) (option_copied result) ≡ gateway_of script.now req self.now }
    {
        let number = session_asking(script, req)?;
        self.hosts.get(script.session(number)?.node)
    }

    /// Whether a request's gateway has it as a check that has come to a write. Takes no memory.
    pub fn has_check_written(&self, script: &Script, req: u32) -> bool
        ensures { result ≡ is_written_check script.now self.now req }
    {
        match self.gateway_of(script, req) {
            Some(host) => host.has_check_written(req),
            None => false,
        }
    }

    /// Adds a check that has come to a write.
    fn add_written(
        &self,
        script: &Script,
        written: &mut Items<u32>,
        req: u32,
    ) -> Result<(), NoMemory>
        ensures { OnOk result (written.new ≡ written.old ++ filter (is_written_check script.now self.now) (req ∷ [])) }
    {
        if self.has_check_written(script, req) {
            return written.push(req);
        }
        Ok(())
    }

    /// Adds those of these checks that have come to a write.
    fn add_written_among(
        &self,
        script: &Script,
        written: &mut Items<u32>,
        checks: &[u32],
    ) -> Result<(), NoMemory>
        ensures { OnOk result (written.new ≡ written.old ++ filter (is_written_check script.now self.now) checks.now) }
    {
        for req in checks {
            self.add_written(script, written, *req)?;
        }
        Ok(())
    }

    /// The checks without reply that have come to a write. Passes over the sessions' requests without reply, and looks at a node for the
    /// checks among them alone.
    pub fn written_checks(&self, script: &Script) -> Result<Items<u32>, NoMemory>
        ensures { IfOk result (λ written. written ≡ written_checks script.now self.now) }
    {
        let checks = self.guests.unanswered_checks(self.alloc, script)?;
        let mut written = Items::new(self.alloc);
        self.add_written_among(script, &mut written, checks.as_slice())?;
        Ok(written)
    }
}
