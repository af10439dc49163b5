ghost use Rattle.std.specs.Prelude.{◌≡◌, ◌≤◌, length, IfOk};
ghost use Rattle.cluster_script.specs.Language.{IsScript};
ghost use Rattle.cluster_script.specs.KeptIndex.{entry_numbered, IsIndex};

use crate::index::{limit_in, nodes_in, tries_in, vnodes_in};
use crate::phase_entry::{PhaseEntry, control_places, phase_entries};
use crate::request_entry::{RequestEntry, numbers_by_session, request_entries};
use crate::session_table::SessionTable;
use crate::statement::Statement;
use crate::zone_table::zones_in;
use object_id::{INPUT_BYTES_MAX, Items, NODES_MAX, NoMemory};
use std::alloc::Global;

/// What is looked up in a script, made once of its statements.
#[derive(Debug)]
pub struct Index {
    pub nodes: u32,
    pub vnodes: u16,
    pub tries: u32,
    pub limit: u32,
    pub zones: [u32; NODES_MAX as usize],
    pub sessions: SessionTable,
    /// Where the requests stand, by number from 1 up.
    pub requests: Items<RequestEntry>,
    /// The numbers of the requests of sessions 1 up.
    pub numbers: Items<Items<u32>>,
    /// The places of the controls.
    pub controls: Items<u32>,
    pub phases: Items<PhaseEntry>,
}

/// Written out, so that letting one go is one call wherever it is done, and no cases there.
impl Drop for Index {
    fn drop(self) {
        let Index {
            nodes: _,
            vnodes: _,
            tries: _,
            limit: _,
            zones,
            sessions,
            requests,
            numbers,
            controls,
            phases,
        } = self;
        drop(zones);
        drop(sessions);
        drop(requests);
        drop(numbers);
        drop(controls);
        drop(phases);
    }
}

impl Index {
    /// The index of a script's statements. Looks at each of them a few times, and takes memory for tables of them.
    pub fn of(alloc: Global, statements: &[Statement]) -> Result<Self, NoMemory>
        requires count { length statements.now ≤ INPUT_BYTES_MAX }
        requires script { IsScript statements.now }
        ensures { IfOk result (IsIndex statements.now) }
    {
        let requests = request_entries(alloc, statements)?;
        let numbers = numbers_by_session(alloc, requests.as_slice())?;
        let controls = control_places(alloc, statements)?;
        let phases = phase_entries(alloc, statements)?;
        Ok(Index {
            nodes: nodes_in(statements),
            vnodes: vnodes_in(statements),
            tries: tries_in(statements),
            limit: limit_in(statements),
            zones: zones_in(statements),
            sessions: SessionTable::of(statements),
            requests,
            numbers,
            controls,
            phases,
        })
    }

    /// Where the request of a number stands; there is no number 0.
    pub fn entry_of(&self, number: u32) -> Option<RequestEntry>
        ensures { result ≡ entry_numbered self.now.requests number }
    {
        if number == 0 {
            return None;
        }
        self.requests.get(number as usize - 1).copied()
    }
}
