ghost use Rattle.std.specs.Prelude.{◌≡◌, ◌≤◌, ◌<◌, length, slice_get, IfOk};
ghost use Rattle.std.specs.Option.{option_map, option_copied};
ghost use Rattle.cluster_script.specs.Language.{IsScript};
ghost use Rattle.cluster_script.specs.Settings.{nodes_of, vnodes_of, tries_of, limit_of, zone_of};
ghost use Rattle.cluster_script.specs.NumberedRequests.{numbers_of_session};
ghost use Rattle.cluster_script.specs.Phases.{phases_of};
ghost use Rattle.cluster_script.specs.Sessions.{session_numbered};
ghost use Rattle.cluster_script.specs.Index.{script_index, indexed_at, request_seen, session_seen, phase_counts, control_at, phase_barrier_at, phase_request_at};
ghost use Rattle.cluster_script.specs.Script.{script_in, AnswersText};

use crate::draft::Draft;
use crate::fault::{ReadError, ScriptFault};
use crate::index::{PhaseOfScript, RequestOfScript, SessionOfScript};
use crate::line::take_line;
use crate::phase_entry::barrier;
use crate::script_index::Index;
use crate::statement::Statement;
use crate::words::cut;
use object_id::{INPUT_BYTES_MAX, Items, NODES_MAX, NoMemory};
use std::alloc::Global;
use std::marker::Model;

/// The statements of a text that is a script, in order, and next to them what is looked up in them. No reader takes memory,
/// and none but [`Script::statements`] gives more than one thing: each costs the same for scripts of any length.
#[derive(Debug)]
pub struct Script {
    statements: Items<Statement>,
    index: Index,
}

/// Written out, so that letting one go is one call wherever it is done, and no cases there.
impl Drop for Script {
    fn drop(self) {
        let Script { statements, index } = self;
        drop(statements);
        drop(index);
    }
}

impl Model for Script {
    ghost use Rattle.std.specs.Prelude.{List, length, ◌≤◌};
    ghost use Rattle.cluster_script.specs.declared.statement.Statement.{Statement as Line};
    ghost use Rattle.object_id.specs.declared.limits.TheConstants.{INPUT_BYTES_MAX};
    ghost use Rattle.cluster_script.specs.Language.{IsScript};
    ghost use Rattle.cluster_script.specs.KeptIndex.{IsIndex};

    ghost Value = { List Line };

    ghost view = { λ script. script.statements };

    ghost invariant = { λ script. (length script.statements ≤ INPUT_BYTES_MAX) × IsScript script.statements
        × IsIndex script.statements script.index };
}

impl Script {
    /// The script of these statements. Looks at each of them a few times.
    fn of(alloc: Global, statements: Items<Statement>) -> Result<Self, NoMemory>
        requires count { length statements ≤ INPUT_BYTES_MAX }
        requires script { IsScript statements }
        ensures { IfOk result (λ script. script ≡ statements) }
    {
        let index = Index::of(alloc, statements.as_slice())?;
        Ok(Script { statements, index })
    }

    /// How many nodes are the opening members.
    pub fn nodes(&self) -> u32
        ensures { result ≡ nodes_of self.now }
    {
        self.index.nodes
    }

    /// How many virtual nodes each node has at first.
    pub fn vnodes(&self) -> u16
        ensures { result ≡ vnodes_of self.now }
    {
        self.index.vnodes
    }

    /// How many attempts a request has.
    pub fn tries(&self) -> u32
        ensures { result ≡ tries_of self.now }
    {
        self.index.tries
    }

    /// How many events a run may take.
    pub fn limit(&self) -> u32
        ensures { result ≡ limit_of self.now }
    {
        self.index.limit
    }

    /// The zone of a node.
    pub fn zone(&self, node: u32) -> u32
        requires { node < NODES_MAX }
        ensures { result ≡ zone_of self.now node }
    {
        self.index.zones[node as usize]
    }

    pub fn statements(&self) -> &[Statement]
        ensures statements { result.now ≡ self.now }
        ensures count { length result.now ≤ INPUT_BYTES_MAX }
        ensures script { IsScript result.now }
    {
        self.statements.as_slice()
    }

    /// The request of a number; the first one is number 1, and there is no number 0.
    pub fn request(&self, number: u32) -> Option<RequestOfScript<'_>>
        ensures { option_map request_seen result ≡ indexed_at (script_index self.now) number }
    {
        let entry = self.index.entry_of(number)?;
        let statement = self.statements.get(entry.place as usize)?;
        Some(RequestOfScript {
            statement,
            session: entry.session,
            phase: entry.phase,
        })
    }

    /// The number of a session's request at a place, from 0.
    pub fn request_of_session(&self, session: u32, place: u32) -> Option<u32>
        ensures { result ≡ slice_get (numbers_of_session self.now session) place }
    {
        let lists = &self.index.numbers;
        if session == 0 {
            return None;
        }
        let numbers = lists.get(session as usize - 1)?;
        numbers.get(place as usize).copied()
    }

    /// The session of a number, where one is declared.
    pub fn session(&self, number: u32) -> Option<SessionOfScript>
        ensures { option_map session_seen result ≡ session_numbered self.now number }
    {
        self.index.sessions.get(number)
    }

    /// How many phases there are.
    pub fn phase_count(&self) -> usize
        ensures { result ≡ length (phases_of self.now) }
    {
        self.index.phases.len()
    }

    /// The counts of the phase at a place, from 0.
    pub fn phase(&self, place: usize) -> Option<PhaseOfScript>
        ensures { result ≡ option_map phase_counts (slice_get (phases_of self.now) place) }
    {
        let phase = self.index.phases.get(place)?;
        Some(PhaseOfScript {
            controls: phase.controls,
            losses: phase.losses,
            requests: phase.requests,
        })
    }

    /// A control of a phase, by both places, from 0.
    pub fn control(&self, phase: usize, place: usize) -> Option<&Statement>
        ensures { option_copied result ≡ control_at self.now phase place }
    {
        let phase = self.index.phases.get(phase)?;
        if place >= phase.controls as usize {
            return None;
        }
        let control = self
            .index
            .controls
            .get(phase.controls_before as usize + place)?;
        self.statements.get(*control as usize)
    }

    /// The number of a phase's request, by both places, from 0.
    pub fn request_of_phase(&self, phase: usize, place: u32) -> Option<u32>
        ensures { result ≡ phase_request_at self.now phase place }
    {
        let phase = self.index.phases.get(phase)?;
        if place >= phase.requests {
            return None;
        }
        Some(phase.requests_before + place + 1)
    }

    /// The barrier that ends the phase at a place, from 0.
    pub fn barrier(&self, phase: usize) -> Option<Statement>
        ensures { result ≡ phase_barrier_at self.now phase }
    {
        let phase = self.index.phases.get(phase)?;
        barrier(&phase.barrier)
    }
}

/// Reads a text. A script is answered as its statements; else the answer is the first bad line, from 1, and its cause. Memory is taken
/// for a line only once all of it is read, so a text whose first line is bad is never answered by want of memory.
pub fn parse(alloc: Global, text: &[u8]) -> Result<Script, ScriptFault>
    requires { length text.now ≤ INPUT_BYTES_MAX }
    ensures exact { AnswersText result (script_in text.now) }
    ensures script { IfOk result IsScript }
{
    let mut draft = Draft::new(alloc);
    let mut rest = text;
    let mut number = 1;
    while !rest.is_empty() {
        let (line, after) = cut(rest, b'\n');
        match take_line(alloc, &mut draft, line) {
            Ok(()) => {}
            Err(ReadError::NoMemory) => return Err(ScriptFault::NoMemory),
            Err(ReadError::Cause(cause)) => return Err(ScriptFault::BadLine {
                line: number,
                cause,
            }),
        }
        rest = after;
        number += 1;
    }
    match Script::of(alloc, draft.into_statements()) {
        Ok(script) => Ok(script),
        Err(NoMemory) => Err(ScriptFault::NoMemory),
    }
}
