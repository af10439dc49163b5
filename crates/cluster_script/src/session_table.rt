ghost use Rattle.std.specs.Prelude.{◌≡◌, ℕ, ◌+◌, ◌^◌, ◌<◌, ◌≤◌, length, if◌then◌else◌};
ghost use Rattle.cluster_script.specs.Sessions.{brings_back};
ghost use Rattle.cluster_script.specs.Language.{IsScript};
ghost use Rattle.cluster_script.specs.KeptIndex.{session_kept, backs_kept, session_by, MayBeNoted, IsSessionTable};

use crate::index::SessionOfScript;
use crate::statement::Statement;
use object_id::{INPUT_BYTES_MAX, NODES_MAX, SESSIONS_MAX};

/// The sessions of statements, by their numbers, and how often each node came back.
#[derive(Clone, Copy, Debug)]
pub struct SessionTable {
    sessions: [Option<SessionOfScript>; SESSIONS_MAX as usize + 1],
    backs: [u32; NODES_MAX as usize],
}

impl SessionTable {
    /// The table of the statements of a script. Looks at each of them.
    pub fn of(statements: &[Statement]) -> Self
        requires count { length statements.now ≤ INPUT_BYTES_MAX }
        requires script { IsScript statements.now }
        ensures { IsSessionTable statements.now result }
    {
        let mut table = SessionTable {
            sessions: [None; SESSIONS_MAX as usize + 1],
            backs: [0; NODES_MAX as usize],
        };
        for s in statements {
            table.note(s);
        }
        table
    }

    /// The session of a number, where one is declared.
    pub fn get(&self, number: u32) -> Option<SessionOfScript>
        ensures { result ≡ session_kept number self.now }
    {
        if number > SESSIONS_MAX {
            return None;
        }
        self.sessions[number as usize]
    }

    /// Takes in one statement more.
    fn note(&mut self, s: &Statement)
        requires numbers { MayBeNoted s.now }
        requires fits { (node : ℕ) → backs_kept node self.old + 1 < 2 ^ 32 }
        ensures sessions { (number : ℕ) → session_kept number self.new ≡ session_by number self.old s.now }
        ensures backs { (node : ℕ) → backs_kept node self.new ≡ backs_kept node self.old + (if brings_back node s.now then 1 else 0) }
    {
        match s {
            Statement::Session { session, node } => {
                self.sessions[*session as usize] = Some(SessionOfScript {
                    number: *session,
                    node: *node,
                    incarnation: 1 + self.backs[*node as usize],
                });
            }
            Statement::Back { node } => self.backs[*node as usize] += 1,
            _ => {}
        }
    }
}
