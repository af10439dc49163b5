ghost use Rattle.std.specs.Prelude.{◌≡◌, OnOk};
ghost use Rattle.std.specs.Option.{option_copied};
ghost use Rattle.std.specs.FinMap as tree;
ghost use Rattle.sheep_node.specs.SessionQueues.{session_among};

use crate::session::Session;
use object_id::NoMemory;
use std::alloc::Global;
use std::collections::BTreeMap;
use std::marker::Model;

/// The sessions that have asked something, by their numbers. Contracts see the finite map.
#[derive(Debug)]
pub(crate) struct Sessions {
    by_number: BTreeMap<u32, Session>,
}

/// Written out, so that letting one go is one call wherever it is done, and no cases there.
impl Drop for Sessions {
    fn drop(self) {
        let Sessions { by_number } = self;
        drop(by_number);
    }
}

impl Model for Sessions {
    ghost use Rattle.std.specs.Coded.{codes, coded_ℕ};
    ghost use Rattle.std.specs.FinMap as tree;
    ghost use Rattle.std.specs.Ordering.{nat_cmp};
    ghost use Rattle.sheep_node.specs.declared.session.Session.{Session};

    ghost Value = { tree.FinMap nat_cmp Session };

    ghost coded = { tree.code coded_ℕ (Prim.hlevel codes) };

    ghost view = { λ sessions. tree.from_entries sessions.by_number.entries };
}

impl Sessions {
    pub fn new(alloc: Global) -> Sessions
        ensures { result ≡ tree.empty }
    {
        Sessions {
            by_number: BTreeMap::new(alloc),
        }
    }

    pub fn get(&self, number: u32) -> Option<&Session>
        ensures { option_copied result ≡ tree.get self.now number }
    {
        self.by_number.get(&number)
    }

    pub fn put(&mut self, number: u32, session: Session) -> Result<(), NoMemory>
        ensures { OnOk result (self.new ≡ tree.insert self.old number session) }
    {
        drop(self.by_number.insert(number, session)?);
        Ok(())
    }

    fn remove(&mut self, number: u32) -> Option<Session>
        ensures value { result ≡ tree.get self.old number }
        ensures gone { self.new ≡ tree.remove self.old number }
    {
        self.by_number.remove(&number)
    }

    /// The session of a number, which is no more among the others; a new one, if it has asked nothing.
    pub fn take(&mut self, alloc: Global, number: u32) -> Session
        ensures session { result ≡ session_among number self.old }
        ensures others { self.new ≡ tree.remove self.old number }
    {
        match self.remove(number) {
            Some(session) => session,
            None => Session::new(alloc),
        }
    }
}
