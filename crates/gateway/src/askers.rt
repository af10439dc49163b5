ghost use Rattle.std.specs.Prelude.{◌≡◌, ℕ, ◌==◌, false, Some, OnOk, OnErr, if◌then◌else◌};
ghost use Rattle.std.specs.List.{list_any};
ghost use Rattle.std.specs.FinMap as tree;
ghost use Rattle.gateway.specs.declared.message.Message.{Message as TheMessage};

use crate::message::Message;
use object_id::NoMemory;
use std::alloc::Global;
use std::collections::BTreeMap;
use std::marker::Model;

/// Of which request a message is, by its number. Contracts see the finite map.
pub(crate) struct Askers {
    requests: BTreeMap<u32, u32>,
}

/// Written out, so that letting one go is one call wherever it is done, and no cases there.
impl Drop for Askers {
    fn drop(self) {
        let Askers { requests } = self;
        drop(requests);
    }
}

impl Model for Askers {
    ghost use Rattle.std.specs.Coded.{codes, coded_ℕ};
    ghost use Rattle.std.specs.Prelude.{ℕ};
    ghost use Rattle.std.specs.FinMap as tree;
    ghost use Rattle.std.specs.Ordering.{nat_cmp};

    ghost Value = { tree.FinMap nat_cmp ℕ };

    ghost coded = { tree.code coded_ℕ coded_ℕ };

    ghost view = { λ askers. tree.from_entries askers.requests.entries };
}

impl Askers {
    pub fn new(alloc: Global) -> Askers
        ensures { result ≡ tree.empty }
    {
        Askers {
            requests: BTreeMap::new(alloc),
        }
    }

    pub fn request(&self, number: u32) -> Option<u32>
        ensures { result ≡ tree.get self.now number }
    {
        self.requests.get(&number).copied()
    }

    fn put(&mut self, number: u32, req: u32) -> Result<(), NoMemory>
        ensures ok { OnOk result (self.new ≡ tree.insert self.old number req) }
        ensures err { OnErr result (self.new ≡ self.old) }
    {
        self.requests.insert(number, req)?;
        Ok(())
    }

    pub fn remove(&mut self, number: u32)
        ensures { self.new ≡ tree.remove self.old number }
    {
        self.requests.remove(&number);
    }

    /// The messages are of a request. Without memory some of their numbers may lead to it, and all others stay.
    pub fn put_all(&mut self, messages: &[Message], req: u32) -> Result<(), NoMemory>
        ensures ok { OnOk result ((number : ℕ) → tree.get self.new number
            ≡ (if list_any (λ (message : TheMessage). message.number == number) messages.now then Some req else tree.get self.old number)) }
        ensures err { OnErr result ((number : ℕ) → list_any (λ (message : TheMessage). message.number == number) messages.now ≡ false
            → tree.get self.new number ≡ tree.get self.old number) }
    {
        for message in messages {
            self.put(message.number, req)?;
        }
        Ok(())
    }
}
