ghost use Rattle.std.specs.Prelude.{◌≡◌, ℕ, true, false, None, OnOk, OnErr, is_some, if◌then◌else◌};
ghost use Rattle.std.specs.BTreeSet.{contains};
ghost use Rattle.std.specs.Option.{option_copied};
ghost use Rattle.std.specs.FinMap as tree;
ghost use Rattle.sheep_node.specs.KeptLog.{asker_among};
ghost use Rattle.sheep_node.specs.AwaitedNumbers.{waits_there, mark_cmp, is_mark};

use crate::course::Request;
use object_id::{Entry, NoMemory};
use std::alloc::Global;
use std::collections::{BTreeMap, BTreeSet};
use std::marker::Model;
use vdi_ops::subject_number;

/// The requests that have no reply, by their numbers. Contracts see the finite map.
#[derive(Debug)]
pub(crate) struct Requests {
    by_number: BTreeMap<u32, Request>,
    /// Of each request that waits for an entry the number that this is about, and the request's.
    marks: BTreeSet<(u32, u32)>,
}

/// Written out, so that letting one go is one call wherever it is done, and no cases there.
impl Drop for Requests {
    fn drop(self) {
        let Requests { by_number, marks } = self;
        drop(by_number);
        drop(marks);
    }
}

impl Model for Requests {
    ghost use Rattle.std.specs.Coded.{codes, coded_ℕ};
    ghost use Rattle.std.specs.FinMap as tree;
    ghost use Rattle.std.specs.Ordering.{nat_cmp};
    ghost use Rattle.sheep_node.specs.declared.course.Request.{Request};
    ghost use Rattle.sheep_node.specs.AwaitedNumbers.{AreRequestMarks};

    ghost Value = { tree.FinMap nat_cmp Request };

    ghost coded = { tree.code coded_ℕ (Prim.hlevel codes) };

    ghost view = { λ requests. tree.from_entries requests.by_number.entries };

    ghost invariant = { λ requests. AreRequestMarks requests.marks (tree.from_entries requests.by_number.entries) };
}

/// A request has the mark of the number that it waits for, if it waits for one. Without memory nothing changes.
fn mark(marks: &mut BTreeSet<(u32, u32)>, awaited: Option<u32>, req: u32) -> Result<(), NoMemory>
    ensures ok { OnOk result ((number other : ℕ) → contains mark_cmp marks.new (number, other)
        ≡ (if is_mark awaited req number other then true else contains mark_cmp marks.old (number, other))) }
    ensures err { OnErr result (marks.new ≡ marks.old) }
{
    match awaited {
        Some(number) => {
            marks.insert((number, req))?;
            Ok(())
        }
        None => Ok(()),
    }
}

/// A request doesn't have that mark any more.
fn unmark(marks: &mut BTreeSet<(u32, u32)>, awaited: Option<u32>, req: u32)
    ensures { (number other : ℕ) → contains mark_cmp marks.new (number, other)
        ≡ (if is_mark awaited req number other then false else contains mark_cmp marks.old (number, other)) }
{
    let Some(number) = awaited else {
        return;
    };
    marks.remove(&(number, req));
}

impl Requests {
    pub fn new(alloc: Global) -> Requests
        ensures { result ≡ tree.empty }
    {
        Requests {
            by_number: BTreeMap::new(alloc),
            marks: BTreeSet::new(alloc),
        }
    }

    pub fn get(&self, req: u32) -> Option<&Request>
        ensures { option_copied result ≡ tree.get self.now req }
    {
        self.by_number.get(&req)
    }

    pub fn has(&self, req: u32) -> bool
        ensures { result ≡ is_some (tree.get self.now req) }
    {
        self.get(req).is_some()
    }

    /// Whether a request waits for the decision on exactly this entry.
    fn waits_for(&self, req: u32, entry: &Entry) -> bool
        ensures { result ≡ waits_there entry.now (tree.get self.now req) }
    {
        match self.get(req) {
            Some(request) => request.course.waits_for(entry),
            None => false,
        }
    }

    /// The request that waits for the decision on exactly this entry. Costs the logarithm of the requests that wait for one, and a
    /// look-up of each, up to that one, that waits for an entry about the same number. Takes no memory.
    pub fn find_by_entry(&self, entry: &Entry) -> Option<u32>
        ensures { result ≡ asker_among entry.now self.now }
    {
        let number = subject_number(entry);
        for (_, req) in self.marks.range((number, 0)..=(number, u32::MAX)) {
            if self.waits_for(*req, entry) {
                return Some(*req);
            }
        }
        None
    }

    /// Costs four look-ups at most. Without memory no request has the number.
    pub fn put(&mut self, req: u32, request: Request) -> Result<(), NoMemory>
        ensures { OnOk result (self.new ≡ tree.insert self.old req request) }
    {
        drop(self.remove(req));
        self.put_new(req, request)
    }

    /// Puts a request under a number that none has. Without memory nothing changes.
    fn put_new(&mut self, req: u32, request: Request) -> Result<(), NoMemory>
        requires { tree.get self.old req ≡ None }
        ensures { OnOk result (self.new ≡ tree.insert self.old req request) }
    {
        let awaited = request.course.awaited_number();
        mark(&mut self.marks, awaited, req)?;
        match self.by_number.insert(req, request) {
            Ok(old) => {
                drop(old);
                Ok(())
            }
            Err(refused) => {
                drop(refused);
                unmark(&mut self.marks, awaited, req);
                Err(NoMemory)
            }
        }
    }

    /// Costs two look-ups at most, and takes no memory.
    pub fn remove(&mut self, req: u32) -> Option<Request>
        ensures value { result ≡ tree.get self.old req }
        ensures gone { self.new ≡ tree.remove self.old req }
    {
        let Some(request) = self.by_number.remove(&req) else {
            return None;
        };
        unmark(&mut self.marks, request.course.awaited_number(), req);
        Some(request)
    }
}
