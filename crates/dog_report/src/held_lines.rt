//! The lines of replies that no report has told yet.

ghost use Rattle.std.specs.Prelude.{◌≡◌, fold, OnOk};
ghost use Rattle.std.specs.FinMap as tree;
ghost use Rattle.dog_report.specs.ToldPart.{held_line, held_with};

use crate::held_line::{HeldLine, held_line};
use object_id::NoMemory;
use peer_proto::GuestRsp;
use sheep_node::ReplyList;
use std::alloc::Global;
use std::collections::BTreeMap;
use std::marker::Model;

/// The lines of requests that have their replies, by request, until a phase ends. Contracts see the finite map.
#[derive(Debug, Drop)]
pub struct HeldLines {
    by_number: BTreeMap<u32, HeldLine>,
}

impl Model for HeldLines {
    ghost use Rattle.std.specs.Coded.{codes, coded_ℕ};
    ghost use Rattle.std.specs.FinMap as tree;
    ghost use Rattle.std.specs.Ordering.{nat_cmp};
    ghost use Rattle.dog_report.specs.declared.held_line.HeldLine.{HeldLine};

    ghost Value = { tree.FinMap nat_cmp HeldLine };

    ghost coded = { tree.code coded_ℕ (Prim.hlevel codes) };

    ghost view = { λ lines. tree.from_entries lines.by_number.entries };
}

impl HeldLines {
    /// No line. Takes no memory.
    pub fn new(alloc: Global) -> HeldLines
        ensures { result ≡ tree.empty }
    {
        HeldLines {
            by_number: BTreeMap::new(alloc),
        }
    }

    /// The line of a request, which is no more among the others. Costs a look-up.
    pub fn take(&mut self, number: u32) -> Option<HeldLine>
        ensures value { result ≡ tree.get self.old number }
        ensures others { self.new ≡ tree.remove self.old number }
    {
        self.by_number.remove(&number)
    }

    fn put(&mut self, number: u32, line: HeldLine) -> Result<(), NoMemory>
        ensures { OnOk result (self.new ≡ tree.insert self.old number line) }
    {
        drop(self.by_number.insert(number, line)?);
        Ok(())
    }

    /// A request has its reply.
    fn hold(&mut self, alloc: Global, number: u32, rsp: &GuestRsp) -> Result<(), NoMemory>
        ensures { OnOk result (self.new ≡ tree.insert self.old number (held_line number rsp.now)) }
    {
        self.put(number, held_line(alloc, number, rsp)?)
    }

    /// Requests have these replies. Costs what the replies have, and a look-up for each.
    pub fn hold_all(&mut self, alloc: Global, replies: &ReplyList) -> Result<(), NoMemory>
        ensures { OnOk result (self.new ≡ fold held_with self.old replies.now) }
    {
        for (number, rsp) in replies.as_slice() {
            self.hold(alloc, *number, rsp)?;
        }
        Ok(())
    }
}
