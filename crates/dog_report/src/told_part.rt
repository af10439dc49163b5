//! The part of a report that is told already.

ghost use Rattle.std.specs.Prelude.{◌≡◌, false, [], ◌++◌, OnOk};
ghost use Rattle.dog_report.specs.Fates.{Gone, Pending, Unsent};
ghost use Rattle.dog_report.specs.Report.{list_text};
ghost use Rattle.dog_report.specs.ToldPart.{told_part_of, told_with, told_with_held};

use crate::counts::{Counts, one_more};
use crate::fates::{push_gone, push_pending, push_unsent};
use crate::held_line::HeldLine;
use crate::list::push_list;
use cluster_script::Statement;
use object_id::{Bytes, NoMemory};
use sheep_world::World;
use std::alloc::Global;
use std::marker::Model;

/// The lines that are told: their text, and how many tell of a request in each way. Contracts see the record `ToldPart` of
/// `specs/ToldPart.antt`. Out of memory nothing more is said of it.
#[derive(Debug, Drop)]
pub struct ToldPart {
    text: Vec<u8>,
    counts: Counts,
}

impl Model for ToldPart {
    ghost use Rattle.dog_report.specs.ToldPart.{ToldPart as TheToldPart};

    ghost Value = { TheToldPart };

    ghost view = { λ part. record { text = part.text.items; counts = part.counts } };
}

impl ToldPart {
    /// No line. Takes no memory.
    pub fn new(alloc: Global) -> ToldPart
        ensures { result ≡ told_part_of [] }
    {
        ToldPart {
            text: Vec::new(alloc),
            counts: Counts {
                ok: 0,
                refused: 0,
                gone: 0,
                pending: 0,
                unsent: 0,
            },
        }
    }

    /// Goes on with a line that was made when its reply came.
    pub fn tell_held(&mut self, line: HeldLine) -> Result<(), NoMemory>
        ensures { OnOk result (self.new ≡ told_with_held self.old line) }
    {
        self.text.extend_from_slice(line.text.as_slice())?;
        if line.refused {
            self.counts.refused = one_more(self.counts.refused)?;
        } else {
            self.counts.ok = one_more(self.counts.ok)?;
        }
        Ok(())
    }

    /// Goes on with a request without reply, whose gateway's incarnation is lost.
    pub fn tell_gone(&mut self, number: u32) -> Result<(), NoMemory>
        ensures { OnOk result (self.new ≡ told_with self.old number Gone) }
    {
        push_gone(&mut self.text, number)?;
        self.counts.gone = one_more(self.counts.gone)?;
        Ok(())
    }

    /// Goes on with a request that was started, and has no reply.
    pub fn tell_pending(&mut self, number: u32) -> Result<(), NoMemory>
        ensures { OnOk result (self.new ≡ told_with self.old number Pending) }
    {
        push_pending(&mut self.text, number)?;
        self.counts.pending = one_more(self.counts.pending)?;
        Ok(())
    }

    /// Goes on with a request that was never started.
    pub fn tell_unsent(&mut self, number: u32) -> Result<(), NoMemory>
        ensures { OnOk result (self.new ≡ told_with self.old number Unsent) }
    {
        push_unsent(&mut self.text, number)?;
        self.counts.unsent = one_more(self.counts.unsent)?;
        Ok(())
    }

    /// Goes on with the list of a barrier.
    pub fn tell_list(
        &mut self,
        alloc: Global,
        world: &World,
        barrier: &Statement,
    ) -> Result<(), NoMemory>
        requires { world.now.spent ≡ false }
        ensures { OnOk result (self.new ≡ record self.old { text = self.old.text ++ list_text barrier.now world.now.world }) }
    {
        push_list(alloc, &mut self.text, world, barrier)
    }

    /// The text, and the counts. Copies nothing.
    pub fn into_parts(self) -> (Bytes, Counts)
        ensures { result ≡ (self.text, self.counts) }
    {
        (Bytes::from_vec(self.text), self.counts)
    }
}
