//! A guest's request comes: it is refused on the spot, or is taken. A read or write that is taken waits for its turn, and begins if that
//! has come; any other request begins at once.

ghost use Rattle.std.specs.Prelude.{◌≡◌, ◌+◌, ◌*◌, ◌/◌, ◌^◌, ◌<◌, ◌≤◌, ◌++◌, [], ◌∷◌, false, None, Some, IsTrue, OnOk};
ghost use Rattle.std.specs.Option.{option_map_or};
ghost use Rattle.object_id.specs.declared.limits.TheConstants.{SHIFT_MAX, OBJECTS_MAX};
ghost use Rattle.gateway_queue.specs.Queue.{is_queued};
ghost use Rattle.guest_driver.specs.declared.disk.Disk.{Disk as TheDisk};
ghost use Rattle.guest_driver.specs.Pieces.{offset_of, size_of, is_ask, first_index, last_index};
ghost use Rattle.vdi_ops.specs.Kept.{HasFirstEntry};
ghost use Rattle.peer_proto.specs.declared.guest.VdiAsk.TheVariants.{Check};
ghost use Rattle.sheep_node.specs.declared.ask.Ask.TheVariants.{Disk as DiskRequest, Object as ObjectRequest, Entry as EntryRequest};
ghost use Rattle.sheep_node.specs.declared.input.Input.TheVariants.{Guest};
ghost use Rattle.sheep_node.specs.StepState.{at_first, session_in, with_session, with_course};
ghost use Rattle.sheep_node.specs.declared.course.Course.TheVariants.{Waiting};
ghost use Rattle.sheep_node.specs.Courses.{inode_open};
ghost use Rattle.sheep_node.specs.MayBegin.{MayComeToWork, MayBeginWork};
ghost use Rattle.sheep_node.specs.InStep.{IsInStep};
ghost use Rattle.sheep_node.specs.May.{May};
ghost use Rattle.sheep_node.specs.MayTake.{MayQueue, MayCommand, MayTake};
ghost use Rattle.sheep_node.specs.NodeInvariant.{IsSoundNode};
ghost use Rattle.sheep_node.specs.Guests.{is_open_disk_deleted, request_refusal, with_queued_request};
ghost use Rattle.sheep_node.specs.Guests.{command_taken, request_taken, on_guest};

use crate::ask::Ask;
use crate::course::Course;
use crate::step_state::StepState;
use disk_check::begin_check;
use guest_driver::{Disk, disk_refusal};
use object_id::{Cause, Entry, NoMemory, NodeId};
use peer_proto::{DiskAsk, GuestRsp, ObjWork, VdiAsk};
use vdi_ops::{begin_vdi, command_refusal};

/// Where a read or write begins on its disk.
fn offset_of(ask: &DiskAsk) -> u64
    ensures { result ≡ offset_of ask.now }
{
    match ask {
        DiskAsk::Read { offset, .. } => *offset,
        DiskAsk::Write { offset, .. } => *offset,
    }
}

/// How many bytes it asks for.
fn size_of(ask: &DiskAsk) -> u64
    ensures { result ≡ size_of ask.now }
{
    match ask {
        DiskAsk::Read { length, .. } => u64::from(*length),
        DiskAsk::Write { bytes, .. } => bytes.len() as u64,
    }
}

/// The object in which a byte of a disk is; objects have 2^shift bytes.
fn index_of(shift: u8, byte: u64) -> u32
    requires shift { shift ≤ SHIFT_MAX }
    requires inside { byte < OBJECTS_MAX * 2 ^ shift }
    ensures { result ≡ byte / 2 ^ shift }
{
    (byte >> shift) as u32
}

/// The first and the last object of a disk that a read or write touches, which ends on the disk.
fn span_on(disk: &Disk, ask: &DiskAsk) -> (u32, u32)
    requires asked { IsTrue (is_ask ask.now) }
    requires inside { offset_of ask.now + size_of ask.now ≤ disk.now.inode.spec.size }
    ensures first { result.0 ≡ first_index disk.now.inode.spec.shift (offset_of ask.now) }
    ensures last { result.1 ≡ last_index disk.now.inode.spec.shift (offset_of ask.now) (size_of ask.now) }
    ensures span { result.0 ≤ result.1 }
{
    let shift = disk.inode().spec().shift;
    let offset = offset_of(ask);
    let first = index_of(shift, offset);
    let last = index_of(shift, offset + size_of(ask) - 1);
    (first, last)
}

impl StepState {
    /// The node's number among its cluster's.
    fn me(&self) -> NodeId
        ensures { result ≡ self.now.node.me }
    {
        self.node.me
    }

    /// Whether a session's disk is deleted, by the entries that the node has read.
    fn is_disk_deleted(&self, number: u32) -> bool
        ensures { result ≡ is_open_disk_deleted self.now.node.peer (session_in number self.now).disk }
    {
        let directory = self.node.rows.peer.directory();
        match self.disk(number) {
            Some(disk) => directory.is_gone(disk.inode().vid()),
            None => false,
        }
    }

    /// Whether a session has a snapshot open.
    fn has_snapshot(&self, number: u32) -> bool
        ensures { result ≡ option_map_or (λ (disk : TheDisk). disk.snapshot) (session_in number self.now).disk false }
    {
        match self.disk(number) {
            Some(disk) => disk.snapshot(),
            None => false,
        }
    }

    /// Why a request is refused on the spot.
    fn refusal_of(&self, number: u32, ask: &Ask) -> Option<Cause>
        ensures { result ≡ request_refusal self.now.node.peer (session_in number self.now).disk ask.now }
    {
        match ask {
            Ask::Disk(ask) => disk_refusal(self.disk(number), self.is_disk_deleted(number), ask),
            Ask::Vdi(ask) => command_refusal(ask, self.inode(number), self.has_snapshot(number)),
            Ask::Object(_) => None,
            Ask::Entry(_) => None,
        }
    }

    /// A request stands behind the others of a session's queue.
    fn push_request(&mut self, number: u32, req: u32, first: u32, last: u32) -> Result<(), NoMemory>
        requires span { first ≤ last }
        requires new { is_queued req (session_in number self.old).queue ≡ false }
        ensures { OnOk result (self.new ≡ with_session number (record (session_in number self.old) {
          queue = (session_in number self.old).queue ++ record { req = req; first = first; last = last } ∷ [];
        }) self.old) }
    {
        let mut session = self.take_session(number);
        session.queue.push(req, first, last)?;
        self.put_session(number, session)
    }

    /// A read or write stands behind the session's others.
    fn queue_request(&mut self, number: u32, req: u32, ask: &DiskAsk) -> Result<(), NoMemory>
        requires { MayQueue number req ask.now self.old }
        ensures { OnOk result (self.new ≡ with_queued_request number req ask.now (session_in number self.old).disk self.old) }
    {
        let (first, last) = match self.disk(number) {
            Some(disk) => span_on(disk, ask),
            None => return Ok(()),
        };
        self.push_request(number, req, first, last)
    }

    /// A read or write that isn't refused waits for its turn, and begins if that has come.
    fn take_disk_ask(&mut self, number: u32, req: u32, ask: DiskAsk) -> Result<(), NoMemory>
        requires may { MayQueue number req ask self.old }
        requires arrived { IsInStep (with_queued_request number req ask (session_in number self.old).disk
            (with_course number req (Waiting ask) self.old)) }
        ensures { OnOk result (self.new ≡ request_taken number req (DiskRequest ask) self.old) }
    {
        self.queue_request(number, req, &ask)?;
        self.set_course(number, req, Course::Waiting(ask))?;
        self.begin_if_may(req)
    }

    /// The check of the open disk begins with its first work.
    fn take_check(&mut self, number: u32, req: u32) -> Result<(), NoMemory>
        requires { MayComeToWork req self.old.node }
        ensures { OnOk result (self.new ≡ command_taken number req Check self.old) }
    {
        let (check, act) = match self.disk(number) {
            Some(disk) => begin_check(self.node.alloc, disk.inode())?,
            None => return Ok(()),
        };
        self.step_check(number, req, check, act)
    }

    /// A command that is no check begins with its entry in the outbox.
    fn take_command(&mut self, number: u32, req: u32, ask: VdiAsk) -> Result<(), NoMemory>
        requires may { MayComeToWork req self.old.node }
        requires entry { HasFirstEntry (inode_open (session_in number self.old).disk) ask }
        ensures { OnOk result (self.new ≡ command_taken number req ask self.old) }
    {
        let me = self.me();
        let (op, act) = begin_vdi(self.node.alloc, me, number, ask, self.inode(number))?;
        self.step_command(number, req, op, act)
    }

    /// A command that isn't refused begins.
    fn take_vdi_ask(&mut self, number: u32, req: u32, ask: VdiAsk) -> Result<(), NoMemory>
        requires { MayCommand number req ask self.old }
        ensures { OnOk result (self.new ≡ command_taken number req ask self.old) }
    {
        match ask {
            VdiAsk::Check => self.take_check(number, req),
            ask => self.take_command(number, req, ask),
        }
    }

    /// A client's own work begins, or waits in its session's line.
    fn take_object_ask(&mut self, number: u32, req: u32, work: ObjWork) -> Result<(), NoMemory>
        requires { MayBeginWork req work self.old.node }
        ensures { OnOk result (self.new ≡ request_taken number req (ObjectRequest work) self.old) }
    {
        let own = work.copy(self.node.alloc)?;
        self.set_sole_request(number, req, Course::DoingWork(own))?;
        self.ask_work(number, req, work)
    }

    /// A client's own entry stands in the outbox.
    fn take_entry_ask(&mut self, number: u32, req: u32, entry: Entry) -> Result<(), NoMemory>
        ensures { OnOk result (self.new ≡ request_taken number req (EntryRequest entry) self.old) }
    {
        let own = entry.copy(self.node.alloc)?;
        self.set_sole_request(number, req, Course::AwaitingDecision(own))?;
        self.put_later(entry)
    }

    /// A request that isn't refused is taken.
    fn take_guest_ask(&mut self, number: u32, req: u32, ask: Ask) -> Result<(), NoMemory>
        requires { MayTake number req ask self.old }
        ensures { OnOk result (self.new ≡ request_taken number req ask self.old) }
    {
        match ask {
            Ask::Disk(ask) => self.take_disk_ask(number, req, ask),
            Ask::Vdi(ask) => self.take_vdi_ask(number, req, ask),
            Ask::Object(work) => self.take_object_ask(number, req, work),
            Ask::Entry(entry) => self.take_entry_ask(number, req, entry),
        }
    }

    /// A guest's request comes to a node that may take it.
    pub fn on_guest(&mut self, req: u32, number: u32, ask: Ask) -> Result<(), NoMemory>
        requires start { self.old ≡ at_first self.old.node }
        requires may { May (Guest req number ask) self.old.node }
        requires sound { IsSoundNode self.old.node }
        ensures { OnOk result (self.new ≡ on_guest req number ask self.old) }
    {
        match self.refusal_of(number, &ask) {
            Some(cause) => self.reply(req, GuestRsp::Refused(cause)),
            None => self.take_guest_ask(number, req, ask),
        }
    }
}
