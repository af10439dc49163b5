//! The queue of a session's works on its disk's inode.

ghost use Rattle.std.specs.Prelude.{◌≡◌, IfSome, IsTrue, OnErr, OnOk, is_some, option_map};
ghost use Rattle.peer_proto.specs.Work.{IsWork};
ghost use Rattle.guest_driver.specs.InodeQueue.{is_on_inode, empty_inode_queue, may_open_work, queue_with_open, queue_with_waiting};
ghost use Rattle.guest_driver.specs.InodeQueue.{queue_after_end, next_work, queue_after_start};
ghost use Rattle.guest_driver.specs.WaitingWork.{waiting_of};

use crate::waiting_work::WaitingWork;
use object_id::{Kind, NoMemory};
use peer_proto::ObjWork;
use std::alloc::Global;
use std::marker::Model;

/// Whether a work is on an inode.
fn is_on_inode(work: &ObjWork) -> bool
    ensures { result ≡ is_on_inode work.now }
{
    work.oid().kind() == Kind::Inode
}

/// The request whose work on the inode is open, and the works that wait, the first to come in front. Each is one that a gateway
/// takes.
#[derive(Debug)]
pub struct InodeQueue {
    current: Option<u32>,
    waiting: Vec<WaitingWork>,
}

/// Written out, so that letting one go is one call wherever it is done, and no cases there.
impl Drop for InodeQueue {
    fn drop(self) {
        let InodeQueue {
            current: _,
            waiting,
        } = self;
        drop(waiting);
    }
}

impl Model for InodeQueue {
    ghost use Rattle.std.specs.Prelude.{map};
    ghost use Rattle.guest_driver.specs.InodeQueue.{InodeQueue as TheQueue};
    ghost use Rattle.guest_driver.specs.WaitingWork.{waiting_of, AreWorks};

    ghost Value = { TheQueue };

    ghost view = { λ queue. record { current = queue.current; waiting = map waiting_of queue.waiting.items } };

    ghost invariant = { λ queue. AreWorks queue.waiting.items };
}

impl InodeQueue {
    /// The queue in which nobody is. Takes no memory, and costs nothing.
    pub fn new(alloc: Global) -> InodeQueue
        ensures { result ≡ empty_inode_queue }
    {
        InodeQueue {
            current: None,
            waiting: Vec::new(alloc),
        }
    }

    /// Whether a work may begin at once. Costs nothing.
    pub fn may_open(&self, work: &ObjWork) -> bool
        ensures { result ≡ may_open_work self.now work.now }
    {
        !is_on_inode(work) || self.current.is_none()
    }

    /// Takes note of a work that begins at once. Takes no memory, and costs nothing.
    pub fn open(&mut self, req: u32, work: &ObjWork)
        requires { IsTrue (may_open_work self.old work.now) }
        ensures { self.new ≡ queue_with_open self.old req work.now }
    {
        if is_on_inode(work) {
            self.current = Some(req);
        }
    }

    /// Lets a work wait behind the others. Costs nothing, but for a move when the queue grows. Without memory the queue stays as it was.
    pub fn wait(&mut self, req: u32, work: ObjWork) -> Result<(), NoMemory>
        requires { IsWork work }
        ensures ok { OnOk result (self.new ≡ queue_with_waiting self.old req work) }
        ensures err { OnErr result (self.new ≡ self.old) }
    {
        self.waiting.push(WaitingWork { req, work })?;
        Ok(())
    }

    /// Takes note that a work is done or refused. Takes no memory, and costs nothing.
    pub fn end(&mut self, work: &ObjWork)
        ensures { self.new ≡ queue_after_end self.old work.now }
    {
        if is_on_inode(work) {
            self.current = None;
        }
    }

    /// Whether a work begins next: one waits, and no other is open. Costs nothing.
    pub fn has_next(&self) -> bool
        ensures { result ≡ is_some (next_work self.now) }
    {
        self.current.is_none() && !self.waiting.is_empty()
    }

    /// The work that begins next, if no other is open: the first that waits. Moves the others one place down, and takes no memory.
    pub fn start(&mut self) -> Option<WaitingWork>
        ensures next { option_map waiting_of result ≡ next_work self.old }
        ensures after { self.new ≡ queue_after_start self.old }
        ensures work { IfSome result (λ waiting. IsWork waiting.work) }
    {
        if self.current.is_some() || self.waiting.is_empty() {
            return None;
        }
        let first = self.waiting.remove(0);
        self.current = Some(first.req);
        Some(first)
    }
}
