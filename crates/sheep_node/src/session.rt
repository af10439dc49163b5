ghost use Rattle.std.specs.Prelude.{◌≡◌};
ghost use Rattle.gateway_queue.specs.Queue.{queue_without};
ghost use Rattle.sheep_node.specs.State.{new_session};
ghost use Rattle.vdi_ops.specs.Op.{disk_change_at};
ghost use Rattle.sheep_node.specs.StepState.{session_without};
ghost use Rattle.sheep_node.specs.Courses.{disk_after};

use gateway_queue::Queue;
use guest_driver::{Disk, InodeQueue};
use std::alloc::Global;
use vdi_ops::VdiOp;

/// A session: the disk that it has open, its reads and writes without reply with their objects, or its one other request without reply,
/// which is alone in it, and the works on its disk's inode.
#[derive(Debug)]
pub struct Session {
    pub disk: Option<Disk>,
    pub queue: Queue,
    pub command: Option<u32>,
    pub inode_queue: InodeQueue,
}

/// Written out, so that letting one go is one call wherever it is done, and no cases there.
impl Drop for Session {
    fn drop(self) {
        let Session {
            disk,
            queue,
            command: _,
            inode_queue,
        } = self;
        drop(disk);
        drop(queue);
        drop(inode_queue);
    }
}

impl Session {
    /// A session that has asked nothing. Takes no memory.
    pub fn new(alloc: Global) -> Session
        ensures { result ≡ new_session }
    {
        Session {
            disk: None,
            queue: Queue::new(alloc),
            command: None,
            inode_queue: InodeQueue::new(alloc),
        }
    }

    /// The session has open what a command that has its reply left of it. Takes no memory.
    pub fn open_by(&mut self, op: VdiOp)
        ensures { self.new ≡ record self.old { disk = disk_after (disk_change_at op.stage) self.old.disk } }
    {
        if op.closes() {
            self.disk = None;
            return;
        }
        let snapshot = op.opens_snapshot();
        if let Some(inode) = op.into_inode() {
            self.disk = Some(Disk::new(inode, snapshot));
        }
    }

    /// A request of the session is no more: it leaves the queue, or was the session's command. Takes no memory. Costs a look at each
    /// request of the queue.
    pub fn end_request(&mut self, req: u32)
        ensures { self.new ≡ session_without req self.old }
    {
        leave_queue(&mut self.queue, req);
        self.command = None;
    }
}

/// A request that may stand in a queue leaves it.
fn leave_queue(queue: &mut Queue, req: u32)
    ensures { queue.new ≡ queue_without req queue.old }
{
    if queue.is_queued(req) {
        queue.done(req);
    }
}
