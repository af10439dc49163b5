ghost use Rattle.std.specs.Prelude.{◌≡◌, ◌↔◌, ◌≤◌, List, [], ◌∷◌, ◌++◌, false, OnOk, OnErr, IsTrue, position};
ghost use Rattle.std.specs.List.{list_any};
ghost use Rattle.gateway_queue.specs.Queue.{has_request_number, is_queued, queue_without, meet, may_run, MayRun};

use object_id::NoMemory;
use std::alloc::Global;
use std::marker::Model;

/// A request that isn't done: its number, and the first and the last index of the objects that it works on.
#[derive(Clone, Copy, Debug, PartialEq, Eq)]
pub struct Queued {
    pub req: u32,
    pub first: u32,
    pub last: u32,
}

impl Queued {
    fn meets(self, other: Queued) -> bool
        ensures { result ≡ meet self other }
    {
        self.first <= other.last && other.first <= self.last
    }
}

/// The requests of a session that aren't done, in the order in which they were pushed.
#[derive(Debug)]
pub struct Queue {
    queued: Vec<Queued>,
}

/// Written out, so that letting one go is one call wherever it is done, and no cases there.
impl Drop for Queue {
    fn drop(self) {
        let Queue { queued } = self;
        drop(queued);
    }
}

impl Model for Queue {
    ghost use Rattle.std.specs.Prelude.{List, IsTrue};
    ghost use Rattle.gateway_queue.specs.declared.queue.Queued.{Queued};
    ghost use Rattle.gateway_queue.specs.Queue.{is_queue};

    ghost Value = { List Queued };

    ghost view = { λ queue. queue.queued.items };

    ghost invariant = { λ queue. IsTrue (is_queue queue.queued.items) };
}

fn place_of(queue: &[Queued], req: u32) -> Option<usize>
    ensures { result ≡ position (has_request_number req) queue.now }
{
    queue.iter().position(|queued| queued.req == req)
}

fn meets_any(earlier: &[Queued], mine: Queued) -> bool
    ensures { result ≡ list_any (meet mine) earlier.now }
{
    earlier.iter().any(|other| mine.meets(*other))
}

impl Queue {
    /// The empty queue. Takes no memory.
    pub fn new(alloc: Global) -> Queue
        ensures { result ≡ [] }
    {
        Queue {
            queued: Vec::new(alloc),
        }
    }

    /// The requests that aren't done, in the order in which they were pushed.
    pub fn as_slice(&self) -> &[Queued]
        ensures { result.now ≡ self.now }
    {
        self.queued.as_slice()
    }

    /// Whether a request of this number was pushed and isn't done: what the other calls ask of it.
    pub fn is_queued(&self, req: u32) -> bool
        ensures { result ≡ is_queued req self.now }
    {
        self.queued
            .as_slice()
            .iter()
            .any(|queued| queued.req == req)
    }

    /// Adds a request behind the others. Its number may be one of a request that is done. Without memory the queue
    /// stays.
    pub fn push(&mut self, req: u32, first: u32, last: u32) -> Result<(), NoMemory>
        requires span { first ≤ last }
        requires new { is_queued req self.old ≡ false }
        ensures ok { OnOk result (self.new ≡ self.old ++ record { req = req; first = first; last = last } ∷ []) }
        ensures err { OnErr result (self.new ≡ self.old) }
    {
        self.queued.push(Queued { req, first, last })?;
        Ok(())
    }

    /// Whether no request that was pushed before this one, and isn't done, has an index in common with it.
    pub fn may_run(&self, req: u32) -> bool
        requires { IsTrue (is_queued req self.now) }
        ensures value { result ≡ may_run req self.now }
        ensures exact { IsTrue result ↔ MayRun req self.now }
    {
        let queue = self.queued.as_slice();
        let place = place_of(queue, req).unwrap();
        !meets_any(&queue[..place], queue[place])
    }

    /// Takes a request out: from now on it blocks no other.
    pub fn done(&mut self, req: u32)
        requires { IsTrue (is_queued req self.old) }
        ensures { self.new ≡ queue_without req self.old }
    {
        self.queued.retain(|queued| queued.req != req);
    }
}
