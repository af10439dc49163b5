//! Where the workers of a round wait that found nothing to do, until there may be something.

ghost use Rattle.std.specs.Prelude.{◌≡◌};

use std::sync::{Condvar, Mutex, Wait};

/// How many events were made in a round; how many of its workers found nothing to do since the last one, and how many make no further
/// event; and whether the round is over.
#[derive(Drop)]
struct Counts {
    made: u64,
    idle: u64,
    gone: u64,
    is_over: bool,
}

/// Where the workers of a round wait. The round is over once each of them found nothing to do since its last event.
#[derive(Drop)]
pub(crate) struct Pause {
    workers: u64,
    counts: Mutex<Counts>,
    moved: Condvar,
}

impl Pause {
    pub(crate) fn new(workers: u64) -> Pause {
        Pause {
            workers,
            counts: Mutex::new(Counts {
                made: 0,
                idle: 0,
                gone: 0,
                is_over: false,
            }),
            moved: Condvar::new(),
        }
    }

    /// How many events were made so far.
    pub(crate) fn made<R: Wait>(&self, rt: &R) -> u64 {
        self.counts.lock(rt).made
    }

    /// An event was made: those who wait look again.
    pub(crate) fn make<R: Wait>(&self, rt: &R) {
        let mut counts = self.counts.lock(rt);
        counts.made = counts.made.saturating_add(1);
        if counts.idle > 0 {
            counts.idle = 0;
            self.moved.notify_all();
        }
    }

    /// Nobody is to wait any more, as where a thread couldn't be started or memory is wanting.
    pub(crate) fn end<R: Wait>(&self, rt: &R) {
        self.counts.lock(rt).is_over = true;
        self.moved.notify_all();
    }

    /// A worker makes no further event.
    pub(crate) fn leave<R: Wait>(&self, rt: &R) {
        let mut counts = self.counts.lock(rt);
        counts.gone = counts.gone.saturating_add(1);
        if counts.idle.saturating_add(counts.gone) >= self.workers {
            counts.is_over = true;
            self.moved.notify_all();
        }
    }

    /// Waits until another event is made than those seen: whether there is one, or the round is over.
    pub(crate) fn wait<R: Wait>(&self, rt: &R, seen: u64) -> bool {
        let mut counts = self.counts.lock(rt);
        if counts.made == seen {
            counts.idle = counts.idle.saturating_add(1);
            if counts.idle.saturating_add(counts.gone) >= self.workers {
                counts.is_over = true;
                self.moved.notify_all();
            }
        }
        for _ in rt.forever() {
            if counts.is_over {
                return false;
            }
            if counts.made != seen {
                return true;
            }
            counts = self.moved.wait(rt, counts);
        }
        false
    }
}
