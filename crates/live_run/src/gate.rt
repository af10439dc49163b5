//! Where a worker may be held before an event.

/// What each worker passes before each event, holding no lock: its number, and which of its turns it is, from 0 over all rounds.
pub trait Gate {
    fn pass(&self, worker: u32, turn: u64);
}

/// Holds nobody.
#[derive(Clone, Copy)]
pub struct FreeGate;

impl Gate for FreeGate {
    fn pass(&self, _worker: u32, _turn: u64) {}
}
