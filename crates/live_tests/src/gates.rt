//! That threads run at once: one worker is held until another one has passed.

use crate::merges::script_of;
use live_run::{Gate, Kept, run_live};
use sheep_node::Event;
use sheep_world::Run;
use std::sync::atomic::{AtomicU64, Ordering};
use std::test::Fail;

const TWO_READS: &str =
    "cluster 1\nsession 1 node 0\nsession 2 node 0\n1 vdi read 0 512\n2 vdi read 0 512\n";

/// How often a held worker looks whether the other one has passed.
const LOOKS_MAX: u64 = 200_000_000;

/// Holds a worker's turn 0 until another one's turn 0 has passed, and counts what passes.
#[derive(Drop)]
struct HoldGate {
    held: u32,
    awaited: u32,
    has_come: AtomicU64,
    has_passed: AtomicU64,
    gave_up: AtomicU64,
    passes: AtomicU64,
}

impl HoldGate {
    fn new(held: u32, awaited: u32) -> HoldGate {
        HoldGate {
            held,
            awaited,
            has_come: AtomicU64::new(0),
            has_passed: AtomicU64::new(0),
            gave_up: AtomicU64::new(0),
            passes: AtomicU64::new(0),
        }
    }

    /// Waits until the other one has passed, and notes where it doesn't.
    fn hold(&self) {
        self.has_come.fetch_add(1, Ordering::SeqCst);
        for _ in 0..LOOKS_MAX {
            if self.has_passed.load(Ordering::SeqCst) > 0 {
                return;
            }
        }
        self.gave_up.fetch_add(1, Ordering::SeqCst);
    }
}

impl Gate for HoldGate {
    fn pass(&self, worker: u32, turn: u64) {
        self.passes.fetch_add(1, Ordering::SeqCst);
        if turn == 0 && worker == self.held {
            self.hold();
        }
        if turn == 0 && worker == self.awaited {
            self.has_passed.fetch_add(1, Ordering::SeqCst);
        }
    }
}

/// How many events of a run are others than Phase.
fn taken_in(run: &Run) -> u64 {
    let mut taken = 0u64;
    for event in run.events() {
        if *event != Event::Phase {
            taken = taken.saturating_add(1);
        }
    }
    taken
}

#[test]
fn session_1_waits_for_session_2(rt: HostRuntime) -> Result<(), Fail> {
    let alloc = rt.alloc();
    let script = script_of(alloc, TWO_READS)?;
    let gate = HoldGate::new(129, 130);
    let mut kept = Kept::new(alloc);
    let run = run_live(&rt, alloc, &script, &gate, &mut kept)?;
    assert!(rt; gate.has_come.load(Ordering::SeqCst) > 0);
    assert!(rt; gate.has_passed.load(Ordering::SeqCst) > 0);
    assert_eq!(rt; gate.gave_up.load(Ordering::SeqCst), 0);
    assert!(rt; taken_in(&run) <= gate.passes.load(Ordering::SeqCst));
    Ok(())
}

#[test]
fn session_2_waits_for_session_1(rt: HostRuntime) -> Result<(), Fail> {
    let alloc = rt.alloc();
    let script = script_of(alloc, TWO_READS)?;
    let gate = HoldGate::new(130, 129);
    let mut kept = Kept::new(alloc);
    let run = run_live(&rt, alloc, &script, &gate, &mut kept)?;
    assert!(rt; gate.has_come.load(Ordering::SeqCst) > 0);
    assert!(rt; gate.has_passed.load(Ordering::SeqCst) > 0);
    assert_eq!(rt; gate.gave_up.load(Ordering::SeqCst), 0);
    assert!(rt; taken_in(&run) <= gate.passes.load(Ordering::SeqCst));
    Ok(())
}
