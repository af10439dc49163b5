//! Generated scripts, and runs of a small script, with ample memory. The hashes are those of the texts that a program in Python made,
//! which was written apart from this one, from the rules alone.

use cluster_script::{Script, parse};
use object_id::{INPUT_BYTES_MAX, NodeId, fnv1a};
use overlap_law::keeps_overlap;
use rand_core::SeedableRng;
use rand_xoshiro::SplitMix64;
use schedule::{RunFault, generated_text, run_seeded, run_to, step_seeded};
use sheep_node::Event;
use sheep_world::{ApplyFault, Run, World};
use std::alloc::Global;
use std::test::Fail;

/// How many bytes the script of a number has, and their hash.
fn generated(alloc: Global, number: u64) -> Result<(usize, u64), Fail> {
    let text = generated_text(alloc, number)?;
    Ok((text.len(), fnv1a(text.as_slice())))
}

#[test]
fn generates_whole_scripts(rt: HostRuntime) -> Result<(), Fail> {
    assert_eq!(rt; generated(rt.alloc(), 0)?, (6679, 0x8447_0f60_394d_0f59));
    assert_eq!(rt; generated(rt.alloc(), 1)?, (6711, 0xa243_466c_3627_fffb));
    assert_eq!(rt;
        generated(rt.alloc(), u64::MAX)?,
        (6752, 0x3fea_8930_b780_0f64)
    );
    Ok(())
}

// The lines that stand at both ends of the script of 0 by `a_script_generated`.
const FIRST_LINES: &[u8] =
    b"cluster 6\ntries 1000\nsession 1 node 0\nsession 2 node 1\nsession 3 node 2\nsession 4 node 3\n\
1 vdi create -c 3 -z 20 g1 64M\n1 vdi open g1\n2 vdi create -c 2:2 -z 20 g2 64M\n2 vdi open g2\n";

const LAST_LINES: &[u8] = b"\n1 vdi write 33730560 4096 fill 173\nsettle\n";

#[test]
fn begins_and_ends_a_script(rt: HostRuntime) -> Result<(), Fail> {
    let text = generated_text(rt.alloc(), 0)?;
    assert!(rt; text.as_slice().starts_with(FIRST_LINES));
    assert!(rt; text.as_slice().ends_with(LAST_LINES));
    Ok(())
}

const ONE_DISK: &[u8] = b"cluster 1\nsession 1 node 0\n1 vdi create -c 1 a 512\n";

const NODE: NodeId = NodeId(0);

// The only order in which the disk can be made.
const ONE_DISK_EVENTS: [Event; 8] = [
    Event::Guest { session: 1 },
    Event::Put { node: NODE },
    Event::LogNext { node: NODE },
    Event::Deliver {
        node: NODE,
        number: 0,
    },
    Event::Deliver {
        node: NODE,
        number: 0,
    },
    Event::Put { node: NODE },
    Event::LogNext { node: NODE },
    Event::Phase,
];

/// The script of a text that is one.
fn script_of(alloc: Global, text: &[u8]) -> Result<Script, RunFault> {
    if text.len() > INPUT_BYTES_MAX {
        return Err(RunFault::NoMemory);
    }
    match parse(alloc, text) {
        Ok(script) => Ok(script),
        Err(_) => Err(RunFault::NoMemory),
    }
}

/// The run that a seed gives.
fn run_of(alloc: Global, text: &[u8], seed: u64) -> Result<Run, RunFault> {
    let script = script_of(alloc, text)?;
    Ok(run_seeded(alloc, &script, seed)?)
}

/// Whether a seed gives the only run.
fn makes_it(alloc: Global, seed: u64) -> Result<bool, RunFault> {
    let run = run_of(alloc, ONE_DISK, seed)?;
    Ok(run.events() == ONE_DISK_EVENTS.as_slice())
}

#[test]
fn makes_the_only_run(rt: HostRuntime) {
    for seed in [0, 1, u64::MAX] {
        assert_eq!(rt; makes_it(rt.alloc(), seed), Ok(true), "{seed}");
    }
}

/// The place of the first of some few events that stops, if one does.
fn stop_of(alloc: Global, text: &[u8], events: &[Event]) -> Result<Option<u32>, RunFault> {
    if events.len() > ONE_DISK_EVENTS.len() {
        return Err(RunFault::NoMemory);
    }
    let script = script_of(alloc, text)?;
    match run_to(alloc, &script, events) {
        Ok(_) => Ok(None),
        Err(RunFault::NotEnabled { place }) => Ok(Some(place)),
        Err(fault) => Err(fault),
    }
}

const GUEST: Event = Event::Guest { session: 1 };

const PUT: Event = Event::Put { node: NODE };

#[test]
fn makes_events_that_may_happen(rt: HostRuntime) {
    assert_eq!(rt; stop_of(rt.alloc(), ONE_DISK, &ONE_DISK_EVENTS), Ok(None));
    assert_eq!(rt; stop_of(rt.alloc(), ONE_DISK, &[GUEST, PUT]), Ok(None));
    assert_eq!(rt; stop_of(rt.alloc(), ONE_DISK, &[]), Ok(None));
}

#[test]
fn makes_events_as_far_as_they_may_happen(rt: HostRuntime) {
    let stop = stop_of(rt.alloc(), ONE_DISK, &[GUEST, GUEST, PUT]);
    assert_eq!(rt; stop, Ok(Some(1)));
    assert_eq!(rt; stop_of(rt.alloc(), ONE_DISK, &[PUT]), Ok(Some(0)));
}

/// The first event of a seed's schedule, if there is one.
fn first_event(alloc: Global, text: &[u8], seed: u64) -> Result<Option<Event>, RunFault> {
    let script = script_of(alloc, text)?;
    let mut world = World::new(alloc, &script)?;
    if world.ended(&script) {
        return Ok(None);
    }
    let mut rng = SplitMix64::from_seed(seed.to_le_bytes());
    let (event, _grown) = step_seeded(&script, &mut world, &mut rng, 0)?;
    Ok(Some(event))
}

#[test]
fn makes_the_first_event(rt: HostRuntime) {
    assert_eq!(rt; first_event(rt.alloc(), ONE_DISK, 0), Ok(Some(GUEST)));
    assert_eq!(rt;
        first_event(rt.alloc(), b"cluster 1\nsettle\n", 0),
        Ok(Some(Event::Phase))
    );
    assert_eq!(rt; first_event(rt.alloc(), b"", 0), Ok(None));
}

/// What `keeps_overlap` says of an event of the world that a script opens with: nothing where it makes it.
fn fault_of(alloc: Global, text: &[u8], event: Event) -> Result<Option<ApplyFault>, RunFault> {
    let script = script_of(alloc, text)?;
    let mut world = World::new(alloc, &script)?;
    match keeps_overlap(&script, &mut world, event) {
        Ok(_) => Ok(None),
        Err(fault) => Ok(Some(fault)),
    }
}

#[test]
fn keeps_the_overlap(rt: HostRuntime) {
    assert_eq!(rt; fault_of(rt.alloc(), ONE_DISK, GUEST), Ok(None));
    let refused = Some(ApplyFault::NotEnabled);
    assert_eq!(rt; fault_of(rt.alloc(), ONE_DISK, PUT), Ok(refused));
}
