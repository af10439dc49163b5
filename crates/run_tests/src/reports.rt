//! Whole runs and their reports, with ample memory. The reports are those that a program in Python gave for the same events, which was
//! written apart from this one, from the rules alone.

ghost use Rattle.std.specs.Prelude.{◌≡◌, false, OnOk};

use cluster_script::{Script, parse};
use dog_report::{Counts, finished_report, report};
use object_id::INPUT_BYTES_MAX;
use sheep_node::Event;
use sheep_world::{Run, World, enabled};
use std::alloc::Global;
use std::test::Fail;

/// At most so many events are made.
const EVENTS_MAX: usize = 200;

/// A run that goes its whole way.
const WHOLE: Course = Course {
    early: EVENTS_MAX,
    last: EVENTS_MAX,
};

/// How a run goes: its events are in turn those at place 0, 1, 2 and so on of what may happen then, modulo how many may. The event at one
/// place of the run is Phase all the same, and so are all from another place on.
#[derive(Clone, Copy)]
struct Course {
    early: usize,
    last: usize,
}

fn script_of(alloc: Global, text: &[u8]) -> Result<Script, Fail> {
    if INPUT_BYTES_MAX < text.len() {
        return Err(Fail::from("the text is short"));
    }
    match parse(alloc, text) {
        Ok(script) => Ok(script),
        Err(_fault) => Err(Fail::from("the text is a script")),
    }
}

/// The event at a place of a run.
fn next_event(script: &Script, world: &World, course: Course, place: usize) -> Result<Event, Fail>
    requires { world.now.spent ≡ false }
{
    let count = world.enabled_count(script)?;
    if count == 0 || place == course.early || course.last <= place {
        return Ok(Event::Phase);
    }
    match enabled(script, world, place % count) {
        Some(event) => Ok(event),
        None => Ok(Event::Phase),
    }
}

/// Makes the event at a place of a run, if a phase isn't ended.
fn go_on(
    script: &Script,
    world: &mut World,
    run: &mut Run,
    course: Course,
    place: usize,
) -> Result<(), Fail>
    requires { world.old.spent ≡ false }
    ensures { OnOk result (world.new.spent ≡ false) }
{
    if world.ended(script) {
        return Ok(());
    }
    let event = next_event(script, world, course, place)?;
    match run.go_on(script, world, event) {
        Ok(()) => Ok(()),
        Err(_fault) => Err(Fail::from("the event may happen")),
    }
}

/// The run of a script that goes so.
fn run_of(alloc: Global, script: &Script, course: Course) -> Result<Run, Fail> {
    let mut world = World::new(alloc, script)?;
    let mut run = Run::new(alloc);
    for place in 0..EVENTS_MAX {
        go_on(script, &mut world, &mut run, course, place)?;
    }
    Ok(run)
}

/// Whether the report of the run is this text.
fn reports(alloc: Global, script: &[u8], course: Course, text: &[u8]) -> Result<bool, Fail> {
    let script = script_of(alloc, script)?;
    let run = run_of(alloc, &script, course)?;
    let told = report(alloc, &script, &run)?;
    Ok(told.as_slice() == text)
}

/// The counts of the report of a run.
fn counts_of(alloc: Global, script: &[u8], course: Course) -> Result<Counts, Fail> {
    let script = script_of(alloc, script)?;
    let run = run_of(alloc, &script, course)?;
    Ok(finished_report(alloc, &script, run.events())?.counts)
}

#[test]
fn reports_nothing_of_nothing(rt: HostRuntime) -> Result<(), Fail> {
    assert!(rt; reports(rt.alloc(), b"", WHOLE, b"")?);
    Ok(())
}

const NODE_FAILS: &[u8] = b"cluster 4
session 1 node 0
1 vdi create a 1M
1 vdi open a
1 vdi write 0 512 fill 6
settle
fail 3
settle
1 vdi read 0 512
cluster info
node list
";

#[test]
fn lists_what_recovery_made(rt: HostRuntime) -> Result<(), Fail> {
    let text = b"1 ok
2 ok
3 ok
4 ok 06*512
cluster epoch 2 settled 2 members 0 1 2
node 0 vnodes 64 epoch 2 rows 2 pending 0
node 1 vnodes 64 epoch 2 rows 2 pending 0
node 2 vnodes 64 epoch 2 rows 2 pending 0
";
    assert!(rt; reports(rt.alloc(), NODE_FAILS, WHOLE, text)?);
    Ok(())
}

const NODE_JOINS: &[u8] = b"cluster 2
session 1 node 0
1 vdi create -c 3 a 1M
settle
join 2
settle
1 vdi create -c 3 a 1M
1 vdi open a
1 vdi write 0 512 fill 9
1 vdi read 0 512
vdi list
cluster info
";

#[test]
fn lists_a_disk_that_waited_for_a_node(rt: HostRuntime) -> Result<(), Fail> {
    let text = b"1 refused 19 HALT members 2 wanted 3
2 ok
3 ok
4 ok
5 ok 09*512
vdi 01ec8d a - 1048576 3 22 000000 session 1
cluster epoch 2 settled 2 members 0 1 2
";
    assert!(rt; reports(rt.alloc(), NODE_JOINS, WHOLE, text)?);
    Ok(())
}

const HOLDER_FAILS: &[u8] = b"cluster 4
session 1 node 0
session 2 node 1
1 vdi create a 1M
1 vdi open a
settle
2 vdi open a
settle
fail 0
settle
2 vdi open a
cluster info
";

#[test]
fn tells_who_held_the_disk(rt: HostRuntime) -> Result<(), Fail> {
    let text = b"1 ok
2 ok
3 refused 07 VDI_LOCKED session 1
4 ok
cluster epoch 2 settled 2 members 1 2 3
";
    assert!(rt; reports(rt.alloc(), HOLDER_FAILS, WHOLE, text)?);
    Ok(())
}

const ONE_NODE: &[u8] = b"cluster 1
session 1 node 0
1 vdi create -c 1 a 1M
1 vdi open a
1 vdi write 0 512 fill 7
1 vdi read 0 1024
dump
1 vdi read 512 512
1 vdi close
";

/// The fourth request is started and has no reply when the run is cut off, and the two behind it aren't started.
const CUT_OFF: Course = Course {
    early: EVENTS_MAX,
    last: 20,
};

#[test]
fn tells_what_is_left_behind_the_lists(rt: HostRuntime) -> Result<(), Fail> {
    let text = b"1 ok
2 ok
3 ok
row 0 0001ec8c00000000 0 1 - 20dfbee635a41d25
row 0 8001ec8c00000000 0 1 - fbbe69e79b144996
4 pending
5 unsent
6 unsent
";
    assert!(rt; reports(rt.alloc(), ONE_NODE, CUT_OFF, text)?);
    Ok(())
}

#[test]
fn counts_what_is_left(rt: HostRuntime) -> Result<(), Fail> {
    let counts = counts_of(rt.alloc(), ONE_NODE, CUT_OFF)?;
    assert_eq!(rt; (counts.ok, counts.refused, counts.gone), (3, 0, 0));
    assert_eq!(rt; (counts.pending, counts.unsent), (1, 2));
    Ok(())
}

const GATEWAY_FAILS: &[u8] = b"cluster 3
session 1 node 0
session 2 node 1
1 vdi create -c 1 a 1M
1 vdi open a
2 vdi open a
2 vdi close
settle
fail 1
1 vdi check
cluster info
2 vdi open b
1 vdi close
vdi list
";

/// The first phase ends before its second request is answered, and before the fourth one is started.
const EARLY: Course = Course {
    early: 9,
    last: EVENTS_MAX,
};

#[test]
fn tells_each_line_once_its_phase_has_it(rt: HostRuntime) -> Result<(), Fail> {
    let text = b"3 refused 08 NO_VDI
1 ok
2 ok
4 gone
5 ok objects 0 inherited 0 differed 0
cluster epoch 2 settled 2 members 0 2
6 gone
7 ok
vdi 01ec8c a - 1048576 1 22 000000 free
";
    assert!(rt; reports(rt.alloc(), GATEWAY_FAILS, EARLY, text)?);
    Ok(())
}

#[test]
fn counts_lost_and_refused_requests(rt: HostRuntime) -> Result<(), Fail> {
    let counts = counts_of(rt.alloc(), GATEWAY_FAILS, EARLY)?;
    assert_eq!(rt; (counts.ok, counts.refused, counts.gone), (4, 1, 2));
    assert_eq!(rt; (counts.pending, counts.unsent), (0, 0));
    Ok(())
}
