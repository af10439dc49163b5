//! What steps merge to.

use crate::kept_run::kept_steps;
use cluster_script::{Script, parse};
use live_cells::Step;
use live_merge::{MergeFault, merge_all};
use object_id::{INPUT_BYTES_MAX, NodeId};
use schedule::run_seeded;
use sheep_node::{Event, Input};
use std::alloc::Global;
use std::test::Fail;

const CREATE: &str = "cluster 1\nsession 1 node 0\n1 vdi create -c 1 a 512\n";

/// The one run of `CREATE`, as it was worked out by hand.
const CREATE_EVENTS: [Event; 8] = [
    Event::Guest { session: 1 },
    Event::Put { node: NodeId(0) },
    Event::LogNext { node: NodeId(0) },
    Event::Deliver {
        node: NodeId(0),
        number: 0,
    },
    Event::Deliver {
        node: NodeId(0),
        number: 0,
    },
    Event::Put { node: NodeId(0) },
    Event::LogNext { node: NodeId(0) },
    Event::Phase,
];

/// A disk with two copies is written by one session and read by another.
const TWO_SESSIONS: &str =
    "cluster 2\nsession 1 node 0\nsession 2 node 1\n1 vdi create -c 2 -z 12 a 4K\n1 vdi open a\n1 vdi write 0 512 fill 1\n1 vdi close\n\
settle\n2 vdi open a\n2 vdi read 0 512\n";

/// The script of a text that is one.
pub(crate) fn script_of(alloc: Global, text: &str) -> Result<Script, Fail> {
    if INPUT_BYTES_MAX < text.len() {
        return Err(Fail::from("the text is short"));
    }
    Ok(parse(alloc, text.as_bytes())?)
}

/// Whether the steps of a run merge to its events.
fn merge_back(alloc: Global, script: &Script, events: &[Event]) -> Result<bool, Fail> {
    let steps = kept_steps(alloc, script, events)?;
    let run = merge_all(alloc, script, steps.as_slice())?;
    Ok(run.events() == events)
}

/// Phase isn't kept, and stands in the run where it is due.
#[test]
fn the_steps_of_a_run_merge_to_it(rt: HostRuntime) -> Result<(), Fail> {
    let alloc = rt.alloc();
    let script = script_of(alloc, CREATE)?;
    assert!(rt; merge_back(alloc, &script, &CREATE_EVENTS)?);
    Ok(())
}

#[test]
fn so_do_those_of_a_long_run(rt: HostRuntime) -> Result<(), Fail> {
    let alloc = rt.alloc();
    let script = script_of(alloc, TWO_SESSIONS)?;
    let seeded = run_seeded(alloc, &script, 7)?;
    assert!(rt; seeded.events().len() > 30);
    assert!(rt; merge_back(alloc, &script, seeded.events())?);
    Ok(())
}

/// What is wrong with the steps of `CREATE`.
#[derive(Clone, Copy)]
enum Wrong {
    Early,
    Wanting,
    Output,
    Input,
}

/// Makes one of the steps wrong.
fn make_wrong(steps: &mut Vec<Step>, wrong: Wrong) {
    match wrong {
        Wrong::Early => {
            if steps.len() > 3 {
                steps.swap(2, 3);
            }
        }
        Wrong::Wanting => {
            if steps.len() > 1 {
                drop(steps.remove(1));
            }
        }
        Wrong::Output => {
            if let Some(step) = steps.get_mut(5) {
                step.outputs.put = None;
            }
        }
        Wrong::Input => {
            if let Some(step) = steps.get_mut(4) {
                step.input = Some(Input::Lost { number: 0 });
            }
        }
    }
}

/// The place at which the steps of `CREATE` clash when one is wrong; none if they don't.
fn clash_of(alloc: Global, wrong: Wrong) -> Result<Option<usize>, Fail> {
    let script = script_of(alloc, CREATE)?;
    let mut steps = kept_steps(alloc, &script, &CREATE_EVENTS)?;
    make_wrong(&mut steps, wrong);
    match merge_all(alloc, &script, steps.as_slice()) {
        Err(MergeFault::Clash { place }) => Ok(Some(place)),
        _ => Ok(None),
    }
}

#[test]
fn a_step_that_is_made_too_early_clashes(rt: HostRuntime) -> Result<(), Fail> {
    assert_eq!(rt; clash_of(rt.alloc(), Wrong::Early)?, Some(2));
    Ok(())
}

#[test]
fn so_does_one_behind_a_step_that_is_wanting(rt: HostRuntime) -> Result<(), Fail> {
    assert_eq!(rt; clash_of(rt.alloc(), Wrong::Wanting)?, Some(1));
    Ok(())
}

#[test]
fn so_does_one_with_another_output(rt: HostRuntime) -> Result<(), Fail> {
    assert_eq!(rt; clash_of(rt.alloc(), Wrong::Output)?, Some(5));
    Ok(())
}

#[test]
fn so_does_one_with_another_input(rt: HostRuntime) -> Result<(), Fail> {
    assert_eq!(rt; clash_of(rt.alloc(), Wrong::Input)?, Some(4));
    Ok(())
}
