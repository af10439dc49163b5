//! What is kept merges.

ghost use Rattle.std.specs.Prelude.{◌≡◌};
ghost use Rattle.live_workers.specs.OtherSteps.{IsOther};

use crate::merges::script_of;
use live_cells::{NodeCell, StampList, Step};
use live_run::Kept;
use object_id::{NoMemory, NodeId};
use peer_proto::SendList;
use sheep_node::{Event, Node, Outputs, ReplyList};
use std::alloc::Global;
use std::test::Fail;

/// One event ends the phase: node 1 fails.
const FAIL: &str = "cluster 2\nlimit 1\nfail 1\n";

const FAIL_EVENTS: [Event; 2] = [Event::Lost { node: NodeId(1) }, Event::Phase];

/// The step at which node 1 is lost.
fn lost_step(alloc: Global) -> Step
    ensures { IsOther result }
{
    Step {
        stamp: 1,
        event: Event::Lost { node: NodeId(1) },
        input: None,
        outputs: Outputs {
            sends: SendList::new(alloc),
            say: None,
            replies: ReplyList::new(alloc),
            put: None,
        },
        used: StampList::new(alloc),
    }
}

/// A node that made no step, and the step at which another one was lost.
fn kept_of(alloc: Global) -> Result<Kept, NoMemory> {
    let mut kept = Kept::new(alloc);
    let cell = NodeCell::new(alloc, Node::new(alloc, NodeId(0), 8))?;
    kept.add_cell(cell)?;
    kept.add_other(lost_step(alloc))?;
    Ok(kept)
}

#[test]
fn what_is_kept_is_there(rt: HostRuntime) -> Result<(), Fail> {
    let kept = kept_of(rt.alloc())?;
    assert_eq!(rt; kept.cells().len(), 1);
    assert_eq!(rt; kept.others().len(), 1);
    Ok(())
}

/// Whether it merges to the loss and the end of the phase.
fn merges(alloc: Global) -> Result<bool, Fail> {
    let script = script_of(alloc, FAIL)?;
    let kept = kept_of(alloc)?;
    let run = kept.merged(alloc, &script)?;
    Ok(run.events() == FAIL_EVENTS.as_slice())
}

#[test]
fn and_merges_to_its_run(rt: HostRuntime) -> Result<(), Fail> {
    assert!(rt; merges(rt.alloc())?);
    Ok(())
}

/// Whether what is kept merges to the run in which every phase is ended.
fn merges_whole(alloc: Global) -> Result<bool, Fail> {
    let script = script_of(alloc, FAIL)?;
    let kept = kept_of(alloc)?;
    Ok(match kept.whole_run(alloc, &script)? {
        Some(run) => run.events() == FAIL_EVENTS.as_slice(),
        None => false,
    })
}

#[test]
fn which_ends_every_phase(rt: HostRuntime) -> Result<(), Fail> {
    assert!(rt; merges_whole(rt.alloc())?);
    Ok(())
}

/// Node 1 is to fail, and nothing of it is kept.
fn nothing_merges_whole(alloc: Global) -> Result<bool, Fail> {
    let script = script_of(alloc, FAIL)?;
    let run = Kept::new(alloc).whole_run(alloc, &script)?;
    Ok(run.is_some())
}

#[test]
fn what_is_wanting_leaves_a_phase(rt: HostRuntime) -> Result<(), Fail> {
    assert!(rt; !nothing_merges_whole(rt.alloc())?);
    Ok(())
}
