//! An event of the cluster, with what it keeps of the overlap.

ghost use Rattle.std.specs.Prelude.{◌≡◌, ◌↔◌, ◌++◌, ◌∷◌, List, [], map, false, true, Some, Err, IfOk, OnOk};
ghost use Rattle.std.specs.List.{list_any};
ghost use Rattle.disk_history.specs.Legal.{IsLegal};
ghost use Rattle.sheep_world.specs.declared.fault.ApplyFault.TheVariants as faults;
ghost use Rattle.sheep_world.specs.Enabled.{is_enabled};
ghost use Rattle.sheep_world.specs.RunsWithAsks.{Move, Happens, event_of_move};
ghost use Rattle.sheep_world.specs.Step.{step};
ghost use Rattle.overlap_law.specs.Past.{MomentWithPast, run_with_past, moment_after};
ghost use Rattle.overlap_law.specs.MomentChanges.{RunsAreInRange};
ghost use Rattle.overlap_law.specs.Headline.{KeepsHeadline};
ghost use Rattle.overlap_law.specs.CheckDone.{EachCheckLeavesOneValue};
ghost use Rattle.overlap_law.specs.Facts.{MeetsFacts};
ghost use Rattle.overlap_law.specs.FewLossesInRuns.{LossesAreFewInRun, changes_nodes};
ghost use Rattle.overlap_law.specs.KeptBeside.{HoldsBesideOverlap};
ghost use Rattle.overlap_law.specs.NoObjects.{NoObjectIsMissing};
ghost use Rattle.overlap_law.specs.Overlap.{OverlapOf};

use cluster_script::Script;
use disk_history::HistList;
use sheep_node::Event;
use sheep_world::{ApplyFault, World};

/// Makes an event as [`World::apply`] does, with its refusals and at its cost. Behind each run that led to the world before, whether or not
/// a client read between its events, the event makes a run that leads to the world after, whose history has grown by what is given. If the
/// runs of the script are in range, no reply of the event says that an object is missing of a disk that was available, and each check that
/// it replies to and doesn't refuse leaves its blocks one value each; and each run that leads to the world after keeps the headline, the
/// whole invariant and the six facts, and what stands beside them in `specs/KeptBeside.antt`.
pub fn keeps_overlap(
    script: &Script,
    world: &mut World,
    event: Event,
) -> Result<HistList, ApplyFault>
    requires { world.old.spent ≡ false }
    ensures refused { (result ≡ Err faults.NotEnabled) ↔ (is_enabled script.now world.old.world event ≡ false) }
    ensures unchanged { result ≡ Err faults.NotEnabled → world.new ≡ world.old }
    ensures live { OnOk result (world.new.spent ≡ false) }
    ensures made { IfOk result (λ grown.
        step script.now event world.old.world ≡ Some (record { world = world.new.world; grown = grown })) }
    ensures spent { result ≡ Err faults.NoMemory → world.new.spent ≡ true }
    ensures run { IfOk result (λ grown. (moves : List Move) (moment : MomentWithPast)
        → run_with_past script.now moves ≡ Some moment → moment.world ≡ world.old.world
        → run_with_past script.now (moves ++ Happens event ∷ [])
        ≡ Some (moment_after script.now event moment (record { world = world.new.world; grown = grown }))) }
    // No object is missing, and what is checked is one value.
    ensures missing { IfOk result (λ grown. (moves : List Move) (moment : MomentWithPast) → RunsAreInRange script.now
        → run_with_past script.now moves ≡ Some moment → moment.world ≡ world.old.world
        → NoObjectIsMissing script.now moment (record { world = world.new.world; grown = grown })) }
    ensures checked { IfOk result (λ grown. (moves : List Move) (moment : MomentWithPast) → RunsAreInRange script.now
        → run_with_past script.now moves ≡ Some moment → moment.world ≡ world.old.world
        → EachCheckLeavesOneValue script.now event moment.world moment.past.history (record { world = world.new.world; grown = grown })) }
    // The whole invariant holds, and the six facts, which it gives.
    ensures overlap { OnOk result ((moves : List Move) (moment : MomentWithPast) → RunsAreInRange script.now
        → run_with_past script.now moves ≡ Some moment → moment.world ≡ world.new.world → OverlapOf script.now moment) }
    ensures facts { OnOk result ((moves : List Move) (moment : MomentWithPast) → RunsAreInRange script.now
        → run_with_past script.now moves ≡ Some moment → moment.world ≡ world.new.world → MeetsFacts moment.world moment.past) }
    ensures beside { OnOk result ((moves : List Move) (moment : MomentWithPast) → RunsAreInRange script.now
        → run_with_past script.now moves ≡ Some moment → moment.world ≡ world.new.world → HoldsBesideOverlap script.now moment) }
    // The replies of the run are one legal history, where the reads of disks that weren't available up to there are left out, torn blocks
    // excepted; and refused requests changed nothing, peer requests of another epoch among them.
    ensures headline { OnOk result ((moves : List Move) (moment : MomentWithPast) → RunsAreInRange script.now
        → run_with_past script.now moves ≡ Some moment → moment.world ≡ world.new.world → KeepsHeadline script.now moment) }
    // Where few losses held at each moment that the run came by, as where no node was lost, left or joined, no read is left out.
    ensures few_losses { OnOk result ((moves : List Move) (moment : MomentWithPast) → RunsAreInRange script.now
        → run_with_past script.now moves ≡ Some moment → moment.world ≡ world.new.world → LossesAreFewInRun script.now moves
        → IsLegal moment.past.history) }
    ensures unchanged_members { OnOk result ((moves : List Move) (moment : MomentWithPast) → RunsAreInRange script.now
        → run_with_past script.now moves ≡ Some moment → moment.world ≡ world.new.world
        → list_any changes_nodes (map event_of_move moves) ≡ false → IsLegal moment.past.history) }
{
    world.apply(script, event)
}
