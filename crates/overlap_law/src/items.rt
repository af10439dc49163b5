//! Laws on the disks, blocks and items of the history: who begins writes on a disk, and what is open of the requests under way.
ghost use Rattle.std.specs.Prelude.{◌≡◌, ℕ, Bool, true, false, List, Some};
ghost use Rattle.std.specs.List.{list_any};
ghost use Rattle.std.specs.FinMap as tree;
ghost use Rattle.cluster_script.specs.declared.statement.Statement.{Statement};
ghost use Rattle.peer_proto.specs.declared.say.PeerRsp.{PeerRsp};
ghost use Rattle.disk_lock.specs.declared.holder.Holder.{Holder};
ghost use Rattle.vdi_directory.specs.Decisions.{log_effects};
ghost use Rattle.vdi_directory.specs.Effects.{holder_of};
ghost use Rattle.sheep_node.specs.declared.check_write.CheckWrite.{CheckWrite};
ghost use Rattle.sheep_node.specs.declared.event.Event.{Event};
ghost use Rattle.sheep_node.specs.declared.input.Input.TheVariants as inputs;
ghost use Rattle.sheep_node.specs.CheckWrites.{check_write_on};
ghost use Rattle.sheep_world.specs.HistoryAdditions.{check_write_grown};
ghost use Rattle.sheep_world.specs.Step.{EventOutcome};
ghost use Rattle.sheep_world.specs.World.{Host, is_host_up};
ghost use Rattle.sheep_world.specs.RunsWithAsks.{Move};
ghost use Rattle.sheep_world.specs.Began.{MakesMove};
ghost use Rattle.overlap_law.specs.ChecksAhead.{ChecksHaveBegunIfFound, ChecksHaveBegunNoneAhead};
ghost use Rattle.overlap_law.specs.CheckedAhead.{ChecksAreAlone, ChecksHaveNoItemsAhead};
ghost use Rattle.overlap_law.specs.CheckedBehind.{ChecksHaveItemsBehind};
ghost use Rattle.overlap_law.specs.Checks.{ChecksHaveItems};
ghost use Rattle.overlap_law.specs.DiskBlocks.{DisksHaveTheirBlocks};
ghost use Rattle.overlap_law.specs.DiskEvents.{is_anothers, BlocksUnderWayAreOpen, WritesHaveOpenItems, WritesOfChecksStand};
ghost use Rattle.overlap_law.specs.DiskEvents.{WritesUnderWayAreOpen};
ghost use Rattle.overlap_law.specs.Headline.{ledger_of};
ghost use Rattle.overlap_law.specs.KeptHistory.{CheckedValuesHaveItems};
ghost use Rattle.overlap_law.specs.MomentChanges.{IsOnTheWay, RunsAreInRange};
ghost use Rattle.overlap_law.specs.Past.{MomentWithPast, run_with_past};
ghost use Rattle.overlap_law.specs.Pieces.{WritesHaveItems};
ghost use Rattle.overlap_law.specs.ToldReads.{AllElseMayFollow};

/// In each run in range what an event adds to the history makes no disk that a session holds by the log, and begins writes of it for
/// requests of that session alone.
pub fn only_the_holder_begins_writes_of_its_disk()
    ensures { (script : List Statement) (moves : List Move) (before : MomentWithPast) (event : Event) (made : EventOutcome)
        (vid : ℕ) (holder : Holder) → RunsAreInRange script → run_with_past script moves ≡ Some before
        → MakesMove script event before.world made → holder_of (log_effects before.world.log) vid ≡ Some holder
        → list_any (is_anothers script vid holder.session) made.grown ≡ false }
{}

/// In each run in range what a request without reply began to write, on the working disk that its session has open, is open.
pub fn what_is_under_way_is_open()
    ensures { (script : List Statement) (moves : List Move) (moment : MomentWithPast) → RunsAreInRange script
        → run_with_past script moves ≡ Some moment → WritesUnderWayAreOpen moment.past.history moment.world.hosts }
{}

/// In each run in range each block of a write without reply, on the working disk that its session has open, is one of the history's disk,
/// if that is there, and has its open item.
pub fn each_block_under_way_is_open()
    ensures { (script : List Statement) (moves : List Move) (moment : MomentWithPast) → RunsAreInRange script
        → run_with_past script moves ≡ Some moment → BlocksUnderWayAreOpen script moment.past.history moment.world.hosts }
{}

/// In each run in range what a check under way began to write, on the working disk that its session has open, is among the items by which
/// the block may be read, where the history's disk has the block: nothing that was acknowledged stands behind it.
pub fn what_checks_write_stands()
    ensures { (script : List Statement) (moves : List Move) (moment : MomentWithPast) → RunsAreInRange script
        → run_with_past script moves ≡ Some moment → WritesOfChecksStand script moment.past.history moment.world.hosts }
{}

/// In each run in range a disk of the history has as many blocks as the log says that its id was made with.
pub fn disks_of_the_history_have_their_blocks()
    ensures { (script : List Statement) (moves : List Move) (moment : MomentWithPast) → RunsAreInRange script
        → run_with_past script moves ≡ Some moment → DisksHaveTheirBlocks moment.world.log moment.past.history }
{}

/// In each run in range what a write has still to write has its open items: each block of each piece that is left.
pub fn pieces_left_to_write_are_open()
    ensures { (script : List Statement) (moves : List Move) (moment : MomentWithPast) → RunsAreInRange script
        → run_with_past script moves ≡ Some moment → WritesHaveOpenItems moment.past.history moment.world.hosts }
{}

/// In each run in range what a write has still to write has its items: of each block of each piece that is left, the write's open item is
/// among those by which the block may be read, so nothing that was acknowledged stands behind it.
pub fn what_is_left_to_write_has_its_items()
    ensures { (script : List Statement) (moves : List Move) (moment : MomentWithPast) → RunsAreInRange script
        → run_with_past script moves ≡ Some moment → WritesHaveItems (ledger_of moment.past.history) moment.world.hosts }
{}

/// And it has them behind each change on the way of an event.
pub fn what_is_left_to_write_keeps_its_items()
    ensures { (script : List Statement) (moves : List Move) (move : Move) (start end before after : MomentWithPast)
        → RunsAreInRange script → IsOnTheWay script moves move start end before after
        → WritesHaveItems (ledger_of after.past.history) after.world.hosts }
{}

/// In each run in range no check has begun a write of a block from the first on of an object that it hasn't compared yet.
pub fn checks_begin_no_write_ahead()
    ensures { (script : List Statement) (moves : List Move) (moment : MomentWithPast) → RunsAreInRange script
        → run_with_past script moves ≡ Some moment → ChecksHaveBegunNoneAhead moment.past.history moment.world.hosts }
{}

/// In each run in range the writes that a check of a node that is up begins, as it comes to one by a reply, may come next in the history:
/// each is of a whole block, of which the check had begun no write, and the check hasn't ended.
pub fn what_checks_begin_may_follow()
    ensures { (script : List Statement) (moves : List Move) (moment : MomentWithPast) → RunsAreInRange script
        → run_with_past script moves ≡ Some moment → (n : ℕ) (host : Host) → tree.get moment.world.hosts n ≡ Some host
        → is_host_up host ≡ true → (rsp : PeerRsp) (write : CheckWrite) → check_write_on (inputs.Reply rsp) host.node ≡ Some write
        → AllElseMayFollow (ledger_of moment.past.history) (check_write_grown script write) }
{}

/// In each run in range a check that has counted an own object of its disk has begun a write in the history: it counts one as it comes to
/// the write of its value, whose first block its disk has.
pub fn a_check_that_counts_has_begun_a_write()
    ensures { (script : List Statement) (moves : List Move) (moment : MomentWithPast) → RunsAreInRange script
        → run_with_past script moves ≡ Some moment → ChecksHaveBegunIfFound moment.past.history moment.world.hosts }
{}

/// In each run in range the value that a check writes has its items, in each block that the disk has, behind each change on the way of an
/// event.
pub fn values_of_checks_have_their_items()
    ensures { (script : List Statement) (moves : List Move) (move : Move) (start end before after : MomentWithPast)
        → RunsAreInRange script → IsOnTheWay script moves move start end before after
        → CheckedValuesHaveItems (ledger_of after.past.history) after.world.hosts }
{}

/// In each run in range each block of the own objects that a check has come to has an item of it, if its disk has the block by the history.
pub fn checks_have_items_behind_them()
    ensures { (script : List Statement) (moves : List Move) (moment : MomentWithPast) → RunsAreInRange script
        → run_with_past script moves ≡ Some moment
        → ChecksHaveItemsBehind (ledger_of moment.past.history) moment.world.hosts }
{}

/// In each run in range no object that a check hasn't come to has an item of it, so neither has one that isn't an own object of its disk.
pub fn checks_have_no_items_ahead()
    ensures { (script : List Statement) (moves : List Move) (moment : MomentWithPast) → RunsAreInRange script
        → run_with_past script moves ≡ Some moment
        → ChecksHaveNoItemsAhead (ledger_of moment.past.history) moment.world.hosts }
{}

/// In each run in range what a check has behind it, of an object that it isn't writing, is all that the object's blocks may be read as:
/// each outcome has the bytes of the check's item. So checks have their items, by whichever test for good ids.
pub fn checks_have_their_items()
    ensures alone { (script : List Statement) (moves : List Move) (moment : MomentWithPast) → RunsAreInRange script
        → run_with_past script moves ≡ Some moment → (good_id : ℕ → Bool)
        → ChecksAreAlone (ledger_of moment.past.history) (log_effects moment.world.log) good_id moment.world.hosts moment.past.attempts }
    ensures all { (script : List Statement) (moves : List Move) (moment : MomentWithPast) → RunsAreInRange script
        → run_with_past script moves ≡ Some moment → (good_id : ℕ → Bool)
        → ChecksHaveItems (ledger_of moment.past.history) (log_effects moment.world.log) good_id moment.world.hosts
        moment.past.attempts }
{}
