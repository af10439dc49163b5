//! Laws of every run: the facts on which the overlap of epochs rests.
ghost use Rattle.std.specs.Prelude.{◌≡◌, List, Some};
ghost use Rattle.cluster_script.specs.declared.statement.Statement.{Statement};
ghost use Rattle.epoch_log.specs.Epochs.{settled_of};
ghost use Rattle.overlap_law.specs.Past.{MomentWithPast, counts, run_with_past};
ghost use Rattle.overlap_law.specs.MomentChanges.{RunsAreInRange};
ghost use Rattle.overlap_law.specs.Holders.{targets_by};
ghost use Rattle.overlap_law.specs.Overlap.{OverlapGivesFacts};
ghost use Rattle.overlap_law.specs.Contents.{RowContents, AttemptsStand};
ghost use Rattle.overlap_law.specs.Facts.{EachGood, HoldersOfTheBase, CompleteLists, LostGatewaysAreFenced, MeetsFacts};
ghost use Rattle.sheep_world.specs.RunsWithAsks.{Move};

/// In every run in range each row of a good object that reaches the epoch of the object's base has at quiet units what the made attempts
/// come to; at any other unit a copy has the bytes of the unit's own base or of a later attempt.
pub fn rows_have_their_bases()
    ensures { (script : List Statement) → RunsAreInRange script → (moves : List Move)
        (moment : MomentWithPast) → run_with_past script moves ≡ Some moment
        → EachGood moment.world moment.past (RowContents moment.world.hosts) }
{}

/// There an attempt on a good object that isn't made is doomed, or each row that reaches beyond its epoch has it.
pub fn attempts_stand()
    ensures { (script : List Statement) → RunsAreInRange script → (moves : List Move)
        (moment : MomentWithPast) → run_with_past script moves ≡ Some moment
        → EachGood moment.world moment.past (AttemptsStand moment.world.hosts) }
{}

/// There each target of the base's epoch, or of a later settled one, that counts for it has a row that holds it, of each good object.
pub fn bases_have_holders()
    ensures { (script : List Statement) → RunsAreInRange script → (moves : List Move)
        (moment : MomentWithPast) → run_with_past script moves ≡ Some moment → EachGood moment.world moment.past
        (HoldersOfTheBase (targets_by moment.world.log) (counts moment.past.ended moment.world) (settled_of moment.world.log)
        moment.world.hosts) }
{}

/// And each finished list has each good object whose base is of an epoch below the list's.
pub fn lists_have_all_bases()
    ensures { (script : List Statement) → RunsAreInRange script → (moves : List Move)
        (moment : MomentWithPast) → run_with_past script moves ≡ Some moment
        → EachGood moment.world moment.past (CompleteLists moment.past.listed moment.world.hosts) }
{}

/// In every run in range lost gateways are fenced: each attempt of an incarnation that left, made or not, is of an epoch before that of its
/// `Leave`, and so is each message that still flies; and where one does and the disk has a writer, the grant is of the leave's epoch or a
/// later one. And so is the grant of who may write an id now that a session of the node might write as it left.
pub fn lost_gateways_are_fenced()
    ensures { (script : List Statement) → RunsAreInRange script → (moves : List Move) (moment : MomentWithPast)
        → run_with_past script moves ≡ Some moment
        → LostGatewaysAreFenced moment.world.log moment.world.hosts moment.world.wire moment.past.attempts }
{}

/// All six facts hold in every run in range.
pub fn the_facts_hold()
    ensures { (script : List Statement) → RunsAreInRange script → (moves : List Move)
        (moment : MomentWithPast) → run_with_past script moves ≡ Some moment
        → MeetsFacts moment.world moment.past }
{}

/// The invariant gives them in each moment of a run in range, and that the replies are legal.
pub fn the_overlap_gives_the_facts()
    ensures { (script : List Statement) → OverlapGivesFacts script }
{}
