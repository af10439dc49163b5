//! Laws of losses: how few of them leave what the headline asks for.
ghost use Rattle.std.specs.Prelude.{◌≡◌, ℕ, ◌≤◌, Bool, false, List, [], map, IsTrue, Some};
ghost use Rattle.std.specs.List.{list_any};
ghost use Rattle.object_id.specs.declared.node.NodeId.{NodeId};
ghost use Rattle.object_id.specs.declared.entry.Entry.{Entry};
ghost use Rattle.object_id.specs.declared.policy.Policy.{Policy};
ghost use Rattle.epoch_log.specs.Appending.{IsLog};
ghost use Rattle.epoch_log.specs.Epochs.{epoch_of};
ghost use Rattle.cluster_script.specs.declared.statement.Statement.{Statement};
ghost use Rattle.disk_history.specs.Legal.{IsLegal};
ghost use Rattle.sheep_world.specs.RunsWithAsks.{Move, event_of_move};
ghost use Rattle.overlap_law.specs.Attempts.{AttemptRecord};
ghost use Rattle.overlap_law.specs.FewLosses.{LossesAreFew, LossesStayFew};
ghost use Rattle.overlap_law.specs.FewLossesInRuns.{LossesAreFewInRun, changes_nodes};
ghost use Rattle.overlap_law.specs.Holders.{is_kept_in, is_available};
ghost use Rattle.overlap_law.specs.MomentChanges.{RunsAreInRange};
ghost use Rattle.overlap_law.specs.Past.{MomentWithPast, run_with_past};

/// On a large enough cluster few losses leave enough live holders. An object is kept in an epoch, if the epoch's members stand in as many
/// zones as the object has copies or strips, and at most one less than there are copies, or as many as there are parity strips, of them
/// don't count for the epoch. So it is available, if that is so of each epoch since its birth, or since the settled one, if that is later.
pub fn few_losses_leave_enough_live_holders()
    ensures kept { (counts : NodeId → ℕ → Bool) (log : List Entry) (oid : ℕ) (policy : Policy) (epoch : ℕ) → IsLog log
        → epoch ≤ epoch_of log → LossesAreFew counts log oid policy epoch → IsTrue (is_kept_in counts log oid policy epoch) }
    ensures available { (counts : NodeId → ℕ → Bool) (log : List Entry) (attempts : List AttemptRecord) (oid : ℕ) → IsLog log
        → LossesStayFew counts log attempts oid → IsTrue (is_available counts log attempts oid) }
{}

/// So it is of a run: where few losses hold at each moment that it comes by, for each object that was born and whose disk isn't dead, every
/// object was available at every moment. So no read is left out, and the whole history is legal.
pub fn few_losses_leave_the_whole_history_legal()
    ensures available { (script : List Statement) (moves : List Move) (moment : MomentWithPast) → RunsAreInRange script
        → run_with_past script moves ≡ Some moment → LossesAreFewInRun script moves → moment.past.unavailable ≡ [] }
    ensures legal { (script : List Statement) (moves : List Move) (moment : MomentWithPast) → RunsAreInRange script
        → run_with_past script moves ≡ Some moment → LossesAreFewInRun script moves → IsLegal moment.past.history }
{}

/// So it is where no node is lost, leaves or joins in a run: then few losses hold at each moment, since each member counts for each epoch,
/// and each object was born where there are as many zones as it has copies or strips; other weights leave the members in their zones.
pub fn unchanged_members_leave_the_whole_history_legal()
    ensures few { (script : List Statement) (moves : List Move) → RunsAreInRange script
        → list_any changes_nodes (map event_of_move moves) ≡ false → LossesAreFewInRun script moves }
    ensures legal { (script : List Statement) (moves : List Move) (moment : MomentWithPast) → RunsAreInRange script
        → run_with_past script moves ≡ Some moment → list_any changes_nodes (map event_of_move moves) ≡ false
        → IsLegal moment.past.history }
{}
