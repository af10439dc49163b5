//! Laws of requests and of the writers of disks, and which scripts have room.

ghost use Rattle.std.specs.Prelude.{◌≡◌, ◌⊎◌, ◌≤◌, ℕ, ◌+◌, true, false, List, [], ◌∷◌, ◌++◌, length, Some};
ghost use Rattle.object_id.specs.declared.limits.TheConstants.{INPUT_BYTES_MAX};
ghost use Rattle.object_id.specs.declared.entry.Entry.{Entry};
ghost use Rattle.disk_lock.specs.declared.holder.Holder.{Holder};
ghost use Rattle.epoch_log.specs.Epochs.{epoch_of};
ghost use Rattle.vdi_directory.specs.Decisions.{outcome, log_effects};
ghost use Rattle.cluster_script.specs.declared.statement.Statement.{Statement};
ghost use Rattle.cluster_script.specs.Language.{IsScript};
ghost use Rattle.sheep_world.specs.Began.{Began};
ghost use Rattle.sheep_world.specs.World.{World};
ghost use Rattle.sheep_world.specs.LogHolds.{MayGrow};
ghost use Rattle.sheep_world.specs.HoldsTogether.{MessagesAreInRange};
ghost use Rattle.sheep_world.specs.RunsWithAsks.{Move};
ghost use Rattle.overlap_law.specs.Attempts.{AttemptRecord};
ghost use Rattle.overlap_law.specs.Grants.{gives, reserved_in, granted_in, published_in};
ghost use Rattle.overlap_law.specs.Grants.{writer_of, takes_writer, may_take_writer, given_to};
ghost use Rattle.overlap_law.specs.Packets.{Wire};
ghost use Rattle.overlap_law.specs.Past.{MomentWithPast, run_with_past};
ghost use Rattle.overlap_law.specs.MomentChanges.{MomentChange, MomentTrail, RunsAreInRange};
ghost use Rattle.overlap_law.specs.Traffic.{IsInTurn};
ghost use Rattle.overlap_law.specs.Sessions.{SessionsWorkApart, MakersAreApart, SessionsHaveOneInodeWork, WorksAreApart, ReadsAreLast};
ghost use Rattle.overlap_law.specs.Sessions.{BegunRequestsAreApart, OpenDisksAreHeld};
ghost use Rattle.overlap_law.specs.Writers.{WorksMayWrite, ThereIsOneWriter, AttemptsHaveBegun, WritersTakeTurns, IsInOwnTurn};
ghost use Rattle.overlap_law.specs.Writers.{OnlyTheWriterWrites};
ghost use Rattle.overlap_law.specs.Fates.{AttemptsAreOrdered};
ghost use Rattle.overlap_law.specs.OpenWorks.{PacketsAreOfOpenWorks, OpenAttemptsAreLatest};
ghost use Rattle.overlap_law.specs.RequestsOfScript.{RequestsAreWithoutReply, AttemptsAreTheScripts, TheRefusedAreAnswered};
ghost use Rattle.overlap_law.specs.TiedAttempts.{IsTied};
ghost use Rattle.overlap_law.specs.RoomOfScripts.{HasFewControls};
ghost use Rattle.overlap_law.specs.AwaitedEntries.{CommandEntriesAreAwaited, CommandsAreTheSessions};
ghost use Rattle.overlap_law.specs.CommandDisks.{OpenDisksFitCommands};
ghost use Rattle.overlap_law.specs.WriterClaims.{ClaimsAreKept};
ghost use Rattle.overlap_law.specs.Courses.{CommandsKeepTheirGrants};
ghost use Rattle.vdi_directory.specs.Chains.{is_above};
ghost use Rattle.vdi_directory.specs.States.{state_of, is_live_state};
ghost use Rattle.overlap_law.specs.GrantedAttempts.{AttemptsAreUnderTheGrant};
ghost use Rattle.overlap_law.specs.LastReads.{was_snapped, snapped_in, SnapshotsAreClosed, AttemptsAreOfThePast};

/// In each world that a run of a script with few controls reaches there is room for one epoch more: an epoch begins only by a control, or
/// by the leave of a member, which was there at first or came by a control.
pub fn scripts_of_few_controls_have_room()
    ensures { (script : List Statement) (world : World) → IsScript script → HasFewControls script → Began script world → MayGrow world }
{}

/// A script that a text may spell has few controls: it has no more than statements, and no more statements than a text may have bytes. So
/// there is room for one epoch more in each world that its runs reach, and these are in range if what is sent and replied is.
pub fn scripts_of_a_text_have_room()
    ensures few { (script : List Statement) → length script ≤ INPUT_BYTES_MAX → HasFewControls script }
    ensures room { (script : List Statement) (world : World) → IsScript script → length script ≤ INPUT_BYTES_MAX → Began script world
        → MayGrow world }
    ensures in_range { (script : List Statement) → IsScript script → length script ≤ INPUT_BYTES_MAX
        → ((world : World) → Began script world → MessagesAreInRange world) → RunsAreInRange script }
{}

/// An attempt is for a request of the script, of a session of its gateway's incarnation: each change of a moment keeps that, and so it is
/// in each run in range.
pub fn each_attempt_is_for_a_request()
    ensures change { (script : List Statement) (start before after : MomentWithPast) → RunsAreInRange script → Began script start.world
        → MomentChange script start before after → AttemptsAreTheScripts script before.past.attempts
        → AttemptsAreTheScripts script after.past.attempts }
    ensures run { (script : List Statement) (moves : List Move) (moment : MomentWithPast) → RunsAreInRange script
        → run_with_past script moves ≡ Some moment → AttemptsAreTheScripts script moment.past.attempts }
{}

/// In each run what was refused was started and has its reply, and what has no reply was started.
pub fn the_refused_are_answered()
    ensures { (script : List Statement) (moves : List Move) (moment : MomentWithPast) → run_with_past script moves ≡ Some moment
        → TheRefusedAreAnswered script moment.world moment.past.refused }
{}

/// In each run in range a session has one open work on its inode at most.
pub fn a_session_has_one_inode_work()
    ensures { (script : List Statement) (moves : List Move) (moment : MomentWithPast) → RunsAreInRange script
        → run_with_past script moves ≡ Some moment → SessionsHaveOneInodeWork moment.world.hosts }
{}

/// In each run in range reads and writes of a session that have begun have no index in common.
pub fn begun_requests_are_apart()
    ensures { (script : List Statement) (moves : List Move) (moment : MomentWithPast) → RunsAreInRange script
        → run_with_past script moves ≡ Some moment → BegunRequestsAreApart moment.world.hosts }
{}

/// The session that may write an id stays its writer at an entry, unless what the entry does takes the id from it. Who may write the id
/// after an entry might before, or is the one to whom the entry gives it. An entry that takes the id is the leave of the writer's node, a
/// snapshot of the disk, a publication of the id by that node, or the writer's own unlock.
pub fn few_effects_change_the_writer()
    ensures stays { (log : List Entry) (entry : Entry) (vid : ℕ) (writer : Holder) → writer_of (log_effects log) vid ≡ Some writer
        → takes_writer vid writer.node (outcome (log_effects log) entry).effect ≡ false
        → writer_of (log_effects (log ++ entry ∷ [])) vid ≡ Some writer }
    ensures given { (log : List Entry) (entry : Entry) (vid : ℕ) (writer : Holder)
        → writer_of (log_effects (log ++ entry ∷ [])) vid ≡ Some writer
        → (writer_of (log_effects log) vid ≡ Some writer) ⊎ (gives vid (outcome (log_effects log) entry).effect ≡ true) }
    ensures to { (log : List Entry) (entry : Entry) (vid : ℕ) → gives vid (outcome (log_effects log) entry).effect ≡ true
        → writer_of (log_effects (log ++ entry ∷ [])) vid ≡ given_to (outcome (log_effects log) entry).effect }
    ensures by_entry { (log : List Entry) (entry : Entry) (vid : ℕ) (writer : Holder) → writer_of (log_effects log) vid ≡ Some writer
        → takes_writer vid writer.node (outcome (log_effects log) entry).effect ≡ true → may_take_writer vid writer entry ≡ true }
{}

/// The epochs in which an id was reserved, given to its writer and published are no later than the log's, and rise with it.
pub fn grants_are_of_epochs_that_began()
    ensures began { (log : List Entry) (vid : ℕ) → (reserved_in log vid ≤ epoch_of log) × (granted_in log vid ≤ epoch_of log)
        × (published_in log vid ≤ epoch_of log) }
    ensures rise { (log : List Entry) (entry : Entry) (vid : ℕ) → (reserved_in log vid ≤ reserved_in (log ++ entry ∷ []) vid)
        × (granted_in log vid ≤ granted_in (log ++ entry ∷ []) vid) × (published_in log vid ≤ published_in (log ++ entry ∷ []) vid) }
    ensures grant { (log : List Entry) (entry : Entry) (vid : ℕ) → gives vid (outcome (log_effects log) entry).effect ≡ true
        → granted_in (log ++ entry ∷ []) vid ≡ epoch_of (log ++ entry ∷ []) }
    ensures kept { (log : List Entry) (entry : Entry) (vid : ℕ) → gives vid (outcome (log_effects log) entry).effect ≡ false
        → granted_in (log ++ entry ∷ []) vid ≡ granted_in log vid }
{}

/// In each run in range a request of a node, but for a client's read, is the script's of its number, of a session that asks at this node in
/// this incarnation of it, and is without reply there.
pub fn requests_of_nodes_are_without_reply()
    ensures { (script : List Statement) (moves : List Move) (moment : MomentWithPast) → RunsAreInRange script
        → run_with_past script moves ≡ Some moment → RequestsAreWithoutReply script moment.world }
{}

/// Each attempt is of an epoch that has begun: each change of a moment keeps that, and so it is in each run in range.
pub fn attempts_are_of_epochs_that_began()
    ensures change { (script : List Statement) (start before after : MomentWithPast) → RunsAreInRange script → Began script start.world
        → MomentChange script start before after → AttemptsHaveBegun before.world.log before.past.attempts
        → AttemptsHaveBegun after.world.log after.past.attempts }
    ensures run { (script : List Statement) (moves : List Move) (moment : MomentWithPast) → RunsAreInRange script
        → run_with_past script moves ≡ Some moment → AttemptsHaveBegun moment.world.log moment.past.attempts }
{}

/// There stays one writer of an id over each change of a moment at which the attempts are tied, if writers take turns: an attempt that
/// begins is the writer's, under its grant; and one whose writer loses the id by an entry has nothing in flight any more, or its gateway
/// left by that entry.
pub fn there_stays_one_writer()
    ensures { (script : List Statement) (start before after : MomentWithPast) → RunsAreInRange script → Began script start.world
        → MomentChange script start before after → IsTied before → AttemptsHaveBegun before.world.log before.past.attempts
        → WritersTakeTurns before.world.log after.world.log before.world.wire before.past.attempts after.past.attempts
        → ThereIsOneWriter before.world.log before.world.wire before.past.attempts
        → ThereIsOneWriter after.world.log after.world.wire after.past.attempts }
{}

/// Where there is one writer, an attempt that begins does so in its turn, if it is the writer's and does so among the attempts of its own
/// session. So the order of attempts needs of other sessions no more than that there is one writer.
pub fn the_writer_begins_in_turn()
    ensures { (log : List Entry) (wire : Wire) (attempts : List AttemptRecord) (attempt : AttemptRecord)
        → ThereIsOneWriter log wire attempts → IsInOwnTurn log wire attempts attempt → IsInTurn wire attempts attempt }
{}

/// In each run in range the entries of a node's commands that are on their way, unread in the log or still to be put, are there once each,
/// and a request of the node waits for each. And each command is of its request's session: what it waits for names that session, or is on
/// an id that was reserved for it. So it is at each moment on the way of an event, and at its end.
pub fn entries_of_commands_are_awaited()
    ensures awaited { (script : List Statement) (moves : List Move) (start moment : MomentWithPast) → RunsAreInRange script
        → run_with_past script moves ≡ Some start → MomentTrail script start moment
        → CommandEntriesAreAwaited moment.world.log moment.world.hosts }
    ensures sessions { (script : List Statement) (moves : List Move) (start moment : MomentWithPast) → RunsAreInRange script
        → run_with_past script moves ≡ Some start → MomentTrail script start moment → CommandsAreTheSessions moment.world.hosts }
{}

/// In each run in range a session with a command has open what that goes with: nothing while a disk is opened, the disk that is given back
/// while one is closed, and the working disk that becomes a snapshot while one is taken; and an inode that is to be open then is that of
/// the id that was granted. So it is at each moment on the way of an event, and at its end.
pub fn open_disks_fit_commands()
    ensures { (script : List Statement) (moves : List Move) (start moment : MomentWithPast) → RunsAreInRange script
        → run_with_past script moves ≡ Some start → MomentTrail script start moment → OpenDisksFitCommands moment.world.hosts }
{}

/// In each run in range sessions have what their works rest on, while their node hasn't read all of the log nor put all: a command has the
/// lock or the reservation of the id that it works for, gives it back nowhere, and its node has read the grant; a working disk that is open
/// is locked by its session, unless the session's command lets it go; and an unlock that is to be put is of an id that its session has. So
/// it is at each moment on the way of an event, and at its end.
pub fn claims_of_sessions_are_kept()
    ensures { (script : List Statement) (moves : List Move) (start moment : MomentWithPast) → RunsAreInRange script
        → run_with_past script moves ≡ Some start → MomentTrail script start moment → ClaimsAreKept moment.world.log moment.world.hosts }
{}

/// In each run in range a command that works for an id may write it: its session is the id's writer, has no unlock of it to put, and its
/// node has read the grant. So it is at each moment on the way of an event, and at its end.
pub fn commands_keep_their_grants()
    ensures { (script : List Statement) (moves : List Move) (start moment : MomentWithPast) → RunsAreInRange script
        → run_with_past script moves ≡ Some start → MomentTrail script start moment
        → CommandsKeepTheirGrants moment.world.log moment.world.hosts }
{}

/// In each run in range a session that has a working disk open holds it by the whole log, and its node has read that; or a request of the
/// session waits for an entry by which the disk is let go, and which is in the log already. So it is at each moment on the way of an event,
/// and at its end.
pub fn open_disks_are_held()
    ensures { (script : List Statement) (moves : List Move) (start moment : MomentWithPast) → RunsAreInRange script
        → run_with_past script moves ≡ Some start → MomentTrail script start moment
        → OpenDisksAreHeld moment.world.log moment.world.hosts }
{}

/// In each run in range an open create or write is of a request whose session may write the object: it is the writer of the object's id,
/// has no unlock of it to put, and its node has read the grant. So it is at each moment on the way of an event, and at its end.
pub fn open_works_may_write()
    ensures { (script : List Statement) (moves : List Move) (start moment : MomentWithPast) → RunsAreInRange script
        → run_with_past script moves ≡ Some start → MomentTrail script start moment → WorksMayWrite moment.world.log moment.world.hosts }
{}

/// There is one writer of each id: in each run in range an attempt is the writer's under its grant, or has nothing in flight and is of no
/// later epoch than the bound, or its gateway's incarnation left in an epoch no later than that. For an attempt that begins is of a session
/// that may write the id; and at an entry by which a session loses an id nothing is in flight of its attempts on it, or the entry is the
/// leave of its node. So it is at each moment on the way of an event, and at its end.
pub fn there_is_one_writer()
    ensures turns { (script : List Statement) (start before after : MomentWithPast) → RunsAreInRange script → Began script start.world
        → MomentChange script start before after → IsTied before
        → PacketsAreOfOpenWorks before.world.hosts before.world.wire before.past.attempts
        → WritersTakeTurns before.world.log after.world.log before.world.wire before.past.attempts after.past.attempts }
    ensures run { (script : List Statement) (moves : List Move) (start moment : MomentWithPast) → RunsAreInRange script
        → run_with_past script moves ≡ Some start → MomentTrail script start moment
        → ThereIsOneWriter moment.world.log moment.world.wire moment.past.attempts }
{}

/// In each run in range no two open works of a session are on one object: it has one work open on an inode, and its reads and writes that
/// have begun are on indexes apart. So it is after each change of a moment: at each on the way of an event, and at its end.
pub fn works_of_sessions_are_apart()
    ensures change { (script : List Statement) (start before after : MomentWithPast) → RunsAreInRange script → Began script start.world
        → MomentChange script start before after → SessionsWorkApart after.world.hosts }
    ensures run { (script : List Statement) (moves : List Move) (start moment : MomentWithPast) → RunsAreInRange script
        → run_with_past script moves ≡ Some start → MomentTrail script start moment → SessionsWorkApart moment.world.hosts }
{}

/// In each run in range no two open creates or writes of a node are on one object, as one session may write it. So it is after each change
/// of a moment: at each on the way of an event, and at its end.
pub fn makers_are_apart()
    ensures change { (script : List Statement) (start before after : MomentWithPast) → RunsAreInRange script → Began script start.world
        → MomentChange script start before after → MakersAreApart after.world.hosts }
    ensures run { (script : List Statement) (moves : List Move) (start moment : MomentWithPast) → RunsAreInRange script
        → run_with_past script moves ≡ Some start → MomentTrail script start moment → MakersAreApart moment.world.hosts }
{}

/// In each run in range the attempt that a create or write has open is the last on its object. So it is at each moment on the way of an
/// event, and at its end.
pub fn open_attempts_are_the_latest()
    ensures { (script : List Statement) (moves : List Move) (start moment : MomentWithPast) → RunsAreInRange script
        → run_with_past script moves ≡ Some start → MomentTrail script start moment
        → OpenAttemptsAreLatest moment.world.hosts moment.past.attempts }
{}

/// In each run in range the attempts on an object are in order: what is in flight as one begins is of another object, or of earlier numbers
/// of the same node's. So it is at each moment on the way of an event, and at its end.
pub fn attempts_are_in_order()
    ensures { (script : List Statement) (moves : List Move) (start moment : MomentWithPast) → RunsAreInRange script
        → run_with_past script moves ≡ Some start → MomentTrail script start moment
        → AttemptsAreOrdered moment.world.wire moment.past.attempts }
{}

/// In each run in range the attempts of a request that may still make something are of the grant's epoch or later, on each id that its
/// session may write. For an entry that gives a session an id is asked for by the session's command before its first work, or is its last
/// entry; so no attempt of a request is older than a grant that the request finds. So it is at each moment on the way of an event, and at
/// its end.
pub fn attempts_are_under_the_grant()
    ensures { (script : List Statement) (moves : List Move) (start moment : MomentWithPast) → RunsAreInRange script
        → run_with_past script moves ≡ Some start → MomentTrail script start moment
        → AttemptsAreUnderTheGrant moment.world.log moment.world.hosts moment.past.attempts }
{}

/// Only the writer of an id has creates and writes open on it: in each run in range an open create or write is of a request whose session
/// is the writer of the object's id, has no unlock of it to put, and whose node has read the grant; and the attempts of that work are of
/// the grant's epoch or later. So it is at each moment on the way of an event, and at its end.
pub fn only_the_writer_writes()
    ensures { (script : List Statement) (moves : List Move) (start moment : MomentWithPast) → RunsAreInRange script
        → run_with_past script moves ≡ Some start → MomentTrail script start moment
        → OnlyTheWriterWrites moment.world.log moment.world.hosts moment.past.attempts }
{}

/// Of whatever log: a disk becomes a snapshot once, and stays one. An id above another that is published and not deleted is a snapshot's.
pub fn snapshots_stay()
    ensures once { (log more : List Entry) (vid : ℕ) → was_snapped log vid ≡ true
        → (was_snapped (log ++ more) vid ≡ true) × (snapped_in (log ++ more) vid ≡ snapped_in log vid) }
    ensures above { (log : List Entry) (elder vid : ℕ) → is_above (log_effects log) elder vid ≡ true
        → is_live_state (state_of (log_effects log) vid) ≡ true → was_snapped log elder ≡ true }
{}

/// Nothing begins on a disk that became a snapshot: in each run in range an attempt on one has ended in an epoch no later than that in
/// which it became one, or is of a gateway that left before. So it is at each moment on the way of an event, and at its end.
pub fn snapshots_are_closed()
    ensures { (script : List Statement) (moves : List Move) (start moment : MomentWithPast) → RunsAreInRange script
        → run_with_past script moves ≡ Some start → MomentTrail script start moment
        → SnapshotsAreClosed moment.world.log moment.world.wire moment.past.attempts }
{}

/// In each run in range an attempt is of an epoch that its gateway came to, at each moment on the way of an event, and at its end.
pub fn attempts_are_of_the_past()
    ensures { (script : List Statement) (moves : List Move) (start moment : MomentWithPast) → RunsAreInRange script
        → run_with_past script moves ≡ Some start → MomentTrail script start moment
        → AttemptsAreOfThePast moment.world.hosts moment.past.attempts }
{}

/// In each run in range no attempt on an object is of a later epoch than an open read of it by a session, nor of the same epoch while
/// something of it is in flight. So it is at each moment on the way of an event, and at its end.
pub fn open_reads_are_the_last()
    ensures { (script : List Statement) (moves : List Move) (start moment : MomentWithPast) → RunsAreInRange script
        → run_with_past script moves ≡ Some start → MomentTrail script start moment
        → ReadsAreLast moment.world.hosts moment.world.wire moment.past.attempts }
{}

/// In each run in range beside an open create or write a node has on its object no other open work but what a client reads, a session has
/// one open work on its inode, and its reads and writes that have begun have no index in common.
pub fn works_are_apart()
    ensures { (script : List Statement) (moves : List Move) (moment : MomentWithPast) → RunsAreInRange script
        → run_with_past script moves ≡ Some moment → WorksAreApart moment.world.hosts }
{}
