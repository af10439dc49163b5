//! Laws of the definitions that the top call's contract speaks of: each is the contract of a function that does nothing.
ghost use Rattle.std.specs.Prelude.{◌≡◌, ℕ, true, List, Contains, Some};
ghost use Rattle.cluster_script.specs.declared.statement.Pattern.{Pattern};
ghost use Rattle.cluster_script.specs.declared.statement.Statement.{Statement};
ghost use Rattle.cluster_script.specs.declared.statement.Statement.TheVariants as lines;
ghost use Rattle.cluster_script.specs.Language.{IsScript};
ghost use Rattle.cluster_script.specs.NumberedRequests.{request_at};
ghost use Rattle.disk_history.specs.declared.event.HistEvent.{HistEvent};
ghost use Rattle.disk_history.specs.declared.event.HistEvent.TheVariants.{WriteDone, WriteRefused, Read};
ghost use Rattle.peer_proto.specs.declared.guest.GuestRsp.{GuestRsp};
ghost use Rattle.peer_proto.specs.declared.guest.GuestRsp.TheVariants.{Piece};
ghost use Rattle.sheep_node.specs.declared.event.Event.{Event};
ghost use Rattle.sheep_world.specs.HistoryAdditions.{each_block};
ghost use Rattle.sheep_world.specs.Run.{Moment, run};
ghost use Rattle.dog_report.specs.Fates.{Answered};
ghost use Rattle.dog_report.specs.Counts.{is_ok, is_refused};
ghost use Rattle.sheep.specs.PrintedReplies.{IsGiven, PrintsReplies, disk_begun_on, reply_added, HasPart};
ghost use Rattle.sheep.specs.PrintedReads.{DoneAreOnOpenDisks};
ghost use Rattle.overlap_law.specs.MomentChanges.{RunsAreInRange};

/// The report of a run of a script prints the replies that the run's events gave, each of them and no others, whether the run is whole or
/// not.
pub fn a_report_prints_the_replies_of_its_run()
    ensures { (statements : List Statement) (events : List Event) (last : Moment) → IsScript statements → run statements events ≡ Some last
        → PrintsReplies statements events last.history }
{}

/// The events of a run give one reply at most to a request.
pub fn a_request_gets_one_reply()
    ensures { (statements : List Statement) (events : List Event) (last : Moment) → IsScript statements → run statements events ≡ Some last
        → (req : ℕ) (rsp other : GuestRsp) → IsGiven statements events last.history req rsp
        → IsGiven statements events last.history req other → rsp ≡ other }
{}

/// What a reply that an event of a run gave added is a part of the history. So of a write that began on an open disk the history has
/// that it is done, if the reply is told as `ok`, and that it was refused, if it is told so; and of a read that began on one the reads of
/// its blocks of the disk, with the bytes that are told.
pub fn the_history_has_what_replies_added()
    ensures added { (statements : List Statement) (all : List Event) (history : List HistEvent) (req : ℕ) (rsp : GuestRsp)
        (given : IsGiven statements all history req rsp) → HasPart history (reply_added given) }
    ensures done { (statements : List Statement) (all : List Event) (history : List HistEvent) (req : ℕ) (rsp : GuestRsp)
        (given : IsGiven statements all history req rsp) (disk : ℕ) → disk_begun_on given ≡ Some disk
        → (session offset length : ℕ) (pattern : Pattern) → request_at statements req ≡ Some (lines.Write session offset length pattern)
        → is_ok (Answered rsp) ≡ true → Contains history (WriteDone req) }
    ensures refused { (statements : List Statement) (all : List Event) (history : List HistEvent) (req : ℕ) (rsp : GuestRsp)
        (given : IsGiven statements all history req rsp) (disk : ℕ) → disk_begun_on given ≡ Some disk
        → (session offset length : ℕ) (pattern : Pattern) → request_at statements req ≡ Some (lines.Write session offset length pattern)
        → is_refused (Answered rsp) ≡ true → Contains history (WriteRefused req) }
    ensures read { (statements : List Statement) (all : List Event) (history : List HistEvent) (req : ℕ) (rsp : GuestRsp)
        (given : IsGiven statements all history req rsp) (disk : ℕ) → disk_begun_on given ≡ Some disk
        → (session offset length : ℕ) (bytes : List ℕ) → request_at statements req ≡ Some (lines.Read session offset length)
        → rsp ≡ Piece bytes → HasPart history (each_block (λ block piece. Read disk block piece) offset bytes) }
{}

/// Nothing that is printed as done escapes the history, in each run in range, whole or not: a read that is told as `ok` began on a disk
/// that its session had open, it is told as many bytes as it asked for, and the history has the reads of their blocks of this disk; a write
/// that is told so began on an open disk, and the history has that it is done; and so a check, which tells what it found, and of which the
/// history has that its write is done, if it came to one.
pub fn what_is_printed_as_done_is_on_an_open_disk()
    ensures { (statements : List Statement) (all : List Event) (history : List HistEvent) → RunsAreInRange statements
        → DoneAreOnOpenDisks statements all history }
{}
