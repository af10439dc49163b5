//! Laws of the definitions, for the proofs of the layers above: each is the contract of a function that does nothing.
ghost use Rattle.std.specs.Prelude.{◌≡◌, ℕ, ◌+◌, nat_le, true, false, List, [], ◌∷◌, ◌++◌, codes, replicate, length, take, map, Some, None};
ghost use Rattle.std.specs.List.{range_with_len, Contains};
ghost use Rattle.std.specs.List.Sorted.{IsPermutation};
ghost use Rattle.std.specs.FinMap.{get};
ghost use Rattle.object_id.specs.declared.cause.Cause.TheVariants as causes;
ghost use Rattle.object_store.specs.Store.{SeenRow, rows_of};
ghost use Rattle.peer_proto.specs.declared.guest.GuestRsp.{GuestRsp};
ghost use Rattle.peer_proto.specs.declared.guest.GuestRsp.TheVariants as replies;
ghost use Rattle.cluster_script.specs.declared.statement.Statement.{Statement};
ghost use Rattle.cluster_script.specs.Statements.{requests_of};
ghost use Rattle.cluster_script.specs.Phases.{phase_of_request};
ghost use Rattle.sheep_node.specs.declared.event.Event.{Event};
ghost use Rattle.sheep_node.specs.State.{initial_node};
ghost use Rattle.sheep_world.specs.World.{Host, World, is_host_up};
ghost use Rattle.sheep_world.specs.Opening.{initial_host};
ghost use Rattle.dog_report.specs.Words.{Words, spaced_words};
ghost use Rattle.dog_report.specs.Fates.{Answered, Gone, Pending, Unsent, ReportLine, Told, line_words, numbers_told};
ghost use Rattle.dog_report.specs.Lists.{host_words, pending_word, vdis_words, cluster_info, row_words, ordered_rows, dump};
ghost use Rattle.dog_report.specs.Report.{Report, is_lost_request, is_begun, settled_fate, fate_due, last_fate, report_of};
ghost use Rattle.dog_report.specs.Counts.{count_of, is_ok, is_refused, is_gone_fate, is_pending, is_unsent, generated_words};
ghost use Rattle.dog_report.specs.Example.{node, member, example_log, at_log, example_effects, row_to, row_from};

/// A report has exactly one line for each request of its script.
pub fn each_request_has_one_line()
    ensures { (statements : List Statement) (events : List Event)
        → IsPermutation (range_with_len 1 (length (requests_of statements))) (numbers_told (report_of statements events)) }
{}

/// What became of a request in the end: its reply, where it has one, or else that the incarnation of its gateway is lost, that it
/// was started, or that it never was.
pub fn what_became_of_a_request()
    ensures answered { (statements : List Statement) (report : Report) (req : ℕ) (rsp : GuestRsp)
        → get report.replies req ≡ Some rsp → last_fate statements report req ≡ Answered rsp }
    ensures gone { (statements : List Statement) (report : Report) (req : ℕ) → get report.replies req ≡ None
        → is_lost_request statements req report.world ≡ true → last_fate statements report req ≡ Gone }
    ensures pending { (statements : List Statement) (report : Report) (req : ℕ) → get report.replies req ≡ None
        → is_lost_request statements req report.world ≡ false → is_begun statements req report.world ≡ true
        → last_fate statements report req ≡ Pending }
    ensures unsent { (statements : List Statement) (report : Report) (req : ℕ) → get report.replies req ≡ None
        → is_lost_request statements req report.world ≡ false → is_begun statements req report.world ≡ false
        → last_fate statements report req ≡ Unsent }
    // At the end of a phase it is told where it is settled by then and the request's own phase has begun.
    ensures due { (statements : List Statement) (report : Report) (req : ℕ)
        → nat_le (phase_of_request statements req) report.world.phase ≡ true
        → fate_due statements report req ≡ settled_fate statements report req }
    ensures later { (statements : List Statement) (report : Report) (req : ℕ)
        → nat_le (phase_of_request statements req) report.world.phase ≡ false → fate_due statements report req ≡ None }
{}

/// Each line of a request tells of it in one of the five ways.
pub fn the_counts_add_up()
    ensures { (lines : List ReportLine)
        → count_of is_ok lines + count_of is_refused lines + count_of is_gone_fate lines + count_of is_pending lines
        + count_of is_unsent lines ≡ length (numbers_told lines) }
{}

/// How a request's line is spelled.
pub fn requests_lines_spelled_out()
    ensures done { spaced_words (line_words (Told 1 (Answered replies.Done))) ≡ codes "1 ok" }
    ensures piece { spaced_words (line_words (Told 4 (Answered (replies.Piece (replicate 512 7 ++ replicate 512 0)))))
        ≡ codes "4 ok 07*512 00*512" }
    ensures locked { spaced_words (line_words (Told 3 (Answered (replies.Refused (causes.VdiLocked 1)))))
        ≡ codes "3 refused 07 VDI_LOCKED session 1" }
    ensures no_vdi { spaced_words (line_words (Told 2 (Answered (replies.Refused causes.NoVdi)))) ≡ codes "2 refused 08 NO_VDI" }
    ensures no_tag { spaced_words (line_words (Told 2 (Answered (replies.Refused causes.NoTag)))) ≡ codes "2 refused 0e NO_TAG" }
    ensures no_base { spaced_words (line_words (Told 2 (Answered (replies.Refused causes.NoBaseVdi))))
        ≡ codes "2 refused 09 NO_BASE_VDI" }
    ensures exists { spaced_words (line_words (Told 2 (Answered (replies.Refused causes.VdiExist))))
        ≡ codes "2 refused 04 VDI_EXIST" }
    ensures readonly { spaced_words (line_words (Told 2 (Answered (replies.Refused causes.Readonly))))
        ≡ codes "2 refused 1a READONLY" }
    ensures not_locked { spaced_words (line_words (Told 3 (Answered (replies.Refused causes.VdiNotLocked))))
        ≡ codes "3 refused 10 VDI_NOT_LOCKED" }
    ensures full { spaced_words (line_words (Told 2 (Answered (replies.Refused causes.FullVdi)))) ≡ codes "2 refused 13 FULL_VDI" }
    ensures parms { spaced_words (line_words (Told 6 (Answered (replies.Refused causes.InvalidParms))))
        ≡ codes "6 refused 05 INVALID_PARMS" }
    ensures halt { spaced_words (line_words (Told 1 (Answered (replies.Refused (causes.Halt 2 3)))))
        ≡ codes "1 refused 19 HALT members 2 wanted 3" }
    ensures old { spaced_words (line_words (Told 7 (Answered (replies.Refused
        (causes.OldEpoch (record { 0 = 2 }) (record { 0 = 1 }) (record { 0 = 3 }))))))
        ≡ codes "7 refused 81 OLD_EPOCH node 2 own 1 peer 3" }
    ensures newer { spaced_words (line_words (Told 7 (Answered (replies.Refused
        (causes.NewEpoch (record { 0 = 2 }) (record { 0 = 3 }) (record { 0 = 1 }))))))
        ≡ codes "7 refused 82 NEW_EPOCH node 2 own 3 peer 1" }
    ensures recovery { spaced_words (line_words (Told 7 (Answered (replies.Refused
        (causes.Recovery (record { 0 = 2 }) (record { 0 = 3 })))))) ≡ codes "7 refused 83 RECOVERY node 2 epoch 3" }
    ensures link { spaced_words (line_words (Told 7 (Answered (replies.Refused (causes.Link (record { 0 = 2 }))))))
        ≡ codes "7 refused 84 LINK node 2" }
    ensures no_obj { spaced_words (line_words (Told 7 (Answered (replies.Refused
        (causes.NoObj (record { 0 = 2 }) 0x8001ec8c00000000))))) ≡ codes "7 refused 02 NO_OBJ node 2 oid 8001ec8c00000000" }
    ensures checked { spaced_words (line_words (Told 5 (Answered (replies.Checked (record { objects = 1; inherited = 0; differed = [] })))))
        ≡ codes "5 ok objects 1 inherited 0 differed 0" }
    ensures differed { spaced_words (line_words (Told 5 (Answered (replies.Checked (record {
      objects = 3;
      inherited = 12;
      differed = 0x0001ec8c00000000 ∷ 0x0001ec8c00000010 ∷ [];
    }))))) ≡ codes "5 ok objects 3 inherited 12 differed 2 0001ec8c00000000 0001ec8c00000010" }
    ensures gone { spaced_words (line_words (Told 10 Gone)) ≡ codes "10 gone" }
    ensures pending { spaced_words (line_words (Told 10 Pending)) ≡ codes "10 pending" }
    ensures unsent { spaced_words (line_words (Told 10 Unsent)) ≡ codes "10 unsent" }
    // The line for a generated script.
    ensures generated { spaced_words (generated_words 7
        (Told 1 (Answered replies.Done) ∷ Told 2 (Answered (replies.Refused causes.NoVdi)) ∷ Told 3 Gone ∷ []))
        ≡ codes "gen 7 requests 3 ok 1 refused 1 gone 1 pending 0 unsent 0 hash 0fbd4271dad77c63" }
{}

/// How the lines of lists are spelled, of a log of two members and a third that joins, and of a disk with a snapshot.
pub fn lists_spelled_out()
    ensures cluster { (world : World) → map spaced_words (cluster_info (at_log world))
        ≡ codes "cluster epoch 2 settled 2 members 0 1 2" ∷ [] }
    // Before anyone has recovered in epoch 2, epoch 1 is the settled one.
    ensures unsettled { (world : World) → map spaced_words (cluster_info (record world { log = take 2 example_log }))
        ≡ codes "cluster epoch 2 settled 1 members 0 1 2" ∷ [] }
    ensures vdis { map spaced_words (vdis_words example_effects)
        ≡ codes "vdi 01ec8c a t1 1048576 3 22 000000 snapshot" ∷ codes "vdi 01ec8d a - 1048576 3 22 01ec8c session 1"
        ∷ codes "vdi 01f1a5 b - 8388608 4:2 20 000000 free" ∷ [] }
    ensures lost { (host : Host) → spaced_words (host_words (member 3) (record host { is_lost = true })) ≡ codes "node 3 lost" }
    // A node that has joined and read nothing.
    ensures joined { spaced_words (host_words (member 3) (initial_host (initial_node (node 3) 8)))
        ≡ codes "node 3 vnodes 64 epoch 1 rows 0 pending 0" }
    ensures unfinished { pending_word None ≡ codes "-" }
    ensures open_row { spaced_words (row_words 3 0x0001ec8c00000000 (row_to None)) ≡ codes "row 3 0001ec8c00000000 0 2 - af63dc4c8601ec8c" }
    ensures closed_row { spaced_words (row_words 3 0x0001ec8c00000000 (row_to (Some (record { 0 = 5 }))))
        ≡ codes "row 3 0001ec8c00000000 0 2 5 af63dc4c8601ec8c" }
    // The rows of an object by index, and then by their first epochs.
    ensures order { ordered_rows (row_from 1 2 ∷ row_from 0 3 ∷ row_from 0 2 ∷ []) ≡ row_from 0 2 ∷ row_from 0 3 ∷ row_from 1 2 ∷ [] }
{}

/// What `dump` lists: each row of each node that is up, and nothing else.
pub fn dump_has_the_rows_of_nodes_that_are_up()
    ensures only { (world : World) (words : Words) → Contains (dump world) words
        → (number : ℕ) × (host : Host) × (oid : ℕ) × (row : SeenRow)
        × (get world.hosts number ≡ Some host) × (is_host_up host ≡ true) × Contains (rows_of host.node.peer.rows oid) row
        × (words ≡ row_words number oid row) }
    ensures all { (world : World) (number : ℕ) (host : Host) (oid : ℕ) (row : SeenRow)
        → get world.hosts number ≡ Some host → is_host_up host ≡ true → Contains (rows_of host.node.peer.rows oid) row
        → Contains (dump world) (row_words number oid row) }
{}
