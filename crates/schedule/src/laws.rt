//! Laws of the definitions, for the proofs of the layers above: each is the contract of a function that does nothing.
ghost use Rattle.std.specs.Prelude.{◌≡◌, ◌≢◌, ℕ, ◌+◌, ◌<◌, ◌≤◌, List, [], ◌∷◌, length, take, drop, codes, Some, None, Ok, Contains};
ghost use Rattle.std.specs.Prelude.{count_by};
ghost use Rattle.rand_xoshiro.specs.SplitMix64.{mix_u64};
ghost use Rattle.cluster_script.specs.declared.statement.Statement.{Statement};
ghost use Rattle.cluster_script.specs.Settings.{limit_of};
ghost use Rattle.cluster_script.specs.Statements.{is_request};
ghost use Rattle.cluster_script.specs.Language.{IsScript};
ghost use Rattle.cluster_script.specs.Script.{script_in};
ghost use Rattle.sheep_node.specs.declared.event.Event.{Event};
ghost use Rattle.sheep_world.specs.Enabled.{enabled_events};
ghost use Rattle.sheep_world.specs.Run.{Moment, IsRun, IsWholeRun};
ghost use Rattle.schedule.specs.Schedule.{Draft, phase_chosen, choice, schedule_of};
ghost use Rattle.schedule.specs.Generated.{generated_lines};
ghost use Rattle.schedule.specs.GeneratedScript.{generated_text, generated_statements};
ghost use Rattle.schedule.specs.Stops.{stopped_at, IsStopAt};
ghost use Rattle.schedule.specs.Merged.{KeptStep, Kept, IsByStamp, MergesFrom, Merges, IsMergeOf, IsClashAt};

/// The first two words of the generator with seed 0.
pub fn the_first_words()
    ensures first { (mix_u64 0).0 ≡ 0xe220a8397b1dcdaf }
    ensures second { (mix_u64 (mix_u64 0).1).0 ≡ 0x6e789e6aa1b965f4 }
{}

/// Phase stands where nothing is enabled or the limit is reached, and nowhere else; then no word is drawn.
pub fn phase_stands_last()
    ensures none { (statements : List Statement) (draft : Draft) → enabled_events statements draft.world ≡ []
        → choice statements draft ≡ phase_chosen draft }
    ensures limit { (statements : List Statement) (draft : Draft) → limit_of statements ≤ draft.taken
        → choice statements draft ≡ phase_chosen draft }
    ensures drawn { (statements : List Statement) (draft : Draft) → enabled_events statements draft.world ≢ []
        → draft.taken < limit_of statements
        → Contains (enabled_events statements draft.world) (choice statements draft).event
        × ((choice statements draft).taken ≡ draft.taken + 1) }
{}

/// A schedule is a run of its script, in which every phase is ended.
pub fn a_schedule_is_a_whole_run()
    ensures { (statements : List Statement) (seed : ℕ) → IsWholeRun statements (schedule_of statements seed) }
{}

/// Given events are a run where they stop nowhere, and else the ones before the stop are.
pub fn a_stop_is_the_first()
    ensures none { (statements : List Statement) (events : List Event) → stopped_at statements events ≡ None
        → IsRun statements events }
    ensures run { (statements : List Statement) (events : List Event) → IsRun statements events
        → stopped_at statements events ≡ None }
    ensures stop { (statements : List Statement) (events : List Event) (place : ℕ) → stopped_at statements events ≡ Some place
        → IsStopAt statements events place }
{}

/// Steps merge to one list of events at most, and that is a run of the script. Where they clash they merge to none.
pub fn steps_merge_to_one_run()
    ensures run { (statements : List Statement) (steps : List KeptStep) (events : List Event) → Merges statements steps events
        → IsRun statements events }
    ensures one { (statements : List Statement) (steps : List KeptStep) (events others : List Event)
        → Merges statements steps events → Merges statements steps others → events ≡ others }
    ensures clash { (statements : List Statement) (moment : Moment) (taken : ℕ) (steps : List KeptStep) (place : ℕ) (events : List Event)
        → IsClashAt statements moment taken steps place → MergesFrom statements events moment.world taken steps → ⊥ }
{}

/// What was kept stands by stamp in one order, and so merges to one list of events at most, a run of the script.
pub fn what_is_kept_has_one_order()
    ensures some { (kept : Kept) → (steps : List KeptStep) × IsByStamp kept steps }
    ensures one { (kept : Kept) (steps others : List KeptStep) → IsByStamp kept steps → IsByStamp kept others → steps ≡ others }
    ensures run { (statements : List Statement) (kept : Kept) (events : List Event) → IsMergeOf statements kept events
        → IsRun statements events }
    ensures merge { (statements : List Statement) (kept : Kept) (events others : List Event)
        → IsMergeOf statements kept events → IsMergeOf statements kept others → events ≡ others }
{}

/// Whatever the number, what it generates is a script of 208 requests: its statements are one, and its text is read as them.
pub fn each_number_generates_a_script()
    ensures script { (number : ℕ) → IsScript (generated_statements number) }
    ensures text { (number : ℕ) → script_in (generated_text number) ≡ Ok (generated_statements number) }
    ensures requests { (number : ℕ) → count_by is_request (generated_statements number) ≡ 208 }
{}

/// The script that the number 0 generates: where its parts stand, and some of its lines.
pub fn a_script_generated()
    ensures count { length (generated_lines 0) ≡ 221 }
    ensures opening { take 10 (generated_lines 0)
        ≡ codes "cluster 6" ∷ codes "tries 1000" ∷ codes "session 1 node 0" ∷ codes "session 2 node 1"
        ∷ codes "session 3 node 2" ∷ codes "session 4 node 3" ∷ codes "1 vdi create -c 3 -z 20 g1 64M" ∷ codes "1 vdi open g1"
        ∷ codes "2 vdi create -c 2:2 -z 20 g2 64M" ∷ codes "2 vdi open g2" ∷ [] }
    ensures first_round { take 2 (drop 14 (generated_lines 0))
        ≡ codes "settle" ∷ codes "4 vdi read 53915648 4096" ∷ [] }
    ensures second_round { take 4 (drop 64 (generated_lines 0))
        ≡ codes "3 vdi write 21716992 4096 fill 240" ∷ codes "settle" ∷ codes "fail 5" ∷ codes "2 vdi read 24821760 4096" ∷ [] }
    ensures third_round { take 2 (drop 117 (generated_lines 0)) ≡ codes "settle" ∷ codes "join 6" ∷ [] }
    ensures end { drop 219 (generated_lines 0) ≡ codes "1 vdi write 33730560 4096 fill 173" ∷ codes "settle" ∷ [] }
{}
