//! Laws of the definitions, for the proofs of the layers above: each is the contract of a function that does nothing.
ghost use Rattle.std.specs.Prelude.{◌≡◌, ◌↔◌, ℕ, false, List, [], ◌∷◌, ◌++◌, codes, map, Some, None, Ok};
ghost use Rattle.std.specs.List.{list_any, AllByRecursion};
ghost use Rattle.cluster_script.specs.declared.statement.Statement.{Statement};
ghost use Rattle.cluster_script.specs.Words.{lines_of};
ghost use Rattle.cluster_script.specs.Script.{StatementReader, script_of, script_in};
ghost use Rattle.sheep_node.specs.declared.event.Event.{Event};
ghost use Rattle.sheep_node.specs.declared.event.Event.TheVariants as events;
ghost use Rattle.sheep_world.specs.Run.{IsWholeRun};
ghost use Rattle.trace_text.specs.Spelling.{event_text, trace_text_of};
ghost use Rattle.trace_text.specs.EventReading.{IsNamed, event_in};
ghost use Rattle.trace_text.specs.Replay.{events_in, bad_place, IsBadAt};
ghost use Rattle.trace_text.specs.Lines.{lines_in, is_trace_line, script_lines, trace_lines};
ghost use Rattle.trace_text.specs.InputParts.{script_part, trace_part};

/// A line is read as an event exactly where it is the event's text, and its numbers are below 2^32.
pub fn reading_undoes_spelling()
    ensures { (line : List ℕ) (event : Event)
        → (event_in line ≡ Some event) ↔ ((line ≡ event_text event) × IsNamed event) }
{}

/// Two events have not one text.
pub fn a_text_is_of_one_event()
    ensures { (one other : Event) → IsNamed one → IsNamed other → event_text one ≡ event_text other → one ≡ other }
{}

/// A trace has a line for each event, whether or not its last line ends in LF.
pub fn a_trace_has_a_line_for_each_event()
    ensures ended { (events : List Event) → AllByRecursion IsNamed events
        → lines_in (trace_text_of events) ≡ map event_text events }
    ensures cut { (events : List Event) (event : Event) → AllByRecursion IsNamed events → IsNamed event
        → lines_in (trace_text_of events ++ event_text event) ≡ map event_text events ++ event_text event ∷ [] }
{}

/// A replay takes the lines that spell a whole run of the script, and no others.
pub fn a_replay_takes_whole_runs()
    ensures taken { (statements : List Statement) (lines : List (List ℕ)) → bad_place statements lines ≡ None
        → IsWholeRun statements (events_in lines) × (lines ≡ map event_text (events_in lines)) }
    ensures takes { (statements : List Statement) (events : List Event) → AllByRecursion IsNamed events
        → IsWholeRun statements events → bad_place statements (map event_text events) ≡ None }
    // The place of a bad line is 1 and the events before it; a place behind the last line means that a phase isn't ended.
    ensures bad { (statements : List Statement) (lines : List (List ℕ)) (place : ℕ) → bad_place statements lines ≡ Some place
        → IsBadAt statements lines place }
{}

/// An input is cut at its first line `trace`: from what stands before it a script is read, and a replay goes through the lines
/// of what stands behind it.
pub fn an_input_is_cut_at_the_first_line_trace()
    // Without that line all of the input is the script, and the trace is empty.
    ensures alone { (input : List ℕ) → list_any is_trace_line (lines_of input) ≡ false
        → (script_part input ≡ input) × (trace_part input ≡ []) }
    ensures parted { (script trace : List ℕ) → list_any is_trace_line (lines_of script) ≡ false
        → (script_part (script ++ codes "\ntrace\n" ++ trace) ≡ script) × (trace_part (script ++ codes "\ntrace\n" ++ trace) ≡ trace) }
    // However a line is read, its number in the input is the one in the script.
    ensures script { (reader : StatementReader) (input : List ℕ)
        → script_of reader [] 1 (lines_of (script_part input)) ≡ script_of reader [] 1 (script_lines input) }
    ensures trace { (input : List ℕ) → lines_in (trace_part input) ≡ trace_lines input }
{}

/// A script may be followed by a trace: no line of it is `trace`, and so both are read again.
pub fn a_script_and_its_trace_are_read_again()
    ensures none { (text : List ℕ) (statements : List Statement) → script_in text ≡ Ok statements
        → list_any is_trace_line (lines_of text) ≡ false }
    ensures again { (text : List ℕ) (statements : List Statement) (events : List Event) → script_in text ≡ Ok statements
        → AllByRecursion IsNamed events
        → (script_in (script_part (text ++ codes "\ntrace\n" ++ trace_text_of events)) ≡ Ok statements)
        × (trace_lines (text ++ codes "\ntrace\n" ++ trace_text_of events) ≡ map event_text events) }
    // The LF in front of the line `trace` may end the script's last line.
    ensures ended { (reader : StatementReader) (text : List ℕ)
        → script_of reader [] 1 (lines_of (text ++ codes "\n")) ≡ script_of reader [] 1 (lines_of text) }
{}

/// How each event is spelled.
pub fn events_spelled_out()
    ensures guest { event_text (events.Guest 12) ≡ codes "guest 12" }
    ensures deliver { event_text (events.Deliver (record { 0 = 3 }) 0) ≡ codes "deliver 3.0" }
    ensures lose_request { event_text (events.LoseRequest (record { 0 = 0 }) 17) ≡ codes "loserequest 0.17" }
    ensures lose_reply { event_text (events.LoseReply (record { 0 = 63 }) 100) ≡ codes "losereply 63.100" }
    ensures log { event_text (events.LogNext (record { 0 = 0 })) ≡ codes "log 0" }
    ensures put { event_text (events.Put (record { 0 = 1 })) ≡ codes "put 1" }
    ensures recover { event_text (events.RecoverTick (record { 0 = 2 })) ≡ codes "recover 2" }
    ensures retry { event_text (events.RetryTick (record { 0 = 3 })) ≡ codes "retry 3" }
    ensures lost { event_text (events.Lost (record { 0 = 4 })) ≡ codes "lost 4" }
    ensures leave { event_text (events.Leave (record { 0 = 5 })) ≡ codes "leave 5" }
    ensures join { event_text (events.Join (record { 0 = 6 })) ≡ codes "join 6" }
    ensures reweight { event_text (events.Reweight (record { 0 = 7 })) ≡ codes "reweight 7" }
    ensures back { event_text (events.Back (record { 0 = 8 })) ≡ codes "back 8" }
    ensures phase { event_text events.Phase ≡ codes "phase" }
{}

/// What is no event's text, and what is.
pub fn lines_read()
    ensures plain { event_in (codes "deliver 3.17") ≡ Some (events.Deliver (record { 0 = 3 }) 17) }
    ensures leading_zero { event_in (codes "guest 01") ≡ None }
    ensures further_space { event_in (codes "guest  1") ≡ None }
    ensures further_word { event_in (codes "phase 1") ≡ None }
    ensures carriage_return { event_in (codes "phase\r") ≡ None }
    ensures no_number { event_in (codes "guest") ≡ None }
    ensures too_great { event_in (codes "guest 4294967296") ≡ None }
    ensures other_word { event_in (codes "deliver 3") ≡ None }
    ensures nothing { event_in [] ≡ None }
    // The first line that is exactly `trace` ends the script; an empty line is a line, but for what follows the last LF.
    ensures script { script_lines (codes "cluster 1\n trace\ntrace\nguest 1\n\nphase\n") ≡ codes "cluster 1" ∷ codes " trace" ∷ [] }
    ensures trace { trace_lines (codes "cluster 1\n trace\ntrace\nguest 1\n\nphase\n") ≡ codes "guest 1" ∷ [] ∷ codes "phase" ∷ [] }
    ensures no_trace { trace_lines (codes "cluster 1\n") ≡ [] }
    ensures script_part { script_part (codes "cluster 1\n trace\ntrace\nguest 1\n\nphase\n") ≡ codes "cluster 1\n trace" }
    ensures trace_part { trace_part (codes "cluster 1\n trace\ntrace\nguest 1\n\nphase\n") ≡ codes "guest 1\n\nphase\n" }
{}
