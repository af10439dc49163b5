//! Laws of the definitions, for the proofs of the layers above: each is the contract of a function that does nothing.
ghost use Rattle.std.specs.Prelude.{◌≡◌, ◌↔◌, ℕ, ◌≤◌, ◌<◌, Some, slice_get, false, List, ◌∷◌, ◌++◌, length, flat_map, is_some, Ok, Err};
ghost use Rattle.std.specs.List.{range_with_len, AllPairs};
ghost use Rattle.std.specs.Option.{option_map};
ghost use Rattle.cluster_script.specs.declared.statement.Pattern.{Pattern};
ghost use Rattle.cluster_script.specs.declared.statement.Statement.{Statement as Line};
ghost use Rattle.cluster_script.specs.declared.statement.Statement.TheVariants as lines;
ghost use Rattle.cluster_script.specs.Statements.{is_request, requests_of, is_session_declared};
ghost use Rattle.cluster_script.specs.Nodes.{is_node_used};
ghost use Rattle.cluster_script.specs.Language.{MayStand, IsScript};
ghost use Rattle.cluster_script.specs.declared.fault.LineCause.{LineCause};
ghost use Rattle.cluster_script.specs.Words.{Word};
ghost use Rattle.cluster_script.specs.Script.{statement_at, script_in};
ghost use Rattle.cluster_script.specs.Spelling.{IsSpelled, IsScriptText, IsBadLine};
ghost use Rattle.cluster_script.specs.Writing.{text_for};
ghost use Rattle.cluster_script.specs.NumberedRequests.{session_of, payload_of, request_at, numbers_of_session};
ghost use Rattle.cluster_script.specs.Settings.{zone_of};
ghost use Rattle.cluster_script.specs.Index.{script_index, indexed_request, indexed_at, indexed_numbers};
ghost use Rattle.cluster_script.specs.Phases.{Phase, phases_of};
ghost use Rattle.cluster_script.specs.Sessions.{ScriptSession, sessions_of, session_numbered};

use object_id::{NODES_MAX, SESSIONS_MAX};

/// The requests of a script are what its sessions ask for, and a write has as many bytes as its length says.
pub fn what_is_asked()
    ensures session { (s : Line) → is_some (session_of s) ≡ is_request s }
    ensures payload { (pattern : Pattern) (count : ℕ) → length (payload_of pattern count) ≡ count }
{}

/// Each request is of one phase, and the phases have them in their order: phase after phase, their numbers are those from 1 on.
pub fn each_request_is_of_a_phase()
    ensures { (statements : List Line) → flat_map (λ (phase : Phase). phase.requests) (phases_of statements)
        ≡ range_with_len 1 (length (requests_of statements)) }
{}

/// A session of a number is there exactly where one is declared, and the sessions ascend by number.
pub fn each_session_is_declared()
    ensures declared { (statements : List Line) (number : ℕ) → is_some (session_numbered statements number)
        ≡ is_session_declared number statements }
    ensures order { (statements : List Line) → AllPairs (λ (a b : ScriptSession). a.number ≤ b.number) (sessions_of statements) }
{}

/// The index of a script has of each request, each session's requests and each node's zone what the statements say.
pub fn the_index_is_of_the_statements()
    ensures requests { (statements : List Line) (number : ℕ) → indexed_at (script_index statements) number
        ≡ option_map (λ s. indexed_request statements (number, s)) (request_at statements number) }
    ensures numbers { (statements : List Line) (session : ℕ) → 1 ≤ session → session ≤ SESSIONS_MAX
        → indexed_numbers (script_index statements) session ≡ numbers_of_session statements session }
    ensures zones { (statements : List Line) (node : ℕ) → node < NODES_MAX
        → slice_get (script_index statements).zones node ≡ Some (zone_of statements node) }
{}

/// In a script each statement may stand after those before it: so the number of a join is new, and no session is declared twice.
pub fn each_statement_stands()
    ensures stands { (before rest : List Line) (s : Line) → IsScript (before ++ s ∷ rest) → MayStand before s }
    ensures joined { (before rest : List Line) (node : ℕ) → IsScript (before ++ lines.Join node ∷ rest) → is_node_used node before ≡ false }
    ensures sessions { (before rest : List Line) (session node : ℕ) → IsScript (before ++ lines.Session session node ∷ rest)
        → is_session_declared session before ≡ false }
{}

/// The words of a line are read as a statement where they spell it, and it may stand behind the statements before it.
pub fn a_line_reads_as_it_is_spelled()
    ensures spelled { (before : List Line) (first : Word) (rest : List Word) (s : Line) → statement_at before first rest ≡ Ok s
        → IsSpelled s (first ∷ rest) × MayStand before s }
    ensures read { (before : List Line) (first : Word) (rest : List Word) (s : Line) → IsScript before
        → IsSpelled s (first ∷ rest) → MayStand before s → statement_at before first rest ≡ Ok s }
{}

/// A text is read as the script that its lines say; where they say none, its first bad line is found.
pub fn a_text_reads_as_its_script()
    ensures script { (text : List ℕ) (statements : List Line) → script_in text ≡ Ok statements ↔ IsScript statements
        × IsScriptText text statements }
    ensures bad { (text : List ℕ) (number : ℕ) (cause : LineCause) → script_in text ≡ Err (number, cause) ↔ IsBadLine text number cause }
{}

/// Each script has a text, which is read as it.
pub fn every_script_can_be_written()
    ensures { (statements : List Line) → IsScript statements → script_in (text_for statements) ≡ Ok statements }
{}
