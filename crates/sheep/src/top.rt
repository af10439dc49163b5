//! The top call.

ghost use Rattle.std.specs.Prelude.{◌≡◌, ◌⊎◌, ℕ, ◌+◌, ◌<◌, ◌≤◌, List, length, take, true, false, Some};
ghost use Rattle.object_id.specs.declared.limits.TheConstants.{INPUT_BYTES_MAX};
ghost use Rattle.sheep_base.specs.Fault.{Rose};
ghost use Rattle.sheep_base.specs.Sink.{Gains};
ghost use Rattle.sheep.specs.declared.answer.Answer.{Answer as Ended};
ghost use Rattle.sheep_words.specs.declared.mode.Mode.TheVariants as modes;
ghost use Rattle.sheep_words.specs.Mode.{mode_asked_for};
ghost use Rattle.sheep.specs.Reading.{TakesAtMost, ReadsTooMuch};
ghost use Rattle.sheep.specs.Answer.{AnswersCall, bad_words_text, too_long_text};
ghost use Rattle.sheep.specs.Outcome.{reads_input, takes_words, IsDone, IsBadScript, NamesBadEvent, CanBeDone};

use crate::answer::{Answer, Stop, answer_call};
use crate::status::Status;
use sheep_base::{Sink, Source, put_all};
use std::alloc::Global;

/// Runs the program: the words say what to do, the source has the input, and the text goes to the sink.
///
/// Nothing is written before the whole text stands in memory. Want of memory is the one free answer.
pub fn sheep<S: Source, K: Sink>(
    alloc: Global,
    words: &[String],
    source: &mut S,
    sink: &mut K,
) -> Status
    // The sink was given the report of a whole run: of the one that the seed gives, or that the trace spells; or the line of the script
    // that the number generates. The replies of that run are one legal history: each block read from a disk, snapshot or clone is its last
    // acknowledged write or a later unacknowledged one, and refused requests change nothing, peer requests of another epoch among them,
    // while every epoch since the last finished recovery keeps enough live holders and no gateway dies within a coded write. What a
    // refused request leaves unchanged is each block, what nodes keep, as no message of it to create or write succeeded or was lost, and
    // each disk: a refused command publishes, replaces and deletes none.
    ensures done { result ≡ Status.Done
        → IsDone (Gains K.stops (K.given sink.old) (K.given sink.new)) (S.left source.old) (S.left source.new) (mode_asked_for words.now) }

    ensures bad_words { result ≡ Status.BadWords → (takes_words (mode_asked_for words.now) ≡ false)
        × Gains K.stops (K.given sink.old) (K.given sink.new) bad_words_text }
    ensures bad_script { result ≡ Status.BadScript
        → IsBadScript (Gains K.stops (K.given sink.old) (K.given sink.new)) (S.left source.old) (S.left source.new)
        (mode_asked_for words.now) }
    ensures bad_trace { result ≡ Status.BadTrace → (mode_asked_for words.now ≡ Some modes.Replay)
        × NamesBadEvent (Gains K.stops (K.given sink.old) (K.given sink.new)) (S.left source.old) (S.left source.new) }
    ensures too_long { result ≡ Status.TooLong → (reads_input (mode_asked_for words.now) ≡ true)
        × ReadsTooMuch (S.left source.old) (S.left source.new)
        × Gains K.stops (K.given sink.old) (K.given sink.new) too_long_text }

    ensures read_fault { result ≡ Status.ReadFault → (reads_input (mode_asked_for words.now) ≡ true)
        × Rose (S.faults source.old) (S.faults source.new) × (sink.new ≡ sink.old) }
    // The sink was given a part of what the answer is without this fault.
    ensures write_fault { result ≡ Status.WriteFault → Rose (K.faults sink.old) (K.faults sink.new)
        × ((answer : Ended) × (n : ℕ) × AnswersCall (mode_asked_for words.now) (S.left source.old) (S.left source.new) answer
        × (n < length answer.text) × Gains K.stops (K.given sink.old) (K.given sink.new) (take n answer.text)) }
    // Nor did the source fail.
    ensures no_memory { result ≡ Status.NoMemory → (sink.new ≡ sink.old) × (S.faults source.new ≡ S.faults source.old) }

    // At every status, nothing is read for words that ask for no input, no more than tells an input that is too long, and no count of
    // faults falls.
    ensures untouched { reads_input (mode_asked_for words.now) ≡ false → source.new ≡ source.old }
    ensures takes { TakesAtMost (INPUT_BYTES_MAX + 1) (S.left source.old) (S.left source.new) }
    ensures source_count { S.faults source.old ≤ S.faults source.new }
    ensures sink_count { K.faults sink.old ≤ K.faults sink.new }

    // What can be done is done, unless memory runs out or a count rises.
    ensures complete { CanBeDone (mode_asked_for words.now) (S.left source.old)
        → ¬ Rose (S.faults source.old) (S.faults source.new) → ¬ Rose (K.faults sink.old) (K.faults sink.new)
        → (result ≡ Status.Done) ⊎ (result ≡ Status.NoMemory) }
{
    let Answer { status, text } = match answer_call(alloc, words, source) {
        Ok(answer) => answer,
        Err(Stop::ReadFault) => return Status::ReadFault,
        Err(Stop::NoMemory) => return Status::NoMemory,
    };
    match put_all(sink, text.as_slice()) {
        Ok(()) => status,
        Err(_fault) => Status::WriteFault,
    }
}
