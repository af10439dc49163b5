ghost use Rattle.std.specs.Prelude.{◌≡◌, ℕ, ◌<◌, ◌≤◌, List, [], length, take, IfOk, IfErr, IfSome, OnOk, OnErr, IsErrOf};
ghost use Rattle.std.specs.Io.KnownBytes.{Consumes, IsAtEnd};
ghost use Rattle.sheep_base.specs.Fault.{Rose};
ghost use Rattle.sheep_base.specs.Sink.{Gains};
ghost use Rattle.sheep_base.specs.Source.{LosesBytes, StopsAfter};

use crate::fault::Fault;
use crate::sink::Sink;
use crate::source::Source;
use object_id::{Bytes, NoMemory};
use std::alloc::{AllocError, Global};

/// Bytes that one turn of a reading asks for at most.
const CHUNK_BYTES: usize = 4096;

/// Why a reading to the end of input stopped before it.
#[derive(Clone, Copy, Debug, PartialEq, Eq)]
pub enum ReadStop {
    Failed,
    TooLong,
    NoMemory,
}

impl From<Fault> for ReadStop {
    ghost use Rattle.sheep_base.specs.declared.transfer.ReadStop.TheVariants as stops;

    ghost from_gives = { λ _ e. e ≡ stops.Failed };

    fn from(_fault: Fault) -> ReadStop {
        ReadStop::Failed
    }
}

impl From<AllocError> for ReadStop {
    ghost use Rattle.sheep_base.specs.declared.transfer.ReadStop.TheVariants as stops;

    ghost from_gives = { λ _ e. e ≡ stops.NoMemory };

    fn from(_error: AllocError) -> ReadStop {
        ReadStop::NoMemory
    }
}

/// Reads to the end of input, which may have at most `limit` bytes.
pub fn read_all<S: Source>(alloc: Global, source: &mut S, limit: usize) -> Result<Bytes, ReadStop>
    // At `Ok` the text is all that was left.
    ensures text { IfOk result (λ text. Consumes (S.left source.old) (S.left source.new) text) }
    ensures whole { IfOk result (λ text. IfSome (S.left source.old) (λ xs. text ≡ xs)) }
    ensures end { OnOk result (IsAtEnd (S.left source.new)) }
    ensures within { IfOk result (λ text. length text ≤ limit) }

    // More than the limit is taken exactly at `TooLong`, and then one byte more.
    ensures stopped { IfErr result (λ stop. (n : ℕ) × LosesBytes (S.left source.old) (S.left source.new) n × StopsAfter limit stop n) }
    ensures too_long { IsErrOf result ReadStop.TooLong → IfSome (S.left source.old) (λ xs. limit < length xs) }

    // It doesn't fail by itself.
    ensures failed { IsErrOf result ReadStop.Failed → Rose (S.faults source.old) (S.faults source.new) }
    ensures count { S.faults source.old ≤ S.faults source.new }
    // At every other end there was no fault: want of memory isn't told in the place of one.
    ensures calm { OnOk result (S.faults source.new ≡ S.faults source.old) }
    ensures calm_long { IsErrOf result ReadStop.TooLong → S.faults source.new ≡ S.faults source.old }
    ensures calm_memory { IsErrOf result ReadStop.NoMemory → S.faults source.new ≡ S.faults source.old }
{
    let mut text = Vec::new(alloc);
    let mut chunk = [0u8; CHUNK_BYTES];
    loop {
        // One byte past the limit is asked for: it tells an input that just fits from a longer one.
        let wanted = (limit - text.len()).min(CHUNK_BYTES - 1) + 1;
        let taken = source.take(&mut chunk[..wanted])?;
        if taken == 0 {
            return Ok(Bytes::from_vec(text));
        }
        if taken > limit - text.len() {
            return Err(ReadStop::TooLong);
        }
        text.extend_from_slice(&chunk[..taken])?;
    }
}

/// Gives the whole text.
pub fn put_all<K: Sink>(sink: &mut K, text: &[u8]) -> Result<(), Fault>
    ensures whole { OnOk result (Gains K.stops (K.given sink.old) (K.given sink.new) text.now) }

    // At a fault the front of the text was given, and never all of it.
    ensures part { OnErr result ((n : ℕ) × (n < length text.now) × Gains K.stops (K.given sink.old) (K.given sink.new) (take n text.now)) }

    // It doesn't fail by itself.
    ensures fault { OnErr result (Rose (K.faults sink.old) (K.faults sink.new)) }
    ensures count { K.faults sink.old ≤ K.faults sink.new }

    // The empty text makes no call.
    ensures untouched { text.now ≡ [] → sink.new ≡ sink.old }
{
    let mut at = 0;
    while at < text.len() {
        at += sink.put(&text[at..])?;
    }
    Ok(())
}
