//! How bytes are told: a word for each run of equal bytes.

ghost use Rattle.std.specs.Prelude.{◌≡◌, ◌≢◌, ◌+◌, ◌<◌, ◌≤◌, [], ◌∷◌, ◌++◌, length, replicate, slice_index, take, OnOk};
ghost use Rattle.dog_report.specs.Words.{following_words};
ghost use Rattle.dog_report.specs.RunWords.{run_word, runs_words};

use crate::words::{BYTE_DIGITS, push_decimal, push_hex_word};
use object_id::NoMemory;

/// Adds a run as ` HH*COUNT`.
fn push_run(text: &mut Vec<u8>, byte: u8, count: u64) -> Result<(), NoMemory>
    ensures { OnOk result (text.new.items ≡ text.old.items ++ following_words (run_word (byte, count) ∷ [])) }
{
    push_hex_word(text, BYTE_DIGITS, u64::from(byte))?;
    text.extend_from_slice(b"*")?;
    push_decimal(text, count)
}

/// How many bytes at the front are this one.
fn run_length(byte: u8, bytes: &[u8]) -> usize
    ensures within { result ≤ length bytes.now }
    ensures equal { take result bytes.now ≡ replicate result byte }
    ensures maximal { result < length bytes.now → slice_index bytes.now result ≢ byte }
{
    let mut count = 0;
    while count < bytes.len() && bytes[count] == byte {
        count += 1;
    }
    count
}

/// Cuts off the bytes at the front that are this one: how many, and what is behind them.
fn cut_run(byte: u8, bytes: &[u8]) -> (usize, &[u8])
    ensures whole { bytes.now ≡ replicate result.0 byte ++ result.1.now }
    ensures maximal { 0 < length result.1.now → slice_index result.1.now 0 ≢ byte }
    ensures shorter { result.0 + length result.1.now ≡ length bytes.now }
{
    let count = run_length(byte, bytes);
    (count, bytes.split_at(count).1)
}

/// Adds the maximal runs of equal bytes, in order, behind another word. Costs one pass over the bytes.
pub fn push_runs(text: &mut Vec<u8>, bytes: &[u8]) -> Result<(), NoMemory>
    ensures { OnOk result (text.new.items ≡ text.old.items ++ following_words (runs_words bytes.now)) }
{
    let mut rest = bytes;
    while let Some((first, others)) = rest.split_first() {
        let (count, behind) = cut_run(*first, others);
        push_run(text, *first, count as u64 + 1)?;
        rest = behind;
    }
    Ok(())
}
