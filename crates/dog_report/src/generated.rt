//! The line of the script that a number generates.

ghost use Rattle.std.specs.Prelude.{◌≡◌, ◌+◌, [], ◌∷◌, ◌++◌, List, codes, decimal, IfOk, IfSome, OnOk};
ghost use Rattle.dog_report.specs.Words.{spaced_words, following_words};
ghost use Rattle.dog_report.specs.Fates.{ReportLine};
ghost use Rattle.dog_report.specs.Report.{report_text};
ghost use Rattle.dog_report.specs.ToldPart.{counts_of};
ghost use Rattle.dog_report.specs.Counts.{generated_words};

use crate::counts::Counts;
use crate::reporter::FinishedReport;
use crate::words::{
    HASH_DIGITS, end_line, push_decimal_word, push_hex_word, push_named, push_word,
};
use object_id::{Bytes, NoMemory, fnv1a};
use std::alloc::Global;

/// How many requests are told of; none where that is no number of 64 bits.
fn sum_of(counts: Counts) -> Option<u64>
    ensures { IfSome result (λ sum. sum ≡ counts.ok + counts.refused + counts.gone + counts.pending + counts.unsent) }
{
    counts
        .ok
        .checked_add(counts.refused)?
        .checked_add(counts.gone)?
        .checked_add(counts.pending)?
        .checked_add(counts.unsent)
}

/// Adds the counts of requests, each behind what it is called.
fn push_ways(text: &mut Vec<u8>, counts: Counts) -> Result<(), NoMemory>
    ensures { OnOk result (text.new.items ≡ text.old.items ++ following_words (codes "ok" ∷ decimal counts.ok
        ∷ codes "refused" ∷ decimal counts.refused ∷ codes "gone" ∷ decimal counts.gone
        ∷ codes "pending" ∷ decimal counts.pending ∷ codes "unsent" ∷ decimal counts.unsent ∷ [])) }
{
    push_named(text, b"ok", counts.ok)?;
    push_named(text, b"refused", counts.refused)?;
    push_named(text, b"gone", counts.gone)?;
    push_named(text, b"pending", counts.pending)?;
    push_named(text, b"unsent", counts.unsent)
}

/// The line of the script that a number generates: how many requests its report tells of, in each way, and the report's hash.
pub fn generated_line(
    alloc: Global,
    number: u64,
    report: &FinishedReport,
) -> Result<Bytes, NoMemory>
    ensures { (lines : List ReportLine) → report.now.text ≡ report_text lines → report.now.counts ≡ counts_of lines
        → IfOk result (λ text. text ≡ spaced_words (generated_words number lines) ++ codes "\n") }
{
    // A count that doesn't fit is told as want of memory: a script hasn't so many requests.
    let Some(requests) = sum_of(report.counts) else {
        return Err(NoMemory);
    };
    let mut text = Vec::from_slice(alloc, b"gen")?;
    push_decimal_word(&mut text, number)?;
    push_named(&mut text, b"requests", requests)?;
    push_ways(&mut text, report.counts)?;
    push_word(&mut text, b"hash")?;
    push_hex_word(&mut text, HASH_DIGITS, fnv1a(report.text.as_slice()))?;
    end_line(&mut text)?;
    Ok(Bytes::from_vec(text))
}
