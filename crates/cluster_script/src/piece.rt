ghost use Rattle.std.specs.Prelude.{IfOk};
ghost use Rattle.object_id.specs.Span.{IsSpan};
ghost use Rattle.cluster_script.specs.declared.statement.Pattern.TheVariants as patterns;
ghost use Rattle.cluster_script.specs.ReadResults.{GivesLine};
ghost use Rattle.cluster_script.specs.Words.{words_of};
ghost use Rattle.cluster_script.specs.Requests.{span_at, pattern_byte_at, named_pattern_at, pattern_at};

use crate::fault::LineCause;
use crate::number::{blocks, number};
use crate::statement::Pattern;
use crate::words::{is_word, word};
use object_id::{BLOCK_BYTES, LENGTH_MAX};

/// `OFFSET LENGTH`, in bytes and whole blocks, and what follows.
#[tactic(auto, unfolding(crate::specs::Requests::span_at))]
pub fn span(line: &[u8]) -> Result<(u64, u32, &[u8]), LineCause>
    ensures span { GivesLine (λ x. (x.0, x.1, words_of x.2.now)) result (span_at (words_of line.now)) }
    ensures is_span { IfOk result (λ x. IsSpan x.0 x.1) }
{
    let (offset, rest) = blocks(0, u64::MAX, line)?;
    let (length, rest) = blocks(u64::from(BLOCK_BYTES), LENGTH_MAX, rest)?;
    Ok((offset, length as u32, rest))
}

/// `fill BYTE` or `step BYTE`, and what follows.
#[tactic(auto, unfolding(crate::specs::Requests::pattern_at))]
pub fn pattern(line: &[u8]) -> Result<(Pattern, &[u8]), LineCause>
    ensures { GivesLine (λ x. (x.0, words_of x.1.now)) result (pattern_at (words_of line.now)) }
{
    let (name, rest) = word(line)?;
    named_pattern(name, rest)
}

/// The pattern of a name, and what follows its byte.
#[tactic(auto, unfolding(crate::specs::Requests::named_pattern_at))]
fn named_pattern<'a>(name: &[u8], line: &'a [u8]) -> Result<(Pattern, &'a [u8]), LineCause>
    ensures { GivesLine (λ x. (x.0, words_of x.1.now)) result (named_pattern_at name.now (words_of line.now)) }
{
    if is_word(name, b"fill") {
        return fill(line);
    }
    if is_word(name, b"step") {
        return step(line);
    }
    Err(LineCause::Word)
}

/// Every byte is this one.
#[tactic(auto, unfolding(crate::specs::Requests::pattern_byte_at))]
fn fill(line: &[u8]) -> Result<(Pattern, &[u8]), LineCause>
    ensures { GivesLine (λ x. (x.0, words_of x.1.now)) result (pattern_byte_at (λ byte. patterns.Fill byte) (words_of line.now)) }
{
    let (byte, rest) = number(0, 255, line)?;
    Ok((Pattern::Fill(byte as u8), rest))
}

/// Every byte of the first block is this one.
#[tactic(auto, unfolding(crate::specs::Requests::pattern_byte_at))]
fn step(line: &[u8]) -> Result<(Pattern, &[u8]), LineCause>
    ensures { GivesLine (λ x. (x.0, words_of x.1.now)) result (pattern_byte_at (λ byte. patterns.Step byte) (words_of line.now)) }
{
    let (byte, rest) = number(0, 255, line)?;
    Ok((Pattern::Step(byte as u8), rest))
}
