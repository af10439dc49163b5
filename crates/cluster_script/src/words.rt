ghost use Rattle.std.specs.Prelude.{◌≡◌, ◌<◌, ◌==◌, ◌∷◌, [], length, nat_eq, bytes_eq, codes, position, MatchOption};
ghost use Rattle.std.specs.List.{before_first, after_first, list_all};
ghost use Rattle.cluster_script.specs.ReadResults.{GivesLine};
ghost use Rattle.cluster_script.specs.Words.{words_of, says_nothing, word_at, keyword_at, is_next_word, end_of_words, is_name_byte, is_printed_name};
ghost use Rattle.cluster_script.specs.Words.{name_word_at};

use crate::fault::LineCause;
use object_id::NAME_BYTES_MAX;

/// The bytes before the first separator, and those after it; all bytes and none where there is none.
pub fn cut(bytes: &[u8], separator: u8) -> (&[u8], &[u8])
    ensures before { result.0.now ≡ before_first (λ byte. byte == separator) bytes.now }
    ensures after { result.1.now ≡ after_first (λ byte. byte == separator) bytes.now }
    ensures shorter { 0 < length bytes.now → length result.1.now < length bytes.now }
{
    match place_of(bytes, separator) {
        Some(place) => (&bytes[..place], &bytes[place + 1..]),
        None => (bytes, &[]),
    }
}

fn place_of(bytes: &[u8], byte: u8) -> Option<usize>
    ensures { result ≡ position (λ found. found == byte) bytes.now }
{
    bytes.iter().position(|&found| found == byte)
}

/// The first word of the rest of a line, if it has one, and what follows it.
#[tactic(auto, using(crate::proofs::Pieces::first_word))]
pub fn next_word(line: &[u8]) -> Option<(&[u8], &[u8])>
    ensures { MatchOption result (words_of line.now ≡ []) (λ x. words_of line.now ≡ x.0.now ∷ words_of x.1.now) }
{
    let mut rest = line;
    while !rest.is_empty() {
        let (word, after) = cut(rest, b' ');
        if !word.is_empty() {
            return Some((word, after));
        }
        rest = after;
    }
    None
}

/// Whether a line has no words, or is a comment.
pub fn is_silent(line: &[u8]) -> bool
    ensures { result ≡ says_nothing (words_of line.now) }
{
    match next_word(line) {
        None => true,
        Some((first, _rest)) => first.starts_with(b"#"),
    }
}

/// The first word of the rest of a line, which must have one, and what follows it.
pub fn word(line: &[u8]) -> Result<(&[u8], &[u8]), LineCause>
    ensures { GivesLine (λ x. (x.0.now, words_of x.1.now)) result (word_at (words_of line.now)) }
{
    match next_word(line) {
        None => Err(LineCause::Word),
        Some(found) => Ok(found),
    }
}

/// Whether a word is this one.
pub fn is_word(word: &[u8], expected: &[u8]) -> bool
    ensures { result ≡ bytes_eq word.now expected.now }
{
    word == expected
}

/// Whether the next word is this one.
pub fn is_next(expected: &[u8], line: &[u8]) -> bool
    ensures { result ≡ is_next_word expected.now (words_of line.now) }
{
    match next_word(line) {
        None => false,
        Some((first, _rest)) => is_word(first, expected),
    }
}

/// What follows this very word.
#[tactic(auto, unfolding(crate::specs::Words::keyword_at))]
pub fn keyword<'a>(expected: &[u8], line: &'a [u8]) -> Result<&'a [u8], LineCause>
    ensures { GivesLine (λ x. words_of x.now) result (keyword_at expected.now (words_of line.now)) }
{
    let (found, rest) = word(line)?;
    if is_word(found, expected) {
        Ok(rest)
    } else {
        Err(LineCause::Word)
    }
}

/// A line ends here: it has no word left.
pub fn end(line: &[u8]) -> Result<(), LineCause>
    ensures { result ≡ end_of_words (words_of line.now) }
{
    match next_word(line) {
        None => Ok(()),
        Some(_found) => Err(LineCause::Word),
    }
}

/// Whether a word may be a disk's name: printed bytes without a blank, not like an option.
fn may_be_name(word: &[u8]) -> bool
    ensures { result ≡ is_printed_name word.now }
{
    if word.is_empty() || word.len() > NAME_BYTES_MAX || !is_printed(word) {
        return false;
    }
    !word.starts_with(b"-")
}

fn is_printed(word: &[u8]) -> bool
    ensures { result ≡ list_all is_name_byte word.now }
{
    word.iter().all(|&byte| 0x21 <= byte && byte <= 0x7e)
}

/// A disk's name, and what follows it.
#[tactic(auto, unfolding(crate::specs::Words::name_word_at))]
pub fn name(line: &[u8]) -> Result<(&[u8], &[u8]), LineCause>
    ensures { GivesLine (λ x. (x.0.now, words_of x.1.now)) result (name_word_at (words_of line.now)) }
{
    let (found, rest) = word(line)?;
    if may_be_name(found) {
        Ok((found, rest))
    } else {
        Err(LineCause::Word)
    }
}
