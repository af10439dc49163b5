ghost use Rattle.std.specs.Prelude.{◌≡◌, ◌≤◌, ◌^◌, ◌%◌, true, nat_lt, Some, None, if◌then◌else◌, IfOk};
ghost use Rattle.std.specs.List.{list_all};
ghost use Rattle.std.specs.Char.{is_ascii_digit};
ghost use Rattle.cluster_script.specs.ReadResults.{GivesLine};
ghost use Rattle.cluster_script.specs.Words.{words_of};
ghost use Rattle.cluster_script.specs.Numbers.{is_digits, digits_value, scaled_number as scaled_of, number_of, size_of_word};
ghost use Rattle.cluster_script.specs.Numbers.{number_in_range, aligned_number, plain_number_at, blocks_at};

use crate::fault::LineCause;
use crate::words::word;
use object_id::BLOCK_BYTES;

/// Whether a word is digits alone.
pub fn is_decimal(word: &[u8]) -> bool
    ensures { result ≡ is_digits word.now }
{
    if word.is_empty() {
        return false;
    }
    is_ascii_digits(word)
}

fn is_ascii_digits(word: &[u8]) -> bool
    ensures { result ≡ list_all is_ascii_digit word.now }
{
    word.iter().all(|byte| byte.is_ascii_digit())
}

/// The number that digits are, where it is below 2^64.
fn decimal(digits: &[u8]) -> Option<u64>
    requires { is_digits digits.now ≡ true }
    ensures { result ≡ (if nat_lt (digits_value digits.now) (2 ^ 64) then Some (digits_value digits.now) else None) }
{
    let mut value = 0u64;
    for digit in digits {
        value = value.checked_mul(10)?.checked_add((*digit - b'0') as u64)?;
    }
    Some(value)
}

/// So many times the number that a word is.
#[tactic(auto, unfolding(crate::specs::Numbers::scaled_number))]
fn scaled(scale: u64, word: &[u8]) -> Result<u64, LineCause>
    requires { 1 ≤ scale }
    ensures { result ≡ scaled_of scale word.now }
{
    if !is_decimal(word) {
        return Err(LineCause::Number);
    }
    let Some(number) = decimal(word) else {
        return Err(LineCause::Number);
    };
    match number.checked_mul(scale) {
        Some(product) => Ok(product),
        None => Err(LineCause::Number),
    }
}

/// The number that a word is.
pub fn number_in(word: &[u8]) -> Result<u64, LineCause>
    ensures { result ≡ number_of word.now }
{
    scaled(1, word)
}

/// The size in bytes that a word is, with its suffix.
#[tactic(auto, unfolding(crate::specs::Numbers::size_of_word))]
fn size_in(word: &[u8]) -> Result<u64, LineCause>
    ensures { result ≡ size_of_word word.now }
{
    match word.split_last() {
        Some((b'K', digits)) => scaled(1 << 10, digits),
        Some((b'M', digits)) => scaled(1 << 20, digits),
        Some((b'G', digits)) => scaled(1 << 30, digits),
        _ => number_in(word),
    }
}

/// The number, where it is from `low` to `high`.
pub fn within_limits(low: u64, high: u64, number: u64) -> Result<u64, LineCause>
    ensures range { result ≡ number_in_range low high number }
    ensures limits { IfOk result (λ n. (low ≤ n) × (n ≤ high)) }
{
    if low <= number && number <= high {
        Ok(number)
    } else {
        Err(LineCause::Range)
    }
}

/// The number, where it is one of whole blocks.
fn in_blocks(number: u64) -> Result<u64, LineCause>
    ensures whole { result ≡ aligned_number number }
    ensures same { IfOk result (λ n. n ≡ number) }
{
    if number % u64::from(BLOCK_BYTES) == 0 {
        Ok(number)
    } else {
        Err(LineCause::Unaligned)
    }
}

/// A plain number from `low` to `high`, and what follows it.
#[tactic(auto, unfolding(crate::specs::Numbers::plain_number_at))]
pub fn number(low: u64, high: u64, line: &[u8]) -> Result<(u64, &[u8]), LineCause>
    ensures number { GivesLine (λ x. (x.0, words_of x.1.now)) result (plain_number_at low high (words_of line.now)) }
    ensures limits { IfOk result (λ x. (low ≤ x.0) × (x.0 ≤ high)) }
{
    let (found, rest) = word(line)?;
    let number = number_in(found)?;
    let within = within_limits(low, high, number)?;
    Ok((within, rest))
}

/// A size in whole blocks from `low` to `high` bytes, and what follows it.
#[tactic(auto, unfolding(crate::specs::Numbers::blocks_at))]
pub fn blocks(low: u64, high: u64, line: &[u8]) -> Result<(u64, &[u8]), LineCause>
    ensures number { GivesLine (λ x. (x.0, words_of x.1.now)) result (blocks_at low high (words_of line.now)) }
    ensures limits { IfOk result (λ x. (low ≤ x.0) × (x.0 ≤ high)) }
    ensures whole { IfOk result (λ x. x.0 % BLOCK_BYTES ≡ 0) }
{
    let (found, rest) = word(line)?;
    let number = size_in(found)?;
    let within = within_limits(low, high, number)?;
    let whole = in_blocks(within)?;
    Ok((whole, rest))
}
