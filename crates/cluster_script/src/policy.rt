ghost use Rattle.std.specs.Prelude.{◌≡◌, codes};
ghost use Rattle.std.specs.List.{list_any};
ghost use Rattle.object_id.specs.Policy.{is_width as is_number_of_data_strips};
ghost use Rattle.object_id.specs.declared.policy.Policy.TheVariants as policies;
ghost use Rattle.cluster_script.specs.ReadResults.{GivesLine};
ghost use Rattle.cluster_script.specs.Words.{words_of, option_at};
ghost use Rattle.cluster_script.specs.Requests.{policy_of_copies, policy_of_strips, is_colon, strips_in, copies_in, policy_of_word};
ghost use Rattle.cluster_script.specs.Requests.{policy_option_at};

use crate::fault::LineCause;
use crate::number::number_in;
use crate::words::{cut, is_next, keyword, word};
use object_id::{COPIES_MAX, PARITY_MAX, Policy};

/// How many whole copies a new disk has where its line doesn't say.
const COPIES_DEFAULT: u8 = 3;

/// `-c POLICY` where it stands, else the default; and what follows.
pub fn policy_option(line: &[u8]) -> Result<(Policy, &[u8]), LineCause>
    ensures { GivesLine (λ x. (x.0, words_of x.1.now)) result
        (option_at (codes "-c") policy_option_at (policies.Copies 3) (words_of line.now)) }
{
    if !is_next(b"-c", line) {
        return Ok((Policy::Copies(COPIES_DEFAULT), line));
    }
    let rest = keyword(b"-c", line)?;
    policy(rest)
}

/// A policy, and what follows it.
#[tactic(auto, unfolding(crate::specs::Requests::policy_option_at))]
fn policy(line: &[u8]) -> Result<(Policy, &[u8]), LineCause>
    ensures { GivesLine (λ x. (x.0, words_of x.1.now)) result (policy_option_at (words_of line.now)) }
{
    let (found, rest) = word(line)?;
    let policy = policy_in(found)?;
    Ok((policy, rest))
}

/// The policy that a word is: `D:P`, or a number of copies.
fn policy_in(word: &[u8]) -> Result<Policy, LineCause>
    ensures { result ≡ policy_of_word word.now }
{
    if has_colon(word) {
        return strips(word);
    }
    copies(word)
}

fn has_colon(word: &[u8]) -> bool
    ensures { result ≡ list_any is_colon word.now }
{
    word.iter().any(|&byte| byte == b':')
}

/// `D:P`: d data strips and p parity strips.
#[tactic(auto, unfolding(crate::specs::Requests::strips_in))]
fn strips(word: &[u8]) -> Result<Policy, LineCause>
    ensures { result ≡ strips_in word.now }
{
    let (before, after) = cut(word, b':');
    let d = number_in(before)?;
    let p = number_in(after)?;
    coded(d, p)
}

/// The policy of so many strips.
fn coded(d: u64, p: u64) -> Result<Policy, LineCause>
    ensures { result ≡ policy_of_strips d p }
{
    if !is_width(d) || p < 1 || p > u64::from(PARITY_MAX) {
        return Err(LineCause::Range);
    }
    Ok(Policy::Coded {
        d: d as u8,
        p: p as u8,
    })
}

/// Whether there may be so many data strips.
fn is_width(d: u64) -> bool
    ensures { result ≡ is_number_of_data_strips d }
{
    d == 2 || d == 4 || d == 8 || d == 16
}

/// A number of whole copies.
#[tactic(auto, unfolding(crate::specs::Requests::copies_in))]
fn copies(word: &[u8]) -> Result<Policy, LineCause>
    ensures { result ≡ copies_in word.now }
{
    let copies = number_in(word)?;
    whole(copies)
}

/// The policy of so many whole copies.
fn whole(copies: u64) -> Result<Policy, LineCause>
    ensures { result ≡ policy_of_copies copies }
{
    if copies < 1 || copies > u64::from(COPIES_MAX) {
        return Err(LineCause::Range);
    }
    Ok(Policy::Copies(copies as u8))
}
