//! Which lists of words are accepted, and what each means.

ghost use Rattle.std.specs.Prelude.{◌≡◌, ◌∷◌, [], bytes_eq, map};
ghost use Rattle.std.specs.Char.{is_ascii_digit};
ghost use Rattle.std.specs.List.{list_all};
ghost use Rattle.std.specs.String.{string_bytes};
ghost use Rattle.sheep_words.specs.Mode.{mode_asked_for, run_meant, gen_meant, live_meant, number_meant, seed_meant, run_with};

use crate::mode::Mode;

/// A number has so many digits at most.
const DIGITS_MAX: usize = 20;

/// Whether a word is just this text.
fn is_word(word: &str, text: &str) -> bool
    ensures { result ≡ bytes_eq word.now text.now }
{
    word == text
}

/// Whether a text has decimal digits alone.
fn has_only_digits(text: &str) -> bool
    ensures { result ≡ list_all is_ascii_digit text.now }
{
    text.as_bytes().iter().all(u8::is_ascii_digit)
}

/// The number that 1 to 20 decimal digits spell, if it is below 2^64.
pub fn number_in(text: &str) -> Option<u64>
    ensures { result ≡ number_meant text.now }
{
    if text.is_empty() || DIGITS_MAX < text.len() || !has_only_digits(text) {
        return None;
    }
    text.parse::<u64>().ok()
}

/// The seed in a word that has it.
fn seed_in(word: &str) -> Option<u64>
    ensures { result ≡ seed_meant word.now }
{
    match word.strip_prefix("--seed=") {
        Some(seed) => number_in(seed),
        None => None,
    }
}

/// `run` with a seed, if that is one.
pub fn run_with(seed: Option<u64>, trace: bool) -> Option<Mode>
    ensures { result ≡ run_with seed trace }
{
    match seed {
        Some(seed) => Some(Mode::Run { seed, trace }),
        None => None,
    }
}

/// What `run` means with one word behind it.
fn run_with_one(word: &str) -> Option<Mode>
    ensures { result ≡ run_meant (word.now ∷ []) }
{
    if is_word(word, "--trace") {
        run_with(Some(0), true)
    } else {
        run_with(seed_in(word), false)
    }
}

/// What `run` means with two words behind it.
fn run_with_two(word: &str, next: &str) -> Option<Mode>
    ensures { result ≡ run_meant (word.now ∷ next.now ∷ []) }
{
    if is_word(word, "--trace") {
        run_with(seed_in(next), true)
    } else if is_word(next, "--trace") {
        run_with(seed_in(word), true)
    } else if is_word(word, "--seed") {
        run_with(number_in(next), false)
    } else {
        None
    }
}

/// What `run` means with three words behind it.
fn run_with_three(word: &str, next: &str, last: &str) -> Option<Mode>
    ensures { result ≡ run_meant (word.now ∷ next.now ∷ last.now ∷ []) }
{
    if is_word(word, "--trace") && is_word(next, "--seed") {
        run_with(number_in(last), true)
    } else if is_word(word, "--seed") && is_word(last, "--trace") {
        run_with(number_in(next), true)
    } else {
        None
    }
}

/// What `run` means with these options: a seed in one word or two, and a trace, each once at most, in either order.
fn run_meant(options: &[String]) -> Option<Mode>
    ensures { result ≡ run_meant (map (λ word. string_bytes word) options.now) }
{
    match options {
        [] => run_with(Some(0), false),
        [word] => run_with_one(word),
        [word, next] => run_with_two(word, next),
        [word, next, last] => run_with_three(word, next, last),
        _ => None,
    }
}

/// What `gen` means with these options: its number.
fn gen_meant(options: &[String]) -> Option<Mode>
    ensures { result ≡ gen_meant (map (λ word. string_bytes word) options.now) }
{
    match options {
        [word] => match number_in(word) {
            Some(number) => Some(Mode::Gen { number }),
            None => None,
        },
        _ => None,
    }
}

/// What `live` means with these options: a trace, once at most.
fn live_meant(options: &[String]) -> Option<Mode>
    ensures { result ≡ live_meant (map (λ word. string_bytes word) options.now) }
{
    match options {
        [] => Some(Mode::Live { trace: false }),
        [word] if is_word(word, "--trace") => Some(Mode::Live { trace: true }),
        _ => None,
    }
}

/// What a list of words means.
pub fn mode_meant(words: &[String]) -> Option<Mode>
    ensures { result ≡ mode_asked_for words.now }
{
    let (verb, options) = words.split_first()?;
    match verb.as_str() {
        "run" => run_meant(options),
        "replay" if options.is_empty() => Some(Mode::Replay),
        "gen" => gen_meant(options),
        "live" => live_meant(options),
        _ => None,
    }
}
