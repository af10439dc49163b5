//! The mode that is found in what `clap` reads.

ghost use Rattle.std.specs.Prelude.{◌≡◌, false, codes};
ghost use Rattle.std.specs.Option.{option_map, option_map_or, option_and_then};
ghost use Rattle.std.specs.Str.{bytes_eq};
ghost use Rattle.clap.specs.Words.{first_of, found_of, rows_of, subcommand_rows_of};
ghost use Rattle.sheep_words.specs.Mode.{number_meant};
ghost use Rattle.sheep_words.specs.Found.{seed_found, mode_at, mode_found};

use crate::meaning::{number_in, run_with};
use crate::mode::Mode;
use clap::ArgMatches;

/// The text that an option has. A flag has one too.
fn text_of<'a>(matches: &ArgMatches<'a>, id: &str) -> Option<&'a str>
    ensures { option_map (λ text. text.now) result ≡ first_of id.now (rows_of (found_of matches.now)) }
{
    matches.get_str(id)
}

/// Whether a flag with this text was met.
fn is_met(text: Option<&str>) -> bool
    ensures { result ≡ option_map_or (λ text. bytes_eq text.now (codes "true")) text.entry false }
{
    match text {
        Some(text) => text == "true",
        None => false,
    }
}

/// The seed in this text; 0 without one.
fn seed_found(text: Option<&str>) -> Option<u64>
    ensures { result ≡ seed_found (option_map (λ text. text.now) text.entry) }
{
    match text {
        Some(text) => number_in(text),
        None => Some(0),
    }
}

/// The mode of `gen` with the number in this text.
fn gen_found(text: Option<&str>) -> Option<Mode>
    ensures { result ≡ option_map Mode.Gen (option_and_then number_meant (option_map (λ text. text.now) text.entry)) }
{
    match text {
        Some(text) => match number_in(text) {
            Some(number) => Some(Mode::Gen { number }),
            None => None,
        },
        None => None,
    }
}

/// The mode of a subcommand that was met.
fn mode_at(name: &str, options: &ArgMatches<'_>) -> Option<Mode>
    ensures { result ≡ mode_at name.now (rows_of (found_of options.now)) }
{
    match name {
        "run" => run_with(
            seed_found(text_of(options, "seed")),
            is_met(text_of(options, "trace")),
        ),
        "replay" => Some(Mode::Replay),
        "gen" => gen_found(text_of(options, "number")),
        "live" => Some(Mode::Live {
            trace: is_met(text_of(options, "trace")),
        }),
        _ => None,
    }
}

/// The mode of what was met on the command line.
pub fn mode_found(matches: &ArgMatches<'_>) -> Option<Mode>
    ensures { result ≡ mode_found (subcommand_rows_of matches.now) }
{
    match matches.subcommand() {
        Some((name, options)) => mode_at(name, options),
        None => None,
    }
}
