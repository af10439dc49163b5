//! The command line as `clap` knows it.

ghost use Rattle.std.specs.Prelude.{◌≡◌, false, IfOk};
ghost use Rattle.clap.specs.Words.{app_of, rule_of};
ghost use Rattle.clap.specs.declared.builder.command.Command.TheViews.{out-Command as fields_of};
ghost use Rattle.sheep_words.specs.Command.{trace_rule, plain_app, run_app, gen_app, live_app, sheep_app};

use clap::{Arg, ArgAction, Command};
use std::alloc::{AllocError, Global};

/// A flag `--trace`.
fn trace_flag<'a>(alloc: Global) -> Arg<'a>
    ensures rule { rule_of result ≡ trace_rule }
    ensures local { result.global ≡ false }
{
    Arg::new(alloc, "trace")
        .long("trace")
        .action(ArgAction::SetTrue)
}

/// A command without help.
fn plain_command<'a>(alloc: Global, name: &'a str) -> Command<'a>
    ensures app { app_of result ≡ plain_app name.now }
    ensures local { (fields_of result).has_globals ≡ false }
{
    Command::new(alloc, name).disable_help_flag(true)
}

/// `run`, with the seed as a text.
fn run_command<'a>(alloc: Global) -> Result<Command<'a>, AllocError>
    ensures { IfOk result (λ command. (app_of command ≡ run_app) × ((fields_of command).has_globals ≡ false)) }
{
    let seed = Arg::new(alloc, "seed").long("seed").action(ArgAction::Set);
    plain_command(alloc, "run")
        .arg(seed)?
        .arg(trace_flag(alloc))
}

/// `gen`, with the number as a text.
fn gen_command<'a>(alloc: Global) -> Result<Command<'a>, AllocError>
    ensures { IfOk result (λ command. (app_of command ≡ gen_app) × ((fields_of command).has_globals ≡ false)) }
{
    let number = Arg::new(alloc, "number")
        .required(true)
        .action(ArgAction::Set);
    plain_command(alloc, "gen").arg(number)
}

/// `live`.
fn live_command<'a>(alloc: Global) -> Result<Command<'a>, AllocError>
    ensures { IfOk result (λ command. (app_of command ≡ live_app) × ((fields_of command).has_globals ≡ false)) }
{
    plain_command(alloc, "live").arg(trace_flag(alloc))
}

/// The program's command: one level of subcommands, and no help.
pub fn command<'a>(alloc: Global) -> Result<Command<'a>, AllocError>
    ensures { IfOk result (λ command. app_of command ≡ sheep_app) }
{
    let run = run_command(alloc)?;
    let replay = plain_command(alloc, "replay");
    let generate = gen_command(alloc)?;
    let live = live_command(alloc)?;
    Command::new(alloc, "sheep")
        .no_binary_name(true)
        .disable_help_flag(true)
        .disable_help_subcommand(true)
        .subcommand(run)?
        .subcommand(replay)?
        .subcommand(generate)?
        .subcommand(live)
}
