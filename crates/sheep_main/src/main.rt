//! The program `sheep`: the words of the command line and standard input go to the top call, or to the one on threads where the first word
//! is `live`; its text goes to standard output, and its status is the exit status. Nothing is written to standard error.
#![tactic(auto)]

ghost use Rattle.std.specs.Prelude.{◌≡◌, ◌↔◌, IsTrue};
ghost use Rattle.std.specs.declared.io.ErrorKind.TheVariants.{OutOfMemory};

use object_id::NoMemory;
use sheep::{FreeGate, Kept, Status, sheep, sheep_live};
use sheep_base::{HostSink, HostSource, Sink, Source};
use std::alloc::AllocGlobal;
use std::env;
use std::io::ErrorKind;
use std::process::ExitCode;
use std::rt::Env;
use std::sync::Wait;
use std::thread::Threads;

/// Whether a fault of this kind says that memory ran out; at any other no words are accepted.
fn is_want_of_memory(kind: ErrorKind) -> bool
    ensures { IsTrue result ↔ (kind ≡ OutOfMemory) }
{
    kind == ErrorKind::OutOfMemory
}

/// The words of the command line, without the program's own name. Where one of them isn't text there are none, since
/// no list with such a word is accepted.
fn words_of<R: Env + AllocGlobal>(rt: &R) -> Result<Vec<String>, NoMemory> {
    let mut words = Vec::new(rt.alloc());
    match env::args(rt) {
        Ok(args) => {
            for word in args.skip(1) {
                words.push(word)?;
            }
        }
        Err(error) => {
            if is_want_of_memory(error.kind()) {
                return Err(NoMemory);
            }
        }
    }
    Ok(words)
}

/// Whether the words ask for threads.
fn ask_for_threads(words: &[String]) -> bool {
    match words.first() {
        Some(word) => word.as_str() == "live",
        None => false,
    }
}

/// Runs the program, on threads where the words ask for them.
fn run<S: Source, K: Sink, R: Threads + Wait + Sync + AllocGlobal>(
    rt: &R,
    words: &[String],
    source: &mut S,
    sink: &mut K,
) -> Status {
    let alloc = rt.alloc();
    if ask_for_threads(words) {
        let mut kept = Kept::new(alloc);
        return sheep_live(rt, alloc, words, source, sink, &FreeGate, &mut kept);
    }
    sheep(alloc, words, source, sink)
}

fn main(rt: HostRuntime) -> ExitCode {
    let mut source = HostSource::new(rt.stdin());
    let mut sink = HostSink::new(rt.stdout());
    let status = match words_of(&rt) {
        Ok(words) => run(&rt, words.as_slice(), &mut source, &mut sink),
        Err(NoMemory) => Status::NoMemory,
    };
    ExitCode::from(status.number())
}
