//! Worlds at their ends, by a list of cases. A case is a script, a line `trace`, a line for each event, each ask of a client and each wait
//! for its reply, and a line `end`; for each comes what they give and the world that they end with, in the words of `step_text`, and a
//! line `end`.
//!
//! The list beside this program (`stdin`) was made by another program, which was written independently, from the rules alone: scripts,
//! events and asks by chance. The worlds that its own events ended with are the text that must come out here (`stdout`). So the events and
//! the asks of `sheep_world` are compared with those of that program.
#![tactic(auto)]

use std::io;
use step_text::end_of;

/// Prints what is told of a case.
fn print_end(rt: &HostRuntime, case: &str) -> io::Result<()> {
    match end_of(rt.alloc(), case) {
        Ok(told) => println!(rt; "{told}end"),
        Err(fault) => println!(rt; "{fault}\nend"),
    }
}

/// Takes a line of a case; at its last one prints what is told of it.
fn take_line(rt: &HostRuntime, case: &mut String, line: &str) -> io::Result<()> {
    if line == "end" {
        print_end(rt, case.as_str())?;
        case.clear();
        return Ok(());
    }
    case.push_str(line)?;
    case.push('\n')?;
    Ok(())
}

fn main(rt: HostRuntime) -> io::Result<()> {
    let mut case = String::new(rt.alloc());
    for line in rt.lines(rt.alloc()) {
        take_line(&rt, &mut case, line?.as_str())?;
    }
    Ok(())
}
