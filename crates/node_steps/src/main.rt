//! Steps of nodes, by a list: the lives of nodes, one after the other. For each line of the list comes one line, with what the step
//! gives, both in the words of `step_text`.
//!
//! The list beside this program (`stdin`) was recorded from whole runs of a cluster that another program made, which was written
//! independently, from the rules alone; what its nodes gave is the text that must come out here (`stdout`). So the steps of
//! `sheep_node` are compared with those of that program, input by input.
#![tactic(auto)]

use std::io;
use step_text::Life;

/// Prints what each line of the list gives.
fn print_steps(rt: &HostRuntime, life: &mut Life) -> io::Result<()> {
    for line in rt.lines(rt.alloc()) {
        match life.step(line?.as_str()) {
            Ok(given) => println!(rt; "{given}")?,
            Err(fault) => println!(rt; "{fault}")?,
        }
    }
    Ok(())
}

fn main(rt: HostRuntime) -> io::Result<()> {
    let mut life = Life::new(rt.alloc());
    print_steps(&rt, &mut life)
}
