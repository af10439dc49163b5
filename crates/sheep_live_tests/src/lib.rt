//! Tests of `sheep_live`: what a script prints on threads is the report of the run whose trace stands behind it, so `replay` prints it
//! again; and how its calls end. They stand above the program's top calls, so they are a crate of their own.
#![tactic(auto)]

#[cfg(test)]
mod replays;
#[cfg(test)]
mod scripts;
#[cfg(test)]
mod statuses;
