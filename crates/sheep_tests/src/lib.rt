//! Tests of the program's top call: small scripts, traces and generated scripts, with what each must print and the status it ends with. And
//! of `sheep_base`: what sources and sinks come to, and that each call comes through with ample memory.
//!
//! They stand above these crates, and not in them, so that each of them is proved once.
#![tactic(auto)]

#[cfg(test)]
mod sources;
#[cfg(test)]
mod top_calls;
