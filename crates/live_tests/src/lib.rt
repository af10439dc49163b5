//! Tests of `live_merge` and `live_run`: the steps of a run on one thread, kept as a live cluster keeps them, and merged again; that
//! threads run at once, that a live run tells what it should, and which stamps its steps brought. They stand above what makes such runs, so
//! they are a crate of their own.
#![tactic(auto)]

#[cfg(test)]
mod gates;
#[cfg(test)]
mod kept_merges;
#[cfg(test)]
mod kept_run;
#[cfg(test)]
mod live;
#[cfg(test)]
mod merges;
#[cfg(test)]
mod used;
