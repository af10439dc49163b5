//! Locks: which session of which node holds a disk, and that nobody else does.
//!
//! The crate stands on `object_id`. A [`Locks`] is seen as the finite map from the ids that are held to their holders, so
//! an id has at most one. Who may be granted a lock is decided by the directory, which alone changes locks as entries of
//! the membership log are read; here each call does what it is told, and says so exactly. Without memory `grant` leaves
//! the locks as they were; no other call takes any.
#![tactic(auto)]

mod holder;
mod locks;
#[cfg(test)]
mod tests;

pub use holder::Holder;
pub use locks::Locks;
