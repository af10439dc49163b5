//! The outside of the program: where its bytes come from and where they go.
//!
//! A [`Source`] tells what it has left, a [`Sink`] what it was given, and each counts its faults, so
//! that a caller who reports a fault can be held to it. Both are met by values in memory with faults
//! at chosen calls, by values that never fail, and by std's readers and writers. [`read_all`] and
//! [`put_all`] move whole texts through them, and say what became of every byte.
//!
//! The crate stands on object_id, whose plain words it passes on.
#![tactic(auto)]

// What a source and a sink are.
mod fault;
mod sink;
mod source;

// Whole texts through them.
mod transfer;

// Those in memory, those that never fail, and those over std's.
mod copying;
mod host;
mod memory_sink;
mod memory_source;
mod plan;
mod sure;

pub use fault::Fault;
pub use host::{HostSink, HostSource};
pub use memory_sink::MemSink;
pub use memory_source::MemSource;
pub use object_id::{Bytes, Epoch, NoMemory, NodeId};
pub use sink::Sink;
pub use source::Source;
pub use sure::{SureSink, SureSource};
pub use transfer::{ReadStop, put_all, read_all};
