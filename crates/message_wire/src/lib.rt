//! The wire: the messages between nodes that are on their way, each under its name.
//!
//! The crate stands on `object_id`. A message is named by the node that sent the request and the number that it gave it, and
//! is in the wire as bytes: as the request, or as the reply to it. [`Wire`] is seen as the finite map from names to packets,
//! in the order of the names. It keeps each sender's messages by number, so that one message costs two look-ups, and a
//! sender's messages are counted and found without the others. It also counts the nodes that a sender's messages ask, so that
//! whether all of these are in a [`NodeSet`] is known without looking at the messages.
#![tactic(auto)]

mod end_counts;
mod entries;
mod name;
mod node_set;
mod packet;
mod sender_messages;
mod senders;
#[cfg(test)]
mod tests;
mod wire;

pub use name::MessageName;
pub use node_set::NodeSet;
pub use packet::Packet;
pub use wire::Wire;
