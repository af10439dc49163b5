ghost use Rattle.std.specs.Prelude.{◌≡◌, ◌==◌, ◌<◌, ℕ, not, T, length, if◌then◌else◌, OnOk, OnErr};
ghost use Rattle.std.specs.Option.{option_copied};
ghost use Rattle.std.specs.List.{list_any};
ghost use Rattle.std.specs.Ordering.{nat_cmp};
ghost use Rattle.std.specs.FinMap as tree;
ghost use Rattle.message_wire.specs.Message.{has_end, message_name};
ghost use Rattle.message_wire.specs.declared.packet.Packet.{Packet as ThePacket};
ghost use Rattle.message_wire.specs.Entries.{IsFoundAt};
ghost use Rattle.message_wire.specs.Senders.{Messages, AreSenders, messages_from, other_senders, senders_with, requests_among};

use crate::entries::{place_of, put, take, value_at};
use crate::name::MessageName;
use crate::packet::Packet;
use crate::sender_messages::SenderMessages;
use object_id::{NoMemory, NodeId};

/// Puts a message among those of its sender, which may have none yet.
pub(crate) fn put_message(
    senders: &mut Vec<(u32, SenderMessages)>,
    name: MessageName,
    packet: Packet,
) -> Result<(), NoMemory>
    requires { AreSenders senders.old.items }
    ensures ok { OnOk result (senders.new.items ≡ tree.put nat_cmp name.sender.0
        (tree.insert (messages_from senders.old.items name.sender.0) name.number packet) senders.old.items) }
    ensures err { OnErr result (senders.new.items ≡ senders.old.items) }
{
    match place_of(senders.as_slice(), name.sender.0) {
        Ok(place) => put_there(senders, place, name, packet),
        Err(_) => put_first(senders, name, packet),
    }
}

/// Puts a message among those of its sender, which stands at a place.
fn put_there(
    senders: &mut Vec<(u32, SenderMessages)>,
    place: usize,
    name: MessageName,
    packet: Packet,
) -> Result<(), NoMemory>
    requires within { place < length senders.old.items }
    requires stands { IsFoundAt name.sender.0 place senders.old.items }
    ensures ok { OnOk result (senders.new.items ≡ tree.put nat_cmp name.sender.0
        (tree.insert (messages_from senders.old.items name.sender.0) name.number packet) senders.old.items) }
    ensures err { OnErr result (senders.new.items ≡ senders.old.items) }
{
    senders[place].1.put(name.number, packet)
}

/// Puts the first message of a sender.
fn put_first(
    senders: &mut Vec<(u32, SenderMessages)>,
    name: MessageName,
    packet: Packet,
) -> Result<(), NoMemory>
    requires { AreSenders senders.old.items }
    ensures ok { OnOk result (senders.new.items ≡ tree.put nat_cmp name.sender.0
        (tree.insert tree.empty name.number packet) senders.old.items) }
    ensures err { OnErr result (senders.new.items ≡ senders.old.items) }
{
    let mut messages = SenderMessages::new(*senders.allocator());
    messages.put(name.number, packet)?;
    put(senders, name.sender.0, messages)
}

/// Takes a message out of those of its sender. A sender goes with its last message.
pub(crate) fn take_message(
    senders: &mut Vec<(u32, SenderMessages)>,
    name: MessageName,
) -> Option<Packet>
    requires { AreSenders senders.old.items }
    ensures value { result ≡ tree.get (messages_from senders.old.items name.sender.0) name.number }
    ensures others { senders.new.items ≡ senders_with name.sender.0
        (tree.remove (messages_from senders.old.items name.sender.0) name.number) senders.old.items }
{
    match place_of(senders.as_slice(), name.sender.0) {
        Ok(place) => {
            let packet = take_there(senders, place, name);
            drop_empty(senders, name.sender.0);
            packet
        }
        Err(_) => None,
    }
}

/// Takes a message out of those of its sender, which stands at a place.
fn take_there(
    senders: &mut Vec<(u32, SenderMessages)>,
    place: usize,
    name: MessageName,
) -> Option<Packet>
    requires within { place < length senders.old.items }
    requires stands { IsFoundAt name.sender.0 place senders.old.items }
    ensures value { result ≡ tree.get (messages_from senders.old.items name.sender.0) name.number }
    ensures others { senders.new.items ≡ tree.put nat_cmp name.sender.0
        (tree.remove (messages_from senders.old.items name.sender.0) name.number) senders.old.items }
{
    senders[place].1.take(name.number)
}

/// Drops the replies to a sender. It goes where it has no other message.
pub(crate) fn drop_replies_to(senders: &mut Vec<(u32, SenderMessages)>, sender: u32)
    requires { AreSenders senders.old.items }
    ensures { senders.new.items ≡ senders_with sender (requests_among sender (messages_from senders.old.items sender)) senders.old.items }
{
    match place_of(senders.as_slice(), sender) {
        Ok(place) => {
            drop_replies_there(senders, place, sender);
            drop_empty(senders, sender);
        }
        Err(_) => {}
    }
}

/// Drops the replies to a sender, which stands at a place.
fn drop_replies_there(senders: &mut Vec<(u32, SenderMessages)>, place: usize, sender: u32)
    requires within { place < length senders.old.items }
    requires stands { IsFoundAt sender place senders.old.items }
    ensures { senders.new.items
        ≡ tree.put nat_cmp sender (requests_among sender (messages_from senders.old.items sender)) senders.old.items }
{
    senders[place].1.drop_replies(sender);
}

/// Drops a sender that has no messages.
fn drop_empty(senders: &mut Vec<(u32, SenderMessages)>, sender: u32)
    requires { T (tree.is_sorted nat_cmp senders.old.items) }
    ensures { senders.new.items ≡ (if tree.len (messages_from senders.old.items sender) == 0
        then other_senders sender senders.old.items else senders.old.items) }
{
    if !has_messages(senders.as_slice(), sender) {
        take(senders, sender);
    }
}

/// Whether a sender has messages.
fn has_messages(senders: &[(u32, SenderMessages)], sender: u32) -> bool
    requires { T (tree.is_sorted nat_cmp senders.now) }
    ensures { result ≡ not (tree.len (messages_from senders.now sender) == 0) }
{
    match value_at(senders, sender) {
        Some(messages) => messages.len() != 0,
        None => false,
    }
}

/// The message of a name.
pub(crate) fn message_of(senders: &[(u32, SenderMessages)], name: MessageName) -> Option<&Packet>
    requires { AreSenders senders.now }
    ensures { option_copied result ≡ tree.get (messages_from senders.now name.sender.0) name.number }
{
    match value_at(senders, name.sender.0) {
        Some(messages) => messages.get(name.number),
        None => None,
    }
}

/// Whether a node is an end of a message.
pub(crate) fn has_end(senders: &[(u32, SenderMessages)], node: NodeId) -> bool
    ensures { result ≡ list_any (λ (own : ℕ × Messages). list_any (λ (message : ℕ × ThePacket).
        has_end node.0 (message_name own.0 message.0) message.1) (tree.entries own.1)) senders.now }
{
    senders.iter().any(|own| own.1.has_end(own.0, node))
}
