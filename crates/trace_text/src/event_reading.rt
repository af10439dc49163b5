//! The event that a line spells.

ghost use Rattle.std.specs.Prelude.{◌≡◌, ◌≢◌, ℕ, ◌<◌, ◌^◌, ◌==◌, ◌∷◌, [], ◌++◌, false, All, decimal, IfSome, IfNone};
ghost use Rattle.trace_text.specs.EventReading.{event_in as event_of_line};
ghost use Rattle.trace_text.specs.EventWords.{event_of};

use crate::split::{are_same, split_once};
use itoa::Buffer;
use object_id::NodeId;
use sheep_node::Event;
use std::str::from_utf8;

/// The event whose text a line is.
pub fn event_in(line: &[u8]) -> Option<Event>
    ensures { result ≡ event_of_line line.now }
{
    match split_once(line, b' ') {
        Some((word, name)) => named_event(word, name),
        None if are_same(line, b"phase") => Some(Event::Phase),
        None => None,
    }
}

/// The event with this word that is of what is named behind it: a session or a node, or a message by its sender and number.
fn named_event(word: &[u8], name: &[u8]) -> Option<Event>
    ensures { All (λ byte. (byte == 32) ≡ false) word.now → result ≡ event_of_line (word.now ++ 32 ∷ name.now) }
{
    match split_once(name, b'.') {
        Some((sender, number)) => {
            message_event(word, NodeId(number_in(sender)?), number_in(number)?)
        }
        None => numbered_event(word, number_in(name)?),
    }
}

/// The event with this word that is of the session or node with this number.
fn numbered_event(word: &[u8], number: u32) -> Option<Event>
    ensures { result ≡ event_of word.now (number ∷ []) }
{
    let node = NodeId(number);
    if are_same(word, b"guest") {
        Some(Event::Guest { session: number })
    } else if are_same(word, b"log") {
        Some(Event::LogNext { node })
    } else if are_same(word, b"put") {
        Some(Event::Put { node })
    } else if are_same(word, b"recover") {
        Some(Event::RecoverTick { node })
    } else if are_same(word, b"retry") {
        Some(Event::RetryTick { node })
    } else if are_same(word, b"lost") {
        Some(Event::Lost { node })
    } else if are_same(word, b"leave") {
        Some(Event::Leave { node })
    } else if are_same(word, b"join") {
        Some(Event::Join { node })
    } else if are_same(word, b"reweight") {
        Some(Event::Reweight { node })
    } else if are_same(word, b"back") {
        Some(Event::Back { node })
    } else {
        None
    }
}

/// The event with this word that is of the message with this name.
fn message_event(word: &[u8], sender: NodeId, number: u32) -> Option<Event>
    ensures { result ≡ event_of word.now (sender.0 ∷ number ∷ []) }
{
    if are_same(word, b"deliver") {
        Some(Event::Deliver {
            node: sender,
            number,
        })
    } else if are_same(word, b"loserequest") {
        Some(Event::LoseRequest {
            node: sender,
            number,
        })
    } else if are_same(word, b"losereply") {
        Some(Event::LoseReply {
            node: sender,
            number,
        })
    } else {
        None
    }
}

/// The number below 2^32 that bytes spell: decimal, without leading zeros.
fn number_in(bytes: &[u8]) -> Option<u32>
    ensures spelled { IfSome result (λ number. bytes.now ≡ decimal number) }
    ensures none { IfNone result ((number : ℕ) → number < 2 ^ 32 → bytes.now ≢ decimal number) }
{
    let Ok(text) = from_utf8(bytes) else {
        return None;
    };
    let Ok(number) = text.parse::<u32>() else {
        return None;
    };
    // A sign and leading zeros would be parsed too.
    if are_same(bytes, Buffer::new().format(number).as_bytes()) {
        Some(number)
    } else {
        None
    }
}
