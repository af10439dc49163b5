//! Whether two inputs of nodes are the same.

ghost use Rattle.std.specs.Prelude.{◌≡◌, ◌↔◌, IsTrue};
ghost use Rattle.std.specs.Option.{option_copied};

use crate::same_guest::{same_disk_ask, same_vdi_ask, same_work};
use crate::same_message::{same_reply, same_request};
use object_id::Entry;
use sheep_node::{Ask, Input};

/// Whether both lists have the same entries in the same order.
fn same_entries(one: &[Entry], other: &[Entry]) -> bool
    ensures { IsTrue result ↔ (one.now ≡ other.now) }
{
    if one.len() != other.len() {
        return false;
    }
    for place in 0..one.len() {
        if !one[place].same(&other[place]) {
            return false;
        }
    }
    true
}

fn same_ask(one: &Ask, other: &Ask) -> bool
    ensures { IsTrue result ↔ (one.now ≡ other.now) }
{
    match (one, other) {
        (Ask::Disk(ask), Ask::Disk(asked)) => same_disk_ask(ask, asked),
        (Ask::Vdi(ask), Ask::Vdi(asked)) => same_vdi_ask(ask, asked),
        (Ask::Object(work), Ask::Object(asked)) => same_work(work, asked),
        (Ask::Entry(entry), Ask::Entry(asked)) => entry.same(asked),
        _ => false,
    }
}

fn same_input(one: &Input, other: &Input) -> bool
    ensures { IsTrue result ↔ (one.now ≡ other.now) }
{
    match (one, other) {
        (
            Input::Guest { req, session, ask },
            Input::Guest {
                req: number,
                session: asker,
                ask: asked,
            },
        ) => req == number && session == asker && same_ask(ask, asked),
        (Input::Request(request), Input::Request(asked)) => same_request(request, asked),
        (Input::Reply(reply), Input::Reply(said)) => same_reply(reply, said),
        (Input::Lost { number }, Input::Lost { number: lost }) => number == lost,
        (Input::LogEntry(entry), Input::LogEntry(read)) => entry.same(read),
        (Input::Put, Input::Put) => true,
        (Input::RecoverTick, Input::RecoverTick) => true,
        (Input::RetryTick, Input::RetryTick) => true,
        (Input::Back { entries }, Input::Back { entries: read }) => {
            same_entries(entries.as_slice(), read.as_slice())
        }
        _ => false,
    }
}

/// Whether both are the same input, or none.
pub(crate) fn same_input_option(one: Option<&Input>, other: Option<&Input>) -> bool
    ensures { IsTrue result ↔ (option_copied one.entry ≡ option_copied other.entry) }
{
    match (one, other) {
        (Some(input), Some(kept)) => same_input(input, kept),
        (None, None) => true,
        _ => false,
    }
}
