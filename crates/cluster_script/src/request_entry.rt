ghost use Rattle.std.specs.Prelude.{◌≡◌, ◌+◌, ◌^◌, ◌<◌, ◌≤◌, ◌++◌, length, map, IfOk, OnOk};
ghost use Rattle.std.specs.List.{range_with_len};
ghost use Rattle.cluster_script.specs.KeptIndex.{statement_entry, phase_after, request_entries, number_asked, numbers_asked};

use crate::index::{asking_session, is_request};
use crate::phase_entry::is_barrier;
use crate::statement::Statement;
use object_id::{INPUT_BYTES_MAX, Items, NoMemory, SESSIONS_MAX};
use std::alloc::Global;

/// Where a request stands: the place of its statement, the session that asks, and the place of its phase, each place from 0.
#[derive(Clone, Copy, Debug)]
pub struct RequestEntry {
    pub place: u32,
    pub session: u32,
    pub phase: u32,
}

/// Where the requests stand among statements, in order.
pub fn request_entries(
    alloc: Global,
    statements: &[Statement],
) -> Result<Items<RequestEntry>, NoMemory>
    requires { length statements.now ≤ INPUT_BYTES_MAX }
    ensures entries { IfOk result (λ entries. entries ≡ request_entries 0 0 statements.now) }
    ensures few { IfOk result (λ entries. length entries ≤ length statements.now) }
{
    let mut entries = Items::new(alloc);
    let mut place = 0;
    let mut phase = 0;
    for s in statements {
        add_entry(&mut entries, place, phase, s)?;
        phase = phase_after(phase, s);
        place += 1;
    }
    Ok(entries)
}

/// Adds where a statement stands, if it is a request.
fn add_entry(
    entries: &mut Items<RequestEntry>,
    place: u32,
    phase: u32,
    s: &Statement,
) -> Result<(), NoMemory>
    ensures { OnOk result (entries.new ≡ entries.old ++ statement_entry place phase s.now) }
{
    if is_request(s) {
        entries.push(RequestEntry {
            place,
            session: asking_session(s),
            phase,
        })?;
    }
    Ok(())
}

/// The place of the phase that goes on behind a statement.
fn phase_after(phase: u32, s: &Statement) -> u32
    requires { phase + 1 < 2 ^ 32 }
    ensures within { result ≤ phase + 1 }
    ensures after { result ≡ phase_after phase s.now }
{
    if is_barrier(s) { phase + 1 } else { phase }
}

/// The numbers of the requests of sessions 1 up.
pub fn numbers_by_session(
    alloc: Global,
    entries: &[RequestEntry],
) -> Result<Items<Items<u32>>, NoMemory>
    requires { length entries.now ≤ INPUT_BYTES_MAX }
    ensures { IfOk result (λ lists. lists ≡ map (λ session. numbers_asked session 1 entries.now) (range_with_len 1 SESSIONS_MAX)) }
{
    let mut lists = Items::new(alloc);
    for count in 0..SESSIONS_MAX {
        lists.push(numbers_of(alloc, count + 1, entries)?)?;
    }
    Ok(lists)
}

/// The numbers of a session's requests, ascending.
fn numbers_of(alloc: Global, session: u32, entries: &[RequestEntry]) -> Result<Items<u32>, NoMemory>
    requires { length entries.now ≤ INPUT_BYTES_MAX }
    ensures { IfOk result (λ numbers. numbers ≡ numbers_asked session 1 entries.now) }
{
    let mut numbers = Items::new(alloc);
    let mut number = 1;
    for entry in entries {
        add_number(&mut numbers, session, number, entry)?;
        number += 1;
    }
    Ok(numbers)
}

/// Adds a number, if its request is of this session.
fn add_number(
    numbers: &mut Items<u32>,
    session: u32,
    number: u32,
    entry: &RequestEntry,
) -> Result<(), NoMemory>
    ensures { OnOk result (numbers.new ≡ numbers.old ++ number_asked session number entry.now) }
{
    if entry.session == session {
        numbers.push(number)?;
    }
    Ok(())
}
