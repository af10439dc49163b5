//! Which names and sizes a log lets be reserved.

use super::short_log;
use object_id::{Bytes, Entry, NoMemory, NodeId, Origin, Policy, VdiSpec};
use std::alloc::Global;
use std::test::Fail;

/// Whether node 0 may reserve a name for a clone of a snapshot with that name for its tag.
fn may_take_name(alloc: Global, name: &[u8]) -> Result<bool, NoMemory> {
    let copy = Bytes::from_slice(alloc, name)?;
    let tag = Bytes::from_slice(alloc, name)?;
    let base = Bytes::from_slice(alloc, b"base")?;
    may_reserve(alloc, copy, Origin::CloneOf { base, tag })
}

/// Whether node 0 may reserve a name for a new disk.
fn may_make(alloc: Global, spec: VdiSpec) -> Result<bool, NoMemory> {
    let name = Bytes::from_slice(alloc, b"vm")?;
    may_reserve(alloc, name, Origin::Fresh { spec })
}

fn may_reserve(alloc: Global, name: Bytes, origin: Origin) -> Result<bool, NoMemory> {
    let reserve = Entry::Reserve {
        by: NodeId(0),
        session: 1,
        name,
        origin,
    };
    let log = short_log(alloc, b"")?;
    Ok(log.may_append(&reserve))
}

// A name or a tag has 1 to 255 bytes, none of them 0.
#[test]
fn asks_for_names(rt: HostRuntime) -> Result<(), Fail> {
    assert!(rt; may_take_name(rt.alloc(), b"vm")?);
    assert!(rt; !may_take_name(rt.alloc(), b"")?);
    assert!(rt; !may_take_name(rt.alloc(), b"v\0m")?);
    Ok(())
}

#[test]
fn asks_for_names_that_fit(rt: HostRuntime) -> Result<(), Fail> {
    assert!(rt; may_take_name(rt.alloc(), &[b'x'; 255])?);
    assert!(rt; !may_take_name(rt.alloc(), &[b'x'; 256])?);
    Ok(())
}

// A disk has whole blocks of 512 bytes, in at most 2^20 objects of 2^12 to 2^24 bytes, and 1 to 31 copies or 2, 4, 8 or 16
// strips with 1 to 15 of parity. A row: the size, the shift, and copies or strips; `+` where a disk may be so.
const SPECS: &[u8] = b"512 12 1 +\n\
4294967296 12 31 +\n\
4294967808 12 3 -\n\
17592186044416 24 16:15 +\n\
17592186044928 24 16:15 -\n\
0 22 3 -\n\
513 22 3 -\n\
512 11 3 -\n\
512 25 3 -\n\
512 22 0 -\n\
512 22 32 -\n\
512 22 6:2 -\n\
512 22 4:0 -\n\
512 22 4:16 -";

/// The part of a row at a place.
fn part(row: &[u8], separator: u8, place: usize) -> &[u8] {
    row.split(|byte| *byte == separator)
        .nth(place)
        .unwrap_or(b"")
}

fn number_of(digits: &[u8]) -> u64 {
    let mut number = 0_u64;
    for digit in digits {
        number = number
            .wrapping_mul(10)
            .wrapping_add(u64::from(digit.wrapping_sub(b'0')));
    }
    number
}

fn small_number_of(digits: &[u8]) -> u8 {
    (number_of(digits) % 256) as u8
}

fn policy_of(word: &[u8]) -> Policy {
    let first = small_number_of(part(word, b':', 0));
    let second = part(word, b':', 1);
    if second.is_empty() {
        Policy::Copies(first)
    } else {
        Policy::Coded {
            d: first,
            p: small_number_of(second),
        }
    }
}

fn spec_of(row: &[u8]) -> VdiSpec {
    VdiSpec {
        size: number_of(part(row, b' ', 0)),
        policy: policy_of(part(row, b' ', 2)),
        shift: small_number_of(part(row, b' ', 1)),
    }
}

#[test]
fn asks_for_sizes(rt: HostRuntime) -> Result<(), Fail> {
    let mut rows = 0_u32;
    for row in SPECS.split(|byte| *byte == b'\n') {
        let want = row.last() == Some(&b'+');
        assert_eq!(rt; may_make(rt.alloc(), spec_of(row))?, want, "row {rows}");
        rows = rows.wrapping_add(1);
    }
    assert_eq!(rt; rows, 14);
    Ok(())
}
