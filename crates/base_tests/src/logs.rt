//! Logs whose answers come from outside, and what no clause says.

mod reserving;
mod telling;

use epoch_log::{EntryList, Log};
use object_id::{Bytes, Entry, Epoch, Member, NoMemory, NodeId, Origin, Vid};
use std::alloc::Global;
use std::test::Fail;

// A row: what it shows; the opening members, each in the zone of its own letter and with weight 4; the entries, four
// letters each; for each place from 1 on the epoch and the settled epoch; the members of each epoch with zone and weight.
// Entries: Join node zone weight, Leave node, W(Reweight) node weight, Recovered node epoch, Publish node id.
// The rows before the drawn ones were worked out by hand. The drawn ones were drawn at random and answered by a program
// in Python that was written apart from this one, by the definition alone; it agrees with the first ones too.
const LOGS: &[u8] = b"a log of its opening alone;a;;11;aA4\n\
the highest opening member;abcd;;11;aA4bB4cC4dD4\n\
other entries begin nothing;ab;Pa-1Pb-2;111111;aA4bB4\n\
epoch 1 needs no Recovered;ab;Ra-1;1111;aA4bB4\n\
a join begins epoch 2;a;JbC9;1121;aA4|aA4bC9\n\
a node that joins stands by its number;bd;JcA1;1121;bB4dD4|bB4cA1dD4\n\
the least number comes first;bd;JaA1;1121;bB4dD4|aA1bB4dD4\n\
a leave begins epoch 2;ab;La--;1121;aA4bB4|bB4\n\
a weight begins epoch 2;ab;Wb-7;1121;aA4bB4|aA4bB7\n\
the last leaves: an epoch without members is settled;a;La--;1122;aA4|\n\
after nobody a join begins one that isn't;a;La--JbB1;112232;aA4||bB1\n\
one of two has recovered;ab;Wb-7Ra-2;112121;aA4bB4|aA4bB7\n\
both have recovered;ab;Wb-7Ra-2Rb-2;11212122;aA4bB4|aA4bB7\n\
twice by one node is not by two;ab;Wb-7Ra-2Ra-2;11212121;aA4bB4|aA4bB7\n\
one who left does not count;ab;La--Ra-2;112121;aA4bB4|bB4\n\
who stays settles it;ab;La--Ra-2Rb-2;11212122;aA4bB4|bB4\n\
Recovered of an older epoch alone;a;JbB1Wa-5Ra-2Rb-2;1121313132;aA4|aA4bB1|aA5bB1\n\
the newer one settles first;a;JbB1Wa-5Ra-3Rb-3Ra-2Rb-2;11213131333333;aA4|aA4bB1|aA5bB1\n\
Recovered before its epoch counts;a;Ra-2Wa-5;111122;aA4|aA5\n\
Recovered far ahead counts;a;Ra-3Wa-5Wa-6;11112133;aA4|aA5|aA6\n\
Recovered of epoch 0 is nothing;a;Ra-0Wa-5Ra-0;11112121;aA4|aA5\n\
of a stranger is nothing;a;Wa-5Rb-2Ra-2;11212122;aA4|aA5\n\
early by one of two;ab;Rb-2Wa-5Ra-2;11112122;aA4bB4|aA5bB4\n\
early, but of another epoch;a;Ra-3Wa-5;111121;aA4|aA5\n\
early by one who then leaves;ab;Ra-2La--Rb-2;11112122;aA4bB4|bB4\n\
early by one who then joins;a;Rb-2JbB1Ra-2;11112122;aA4|aA4bB1\n\
drawn 1;cfgh;Rg-1Rg-1Rg-1Rg-1Rg-1Lg--Rf-2Rf-2Rh-2Rc-1Rc-2Rf-2;11111111111121212121212222;cC4fF4gG4hH4|cC4fF4hH4\n\
drawn 2;cde;Re-1Rc-1Re-1Rc-1Rd-1JaB1Pb-2Re-2;111111111111212121;cC4dD4eE4|aB1cC4dD4eE4\n\
drawn 3;aeg;JhF9Le--JbE9Wb-3Lg--Lh--Rb-7Ra-7Ra-7Rl-7Rb-7JjF2;11213141516171717777777787;aA4eE4gG4|aA4eE4gG4hF9|aA4gG4hF9|aA4bE9gG4hF9|aA4bE3gG4hF9|aA4bE3hF9|aA4bE3|aA4bE3jF2\n\
drawn 4;ah;Lh--Ra-2La--Ra-3Ra-0Ra-1Ra-3Ra-3Ra-3;11212233333333333333;aA4hH4|aA4|\n\
drawn 5;af;Ra-1Ra-1JgE2Rg-2Rf-2Ra-2Rg-2Rf-2Rg-2Ra-3;1111112121212222222222;aA4fF4|aA4fF4gE2\n\
drawn 6;acef;Re-1JhC3Wa-4Re-3JdE7Rf-4JgH1Wc-9Rg-6Rc-6Lc--JbH1Rb-8Rd-8;111121313141415161616171818181;aA4cC4eE4fF4|aA4cC4eE4fF4hC3|aA4cC4eE4fF4hC3|aA4cC4dE7eE4fF4hC3|aA4cC4dE7eE4fF4gH1hC3|aA4cC9dE7eE4fF4gH1hC3|aA4dE7eE4fF4gH1hC3|aA4bH1dE7eE4fF4gH1hC3\n\
drawn 7;b;Rb-2Rb-0JcC4Rc-2Rb-2;111111212222;bB4|bB4cC4\n\
drawn 8;be;Pa-1Re-1We-5Le--Rb-3Rb-4Rb-3JfD6Rf-4;11111121313333334344;bB4eE4|bB4eE5|bB4|bB4fD6\n\
drawn 9;adfg;Rd-1Rg-1Rf-1Ra-0Rd-1Rd-1Wg-5Rf-2Ld--Ra-3Rg-3Ra-3Rf-3;1111111111111121213131313133;aA4dD4fF4gG4|aA4dD4fF4gG5|aA4fF4gG5\n\
drawn 10;cg;JaC4Pc-3La--Lg--Rc-4Wc-1JiF9JkH3Ri-7Ri-7Rc-7JdA8Rk-4;1121213141445464747474748484;cC4gG4|aC4cC4gG4|cC4gG4|cC4|cC1|cC1iF9|cC1iF9kH3|cC1dA8iF9kH3\n\
drawn 11;abeh;Rb-0Rb-1Ra-1Lh--;1111111121;aA4bB4eE4hH4|aA4bB4eE4\n\
drawn 12;ch;Rc-1Lh--Rc-2JfC8Rc-3JeC3;11112122323242;cC4hH4|cC4|cC4fC8|cC4eC3fC8\n\
drawn 13;deh;Rh-2Re-1Wd-5Re-2Lh--Le--Rd-2Ld--;111111212131414255;dD4eE4hH4|dD5eE4hH4|dD5eE4|dD5|\n\
drawn 14;e;Le--Ra-2Ra-3Ra-2Ra-2Ra-2JfB1Rf-3;112222222222223233;eE4||fB1\n\
drawn 15;ch;Lh--JkD5JaA5Ra-4Ra-4Rc-4Ra-4JiE4Ri-5Rk-5Ra-5Li--Wc-8;1121314141414141515151516171;cC4hH4|cC4|cC4kD5|aA5cC4kD5|aA5cC4iE4kD5|aA5cC4kD5|aA5cC8kD5\n\
drawn 16;bce;Rc-1Rb-1JgA1Rc-2Lg--Lc--Pc-1Re-4Rb-4We-1Wb-6JhB3Rb-7;1111112121314141414454647474;bB4cC4eE4|bB4cC4eE4gA1|bB4cC4eE4|bB4eE4|bB4eE1|bB6eE1|bB6eE1hB3\n\
drawn 17;ag;Ra-1Wa-8Lg--Ra-3;1111213133;aA4gG4|aA8gG4|aA8\n\
drawn 18;d;Ld--Ra-2Ra-2Ra-2Ra-2;112222222222;dD4|\n\
drawn 19;d;Rd-1Rd-1Wd-9Rd-2Rd-2Rd-2Rd-2Ld--Ra-3Ra-3Ra-3Ra-3Ra-3Pb-5;111111212222222233333333333333;dD4|dD9|\n\
drawn 20;acdh;JgG2Pc-4Rc-2Ra-2;1121212121;aA4cC4dD4hH4|aA4cC4dD4gG2hH4\n\
drawn 21;d;Rd-1Ld--Ra-2Ra-3Ra-2Ra-2Ra-2;1111222222222222;dD4|\n\
drawn 22;e;We-8We-8Re-3Re-3Re-3We-5Re-4Le--;112131333333434455;eE4|eE8|eE8|eE5|\n\
drawn 23;e;Re-1Re-1Le--Ra-2Ra-1Ra-2Ra-2JfD7Rf-3Wf-8Rf-4Rf-3Rf-4;1111112222222222323343444444;eE4||fD7|fD8\n\
drawn 24;a;Ra-1La--JlA8Wl-4Rl-4Rl-4;11112232424444;aA4||lA8|lA4\n\
drawn 25;g;Rg-1Rg-2Rg-0Pc-9Lg--JgH9Rg-3Rg-0Lg--;11111111112232333344;gG4||gH9|\n\
drawn 26;h;Rh-0JiH7JjG9Ri-3Lh--Ri-4Li--Rj-5;111121313141415155;hH4|hH4iH7|hH4iH7jG9|iH7jG9|jG9\n\
drawn 27;cfg;Rg-1JeF9JdF8Re-3Pb-9Pb-4Pa-9;1111213131313131;cC4fF4gG4|cC4eF9fF4gG4|cC4dF8eF9fF4gG4\n\
drawn 28;g;Rg-1Rg-1Pc-4Rg-1Rg-0Rg-1Rg-1Rg-0JdF6Rd-2Lg--Wd-3Rd-4;1111111111111111112121314144;gG4|dF6gG4|dF6|dF3\n\
drawn 29;b;JgE3Rb-0Lb--Lg--Ra-4Ra-4Ra-4;1121213144444444;bB4|bB4gE3|gE3|\n\
drawn 30;abe;JgH8Rb-2Rg-2Ra-2Re-2Wa-6Ra-3Ra-3JfD7Wg-1Rb-5Ra-5Pc-7Rl-5;112121212122323232425252525252;aA4bB4eE4|aA4bB4eE4gH8|aA6bB4eE4gH8|aA6bB4eE4fD7gH8|aA6bB4eE4fD7gH1";

fn entry_of(letters: &[u8]) -> Entry {
    let [kind, node, zone, number] = letters else {
        return Entry::Publish {
            by: NodeId(0),
            vid: Vid(1),
        };
    };
    let node = NodeId(u32::from(node.wrapping_sub(b'a')));
    let number = number.wrapping_sub(b'0');
    match kind {
        b'J' => Entry::Join {
            node,
            zone: u32::from(zone.wrapping_sub(b'A')),
            vnodes: u16::from(number),
        },
        b'L' => Entry::Leave { node },
        b'W' => Entry::Reweight {
            node,
            vnodes: u16::from(number),
        },
        b'R' => Entry::Recovered {
            node,
            epoch: Epoch(u32::from(number)),
        },
        _ => Entry::Publish {
            by: node,
            vid: Vid(u32::from(number)),
        },
    }
}

/// The opening members, by their letters.
fn opening(alloc: Global, letters: &[u8]) -> Result<Vec<Member>, NoMemory> {
    let mut members = Vec::new(alloc);
    for letter in letters {
        let number = u32::from(letter.wrapping_sub(b'a'));
        members.push(Member {
            node: NodeId(number),
            zone: number,
            vnodes: 4,
        })?;
    }
    Ok(members)
}

fn blank() -> [Member; 64] {
    [Member {
        node: NodeId(99),
        zone: 0,
        vnodes: 0,
    }; 64]
}

/// The log of a row; `None` where an entry may not stand there.
fn log_of(alloc: Global, letters: &[u8], steps: &[u8]) -> Result<Option<Log>, NoMemory> {
    let members = opening(alloc, letters)?;
    if !Log::may_open(members.as_slice()) {
        return Ok(None);
    }
    let mut log = Log::new(alloc, members.as_slice())?;
    for step in steps.chunks_exact(4) {
        let entry = entry_of(step);
        if !log.may_append(&entry) {
            return Ok(None);
        }
        log.append(entry)?;
    }
    Ok(Some(log))
}

fn letter(first: u8, number: u32) -> u8 {
    first.wrapping_add((number % 64) as u8)
}

/// The epoch and the settled epoch at each place, as digits.
fn marks_of(alloc: Global, log: &Log) -> Result<Vec<u8>, NoMemory> {
    let mut marks = Vec::new(alloc);
    for place in 0..log.len() {
        marks.push(letter(b'0', log.epoch_at(place + 1).0))?;
        marks.push(letter(b'0', log.settled_at(place + 1).0))?;
    }
    Ok(marks)
}

/// The members of each epoch, as letters.
fn members_of(alloc: Global, log: &Log) -> Result<Vec<u8>, NoMemory> {
    let mut letters = Vec::new(alloc);
    for epoch in 0..log.epoch_at(log.len()).0 {
        if epoch != 0 {
            letters.push(b'|')?;
        }
        let mut out = blank();
        let count = log.members(Epoch(epoch + 1), &mut out);
        for member in &out[..count] {
            letters.push(letter(b'a', member.node.0))?;
            letters.push(letter(b'A', member.zone))?;
            letters.push(letter(b'0', u32::from(member.vnodes)))?;
        }
    }
    Ok(letters)
}

fn is_answered(alloc: Global, row: &[u8]) -> Result<bool, NoMemory> {
    let mut fields = row.split(|byte| *byte == b';').skip(1);
    let (Some(letters), Some(steps), Some(marks), Some(members)) = (
        fields.next(),
        fields.next(),
        fields.next(),
        fields.next(),
    ) else {
        return Ok(false);
    };
    let Some(log) = log_of(alloc, letters, steps)? else {
        return Ok(false);
    };
    let places = marks_of(alloc, &log)?;
    let epochs = members_of(alloc, &log)?;
    Ok(places.as_slice() == marks && epochs.as_slice() == members)
}

#[test]
fn answers_as_the_table(rt: HostRuntime) -> Result<(), Fail> {
    let mut rows = 0_u32;
    for row in LOGS.split(|byte| *byte == b'\n') {
        assert!(rt; is_answered(rt.alloc(), row)?, "row {rows}");
        rows = rows.wrapping_add(1);
    }
    assert_eq!(rt; rows, 56);
    Ok(())
}

/// The log of two members; an error where they may not open one.
fn short_log(alloc: Global, steps: &[u8]) -> Result<Log, NoMemory> {
    match log_of(alloc, b"ab", steps)? {
        Some(log) => Ok(log),
        None => Err(NoMemory),
    }
}

/// The log of two members that one has left, with a snapshot's name reserved; an error where that may not stand there.
fn log_with_a_reserve(alloc: Global) -> Result<Log, NoMemory> {
    let mut log = short_log(alloc, b"Lb--")?;
    let reserve = reserve_of(alloc, b"vm", b"monday")?;
    if !log.may_append(&reserve) {
        return Err(NoMemory);
    }
    log.append(reserve)?;
    Ok(log)
}

/// Node 0 reserves a name for a snapshot of a tag.
fn reserve_of(alloc: Global, name: &[u8], tag: &[u8]) -> Result<Entry, NoMemory> {
    let tag = Bytes::from_slice(alloc, tag)?;
    Ok(Entry::Reserve {
        by: NodeId(0),
        session: 7,
        name: Bytes::from_slice(alloc, name)?,
        origin: Origin::SnapshotOf { tag },
    })
}

/// A copy of the list of the log's first four entries.
fn entries_of(alloc: Global, log: &Log) -> Result<EntryList, NoMemory> {
    let mut list = EntryList::new(alloc);
    for place in 0..4 {
        if let Some(entry) = log.entry(place) {
            list.push(entry.copy(alloc)?)?;
        }
    }
    list.copy(alloc)
}

/// Whether a reserve asks for this name in this session.
fn is_reserve(entry: Option<&Entry>, number: u32, text: &[u8]) -> bool {
    match entry {
        Some(Entry::Reserve { session, name, .. }) => {
            *session == number && name.as_slice() == text
        }
        _ => false,
    }
}

#[test]
fn has_three_entries(rt: HostRuntime) -> Result<(), Fail> {
    let log = log_with_a_reserve(rt.alloc())?;
    assert_eq!(rt; (log.len(), log.entry(3).is_none()), (3, true));
    Ok(())
}

#[test]
fn gives_its_entries(rt: HostRuntime) -> Result<(), Fail> {
    let log = log_with_a_reserve(rt.alloc())?;
    let copy = entries_of(rt.alloc(), &log)?;
    assert_eq!(rt; copy.len(), 3);
    assert!(rt; matches!(copy.get(0), Some(Entry::Format { members }) if members.len() == 2));
    assert!(rt; matches!(copy.get(1), Some(Entry::Leave { node: NodeId(1) })));
    assert!(rt; is_reserve(copy.get(2), 7, b"vm"));
    Ok(())
}

/// As many members as there may be, each of the greatest weight.
fn full_roster(alloc: Global) -> Result<Vec<Member>, NoMemory> {
    let mut members = Vec::new(alloc);
    for number in 0..64 {
        members.push(Member {
            node: NodeId(number),
            zone: number,
            vnodes: 256,
        })?;
    }
    Ok(members)
}

/// How many members the log of a full roster has, its first and its last; `None` where they may not open one.
fn ends_of_full_log(alloc: Global) -> Result<Option<(usize, Member, Member)>, NoMemory> {
    let members = full_roster(alloc)?;
    if !Log::may_open(members.as_slice()) {
        return Ok(None);
    }
    let log = Log::new(alloc, members.as_slice())?;
    let mut out = blank();
    let count = log.members(Epoch(1), &mut out);
    Ok(Some((count, out[0], out[63])))
}

// A body that gives up at many members would meet every contract.
#[test]
fn opens_with_all_the_members_that_there_may_be(rt: HostRuntime) -> Result<(), Fail> {
    let Some((count, first, last)) = ends_of_full_log(rt.alloc())? else {
        return Ok(assert!(rt; false, "64 members may open a log"));
    };
    assert_eq!(rt; count, 64);
    assert_eq!(rt;
        (first.node, last.node, last.vnodes),
        (NodeId(0), NodeId(63), 256)
    );
    Ok(())
}

#[test]
fn opens_with_no_more_members(rt: HostRuntime) -> Result<(), Fail> {
    let mut members = full_roster(rt.alloc())?;
    members.push(Member {
        node: NodeId(64),
        zone: 0,
        vnodes: 1,
    })?;
    assert!(rt; !Log::may_open(members.as_slice()));
    Ok(())
}

/// What stands at a place of the long log: each hundredth entry begins an epoch, and its three members recover at once.
fn entry_at(place: u32) -> Entry {
    let epoch = Epoch(place / 100 + 1);
    match place % 100 {
        0 => Entry::Reweight {
            node: NodeId(place / 100 % 3),
            vnodes: 64,
        },
        1 => Entry::Recovered {
            node: NodeId(2),
            epoch,
        },
        2 => Entry::Recovered {
            node: NodeId(0),
            epoch,
        },
        3 => Entry::Recovered {
            node: NodeId(1),
            epoch,
        },
        _ => Entry::Publish {
            by: NodeId(0),
            vid: Vid(1),
        },
    }
}

/// Adds the entry of a place, where it may stand there.
fn append_at(log: &mut Log, place: u32) -> Result<bool, NoMemory> {
    let entry = entry_at(place);
    if !log.may_append(&entry) {
        return Ok(false);
    }
    log.append(entry)?;
    Ok(true)
}

/// How many members the newest epoch has, and the settled epoch: their sum.
fn answers_at_end(log: &Log) -> u64 {
    let newest = log.epoch_at(log.len());
    let mut out = blank();
    let count = log.members(newest, &mut out);
    let settled = log.settled_at(log.len());
    (count as u64).wrapping_add(u64::from(settled.0))
}

/// Adds the entries of the long log, and sums the answers after each; `None` where one may not stand there.
fn fill(log: &mut Log) -> Result<Option<u64>, NoMemory> {
    let mut asked = 0_u64;
    for place in 1..100_000 {
        if !append_at(log, place)? {
            return Ok(None);
        }
        asked = asked.wrapping_add(answers_at_end(log));
    }
    Ok(Some(asked))
}

#[test]
fn reads_a_long_log(rt: HostRuntime) -> Result<(), Fail> {
    let Some(mut log) = log_of(rt.alloc(), b"abc", b"")? else {
        return Ok(assert!(rt; false, "not a log"));
    };
    let asked = fill(&mut log)?;
    assert_eq!(rt;
        (
            log.len(),
            log.epoch_at(log.len()),
            log.settled_at(log.len())
        ),
        (100_000, Epoch(1000), Epoch(1000))
    );
    // Three members are asked for 99,999 times. Epoch 1 is settled after each of its 99 entries. Each later epoch has three
    // entries after which the one before it is the settled one, and 97 after which it is itself: 100 times its number, less 3.
    assert_eq!(rt; asked, Some(299_997 + 99 + 100 * 500_499 - 3 * 999));
    Ok(())
}
