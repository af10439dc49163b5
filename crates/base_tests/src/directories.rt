//! Directories of disks: decisions that come from outside, and what no clause says.
ghost use Rattle.std.specs.Prelude.{IfOk, IfSome, OnOk};
ghost use Rattle.vdi_directory.specs.Decisions.{log_effects};
ghost use Rattle.vdi_directory.specs.DirectoryState.{AreLocks};

use crate::directory_rows::{DEAD_ROWS, ROWS};
use crate::log_words::{entry_of, push_decision, push_live, spec, vid_of};
use disk_lock::Locks;
use epoch_log::Log;
use object_id::{Member, NoMemory, NodeId, Vid};
use std::alloc::Global;
use std::test::Fail;
use vdi_directory::{Directory, FullVdi, VidRange, free_vid, nobody_holds_at_first};

pub fn members() -> [Member; 4] {
    [0, 1, 2, 3].map(|number| Member {
        node: NodeId(number),
        zone: number,
        vnodes: 4,
    })
}

/// Reads an entry that a word spells, and adds the decision on it; `false` where it may not stand there.
fn read_next(
    alloc: Global,
    log: &mut Log,
    directory: &mut Directory,
    locks: &mut Locks,
    word: &[u8],
    text: &mut Vec<u8>,
) -> Result<bool, NoMemory>
    requires { AreLocks (log_effects directory.old) locks.old }
    ensures { OnOk result (AreLocks (log_effects directory.new) locks.new) }
{
    let entry = entry_of(alloc, word)?;
    if !log.may_append(&entry) {
        return Ok(false);
    }
    match directory.read_entry(&entry, locks) {
        Ok(decision) => push_decision(text, decision)?,
        Err(error) => return Err(error),
    }
    log.append(entry)?;
    Ok(true)
}

/// Reads the entries, and adds the decisions, each after a blank; `None` where an entry may not stand there.
fn read_words(
    alloc: Global,
    words: &[u8],
    text: &mut Vec<u8>,
) -> Result<Option<(Directory, Locks)>, NoMemory>
    ensures { IfOk result (λ read. IfSome read (λ kept. AreLocks (log_effects kept.0) kept.1)) }
{
    nobody_holds_at_first();
    let opening = members();
    if !Log::may_open(&opening) {
        return Ok(None);
    }
    let mut log = Log::new(alloc, &opening)?;
    let mut directory = Directory::new(alloc);
    let mut locks = Locks::new(alloc);
    for word in words.split(|byte| *byte == b' ') {
        if !read_next(alloc, &mut log, &mut directory, &mut locks, word, text)? {
            return Ok(None);
        }
    }
    Ok(Some((directory, locks)))
}

fn is_answered(alloc: Global, row: &[u8]) -> Result<bool, NoMemory> {
    let mut fields = row.split(|byte| *byte == b'|').skip(1);
    let (Some(words), Some(wanted)) = (fields.next(), fields.next()) else {
        return Ok(false);
    };
    let mut text = Vec::new(alloc);
    let Some((directory, locks)) = read_words(alloc, words, &mut text)? else {
        return Ok(false);
    };
    text.push(b';')?;
    push_live(&mut text, &directory, &locks)?;
    Ok(text.as_slice() == wanted)
}

#[test]
fn decides_as_the_table(rt: HostRuntime) -> Result<(), Fail> {
    let mut rows = 0_u32;
    for row in ROWS.split(|byte| *byte == b'\n') {
        assert!(rt; is_answered(rt.alloc(), row)?, "row {rows}");
        rows = rows.wrapping_add(1);
    }
    assert_eq!(rt; rows, 103);
    Ok(())
}

/// Whether the directory says of each id what its mark says.
fn are_told(directory: &Directory, marks: &[u8]) -> bool {
    let mut told = true;
    for mark in marks.split(|byte| *byte == b' ').skip(1) {
        let vid = vid_of(mark.get(..6).unwrap_or(b""));
        let is_dead = mark.get(6) == Some(&b'+');
        told = told && directory.dead(vid) == is_dead;
    }
    told
}

fn is_told(alloc: Global, row: &[u8]) -> Result<bool, NoMemory> {
    let mut fields = row.split(|byte| *byte == b'|').skip(1);
    let (Some(words), Some(marks)) = (fields.next(), fields.next()) else {
        return Ok(false);
    };
    let Some((directory, _locks)) = read_words(alloc, words, &mut Vec::new(alloc))? else {
        return Ok(false);
    };
    Ok(are_told(&directory, marks))
}

#[test]
fn tells_the_dead(rt: HostRuntime) -> Result<(), Fail> {
    let mut rows = 0_u32;
    for row in DEAD_ROWS.split(|byte| *byte == b'\n') {
        assert!(rt; is_told(rt.alloc(), row)?, "row {rows}");
        rows = rows.wrapping_add(1);
    }
    assert_eq!(rt; rows, 28);
    Ok(())
}

#[test]
fn finds_free_ids(rt: HostRuntime) {
    assert_eq!(rt; free_vid(b"a", &[]), Ok(Vid(0x01_ec8c)));
    let own = [VidRange {
        first: 0x01_ec8c,
        last: 0x01_ec8c,
    }];
    assert_eq!(rt; free_vid(b"a", &own), Ok(Vid(0x01_ec8d)));
}

#[test]
fn finds_free_ids_before_its_own(rt: HostRuntime) {
    let from_its_own = [VidRange {
        first: 0x01_ec8c,
        last: 0xff_ffff,
    }];
    assert_eq!(rt; free_vid(b"a", &from_its_own), Ok(Vid(1)));
    let all = [VidRange {
        first: 1,
        last: 0xff_ffff,
    }];
    assert_eq!(rt; free_vid(b"a", &all), Err(FullVdi));
}

/// The directory once these entries were read; an error where one may not stand there.
fn directory_of(alloc: Global, words: &[u8]) -> Result<Directory, NoMemory> {
    match read_words(alloc, words, &mut Vec::new(alloc))? {
        Some((directory, _locks)) => Ok(directory),
        None => Err(NoMemory),
    }
}

/// Disk `a` is made, opened and becomes the snapshot `t`; a name `b` is reserved.
const SNAPSHOT: &[u8] = b"F01a P0001ec8c O01a S01a:t N0001ec8c:01ec8d F12b";

// A reservation alone isn't found, though its id is known.
#[test]
fn finds_disks(rt: HostRuntime) -> Result<(), Fail> {
    let directory = directory_of(rt.alloc(), SNAPSHOT)?;
    assert_eq!(rt; directory.find(b"a", None), Some(Vid(0x01_ec8d)));
    assert_eq!(rt; directory.find(b"a", Some(b"t")), Some(Vid(0x01_ec8c)));
    assert_eq!(rt; directory.find(b"a", Some(b"u")), None);
    assert_eq!(rt; directory.find(b"b", None), None);
    Ok(())
}

#[test]
fn finds_what_is_known_of_a_disk(rt: HostRuntime) -> Result<(), Fail> {
    let directory = directory_of(rt.alloc(), SNAPSHOT)?;
    assert_eq!(rt; directory.spec(Vid(0x01_f1a5)), Some(spec()));
    assert_eq!(rt; directory.spec(Vid(0x01_f1a6)), None);
    assert!(rt; directory.header(Vid(0x01_f1a6)).is_none());
    Ok(())
}

#[test]
fn finds_entries_and_live_disks(rt: HostRuntime) -> Result<(), Fail> {
    let directory = directory_of(rt.alloc(), SNAPSHOT)?;
    assert_eq!(rt; directory.entries().len(), 6);
    assert_eq!(rt;
        (
            directory.live_at(0),
            directory.live_at(1),
            directory.live_at(2)
        ),
        (Some(Vid(0x01_ec8c)), Some(Vid(0x01_ec8d)), None)
    );
    Ok(())
}

/// Whether the chain of an id has these two.
fn has_chain(directory: &Directory, vid: Vid, ids: &[Vid; 2]) -> Result<bool, NoMemory> {
    Ok(directory.chain(vid)?.as_slice() == ids.as_slice())
}

/// Whether the entry that a word spells would make just these two dead.
fn makes_dead(
    alloc: Global,
    directory: &Directory,
    locks: &Locks,
    word: &[u8],
    ids: &[Vid; 2],
) -> Result<bool, NoMemory>
    requires { AreLocks (log_effects directory.now) locks.now }
{
    let entry = entry_of(alloc, word)?;
    Ok(directory.dead_by(&entry, locks)?.as_slice() == ids.as_slice())
}

// Two snapshots of a disk, of which the older one is deleted, and then the disk: the newer snapshot keeps the older one from being dead
// until it goes too.
const TWO_SNAPSHOTS: &[u8] =
    b"F01a P0001ec8c O01a S01a:t N0001ec8c:01ec8d S01a:u N0001ec8d:01ec8e U0101ec8e D01a:t D01a";

/// The newer snapshot and the older one.
const SNAPSHOTS: [Vid; 2] = [Vid(0x01_ec8d), Vid(0x01_ec8c)];

#[test]
fn walks_chains(rt: HostRuntime) -> Result<(), Fail> {
    let directory = directory_of(rt.alloc(), TWO_SNAPSHOTS)?;
    assert!(rt; has_chain(&directory, Vid(0x01_ec8e), &SNAPSHOTS)?);
    assert_eq!(rt; directory.parent(Vid(0x01_ec8c)), None);
    Ok(())
}

#[test]
fn tells_what_is_gone(rt: HostRuntime) -> Result<(), Fail> {
    let directory = directory_of(rt.alloc(), TWO_SNAPSHOTS)?;
    assert!(rt; directory.is_gone(Vid(0x01_ec8c)) && !directory.dead(Vid(0x01_ec8c)));
    assert!(rt; !directory.is_gone(Vid(0x01_ec8d)) && !directory.is_gone(Vid(0x01_ec8f)));
    Ok(())
}

#[test]
fn tells_what_dies(rt: HostRuntime) -> Result<(), Fail> {
    let alloc = rt.alloc();
    let Some((directory, locks)) = read_words(alloc, TWO_SNAPSHOTS, &mut Vec::new(alloc))? else {
        return Ok(assert!(rt; false, "not a log"));
    };
    assert!(rt; makes_dead(alloc, &directory, &locks, b"D01a:u", &SNAPSHOTS)?);
    Ok(())
}
