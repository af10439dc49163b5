//! Small histories and their answers, the history of a first script, and a long one.
use super::*;
use object_id::{Bytes, NoMemory};
use std::alloc::Global;
use std::test::Fail;

/// The word's byte stands for 512 of it, `0` for zeros, and `-` for a byte too few.
fn block_of(alloc: Global, byte: u8) -> Result<Bytes, NoMemory> {
    match byte {
        b'-' => Bytes::from_slice(alloc, &[0; 511]),
        b'0' => Bytes::from_slice(alloc, &[0; 512]),
        _ => Bytes::from_slice(alloc, &[byte; 512]),
    }
}

fn digit(byte: u8) -> u32 {
    u32::from(byte.saturating_sub(b'0'))
}

/// `c` creates a disk of so many blocks, `p` copies one to another, `x` deletes one; `w` begins to write, by request, disk,
/// block and byte (`v` where it is coded), and `d`, `f` and `l` are its end: done, refused, lost; `r` reads, by disk,
/// block and byte. Every number is a digit.
fn event_of(alloc: Global, word: &str) -> Result<HistEvent, NoMemory> {
    Ok(match word.as_bytes() {
        [b'c', disk, blocks] => HistEvent::Create {
            disk: digit(*disk),
            blocks: u64::from(digit(*blocks)),
        },
        [b'p', old, new] => HistEvent::Copy {
            old: digit(*old),
            new: digit(*new),
        },
        [b'x', disk] => HistEvent::Delete { disk: digit(*disk) },
        [kind, req, disk, block, byte] => HistEvent::WriteStart {
            req: digit(*req),
            disk: digit(*disk),
            block: u64::from(digit(*block)),
            coded: *kind == b'v',
            bytes: block_of(alloc, *byte)?,
        },
        [b'd', req] => HistEvent::WriteDone { req: digit(*req) },
        [b'f', req] => HistEvent::WriteRefused { req: digit(*req) },
        [b'l', req] => HistEvent::WriterLost { req: digit(*req) },
        [_, disk, block, byte] => HistEvent::Read {
            disk: digit(*disk),
            block: u64::from(digit(*block)),
            bytes: block_of(alloc, *byte)?,
        },
        _ => HistEvent::Delete { disk: 99 },
    })
}

fn history_of(alloc: Global, text: &str) -> Result<HistList, NoMemory> {
    let mut events = HistList::new(alloc);
    for word in text.split_ascii_whitespace() {
        events.push(event_of(alloc, word)?)?;
    }
    Ok(events)
}

// A row: what it shows; the history; the first place at which it isn't legal, or `-`. That place was written by hand, and is
// that of a checker in Python that was written apart from this one.
const HISTORIES: &str = "the empty history;;-\n\
zeros are gone once a write is acknowledged;c11 w110a r100 d1 r100;4\n\
zeros may be read until then;c11 w110a r100 d1;-\n\
an open write may be read;c11 w110a r10a r100;-\n\
the last acknowledged write;c11 w110a d1 r10a;-\n\
older than the last acknowledged write;c11 w110a d1 w210b d2 r10a;5\n\
bytes that nobody wrote;c11 w110a d1 r10z;3\n\
an acknowledged write before an open one;c11 w110a w210b d1 r10a r10b;-\n\
what lay before it is gone;c11 w110a w210b d1 r100;4\n\
a later one acknowledged first;c11 w110a w210b d2 d1 r10a;5\n\
a refused write is never read;c11 w110a f1 r10a;3\n\
a refused write leaves what was there;c11 w110a f1 r100;-\n\
a refused write above an acknowledged one;c11 w110a d1 w210b f2 r10a r10b;6\n\
a write of a lost writer, read or not;c11 w110a l1 r10a r100;-\n\
a copied block isn't torn;c11 w110a l1 r10z;3\n\
a coded block is torn;c11 v110a l1 r10z;-\n\
torn until the next acknowledged write;c11 v110a l1 w210b d2 r10z;5\n\
torn under an open write;c11 v110a l1 w210b r10z;-\n\
a lost coded write under an acknowledged one;c11 v110a v210b d2 l1 r10z;5\n\
an open coded write tears nothing;c11 v110a r10z;2\n\
a refused coded write tears nothing;c11 v110a f1 r10z;3\n\
an acknowledged coded write tears nothing;c11 v110a d1 r10z;3\n\
a disk made twice;c11 c12;1\n\
a deleted disk made again;c11 x1 c11;2\n\
a copy of no disk;p12;0\n\
a copy onto a disk;c11 c21 p12;2\n\
a copy onto itself;c11 p11;1\n\
deleted, but not there;x1;0\n\
deleted twice;c11 x1 x1;2\n\
reads of a deleted disk are free;c11 x1 r10z;-\n\
but not past its end;c11 x1 r11z;2\n\
nor of fewer bytes;c11 x1 r10-;2\n\
a read of no disk;r100;0\n\
a read past the end;c11 r110;1\n\
a short read;c11 r10-;1\n\
a short write;c11 w110-;1\n\
a write after the end of its request;c12 w110a d1 w111b;3\n\
one block twice by one request;c11 w110a w110b;2\n\
one request over two blocks;c12 w110a w111b d1 r10a r11b;-\n\
one end for both of its blocks;c12 w110a w111b f1 r10a;4\n\
an end without a beginning;d1;0\n\
a refusal without a beginning;f1;0\n\
a lost writer without a beginning;l1;0\n\
acknowledged twice;c11 w110a d1 d1;3\n\
refused after it was acknowledged;c11 w110a d1 f1;3\n\
lost after it was refused;c11 w110a f1 l1;3\n\
acknowledged after it was lost;c11 w110a l1 d1;3\n\
a stray request may be refused;w110a f1;-\n\
and its writer may be lost;c11 w111a l1;-\n\
but it isn't acknowledged;c11 w111a d1;2\n\
nor with another block that is there;c11 w110a w111a d1;3\n\
a stray write twice;w110a w110b;1\n\
a stray write isn't read once the disk is there;w110a c11 r100 r10a;3\n\
a copy has its origin's lists;c11 w110a d1 p12 r20a r200;5\n\
an open write is acknowledged on the copy too;c11 w110a p12 d1 r20a r200;5\n\
an open write is refused on the copy too;c11 w110a p12 f1 r200 r20a;5\n\
a lost coded write tears the copy too;c11 v110a p12 l1 r20z;-\n\
the origin goes on alone;c11 p12 w110a d1 r200 r10a r20a;6\n\
the copy goes on alone;c11 p12 w120a d1 r20a r100 r10a;6\n\
a copy of a deleted disk is live;c11 w110a x1 p12 d1 r20a r10z r20z;7\n\
a write of a deleted disk;c11 x1 w110a d1 p12 r20a r200;6\n\
a copy of a copy;c11 w110a d1 p12 w220b p23 d2 r30b r20b r10a r30a;10";

/// The number that digits say.
fn number_of(digits: &str) -> usize {
    let mut number = 0_usize;
    for byte in digits.as_bytes() {
        number = number.wrapping_mul(10).wrapping_add(digit(*byte) as usize);
    }
    number
}

/// Whether the first place at which a row's history isn't legal is the row's.
fn agrees(alloc: Global, row: &str) -> Result<bool, NoMemory> {
    let mut fields = row.split(';').skip(1);
    let (Some(text), Some(place)) = (fields.next(), fields.next()) else {
        return Ok(false);
    };
    let events = history_of(alloc, text)?;
    let found = check(alloc, events.as_slice());
    Ok(found == wanted(place))
}

fn wanted(place: &str) -> Result<(), HistoryFault> {
    match place {
        "-" => Ok(()),
        _ => Err(HistoryFault::Illegal {
            place: number_of(place),
        }),
    }
}

#[test]
fn judges_small_histories(rt: HostRuntime) -> Result<(), Fail> {
    let mut rows = 0_u32;
    for row in HISTORIES.split('\n') {
        assert!(rt; agrees(rt.alloc(), row)?, "{row}");
        rows = rows.wrapping_add(1);
    }
    assert_eq!(rt; rows, 62);
    Ok(())
}

fn write_of(
    alloc: Global,
    req: u32,
    disk: u32,
    block: u64,
    byte: u8,
) -> Result<HistEvent, NoMemory> {
    Ok(HistEvent::WriteStart {
        req,
        disk,
        block,
        coded: false,
        bytes: Bytes::from_slice(alloc, &[byte; 512])?,
    })
}

fn read_of(alloc: Global, disk: u32, block: u64, byte: u8) -> Result<HistEvent, NoMemory> {
    Ok(HistEvent::Read {
        disk,
        block,
        bytes: Bytes::from_slice(alloc, &[byte; 512])?,
    })
}

/// A disk of 1 MiB is made; 512 bytes of 7 are written at its start; the first 1,024 bytes are read.
fn history_of_a_script(alloc: Global) -> Result<HistList, NoMemory> {
    let mut events = HistList::new(alloc);
    events.push(HistEvent::Create {
        disk: 1,
        blocks: 2048,
    })?;
    events.push(write_of(alloc, 3, 1, 0, 7)?)?;
    events.push(HistEvent::WriteDone { req: 3 })?;
    events.push(read_of(alloc, 1, 0, 7)?)?;
    events.push(read_of(alloc, 1, 1, 0)?)?;
    Ok(events)
}

#[test]
fn takes_the_history_of_a_script(rt: HostRuntime) -> Result<(), Fail> {
    let events = history_of_a_script(rt.alloc())?;
    assert_eq!(rt; check(rt.alloc(), events.as_slice()), Ok(()));
    Ok(())
}

/// One write of the long history, and two reads of it.
fn add_write(alloc: Global, events: &mut HistList, req: u32) -> Result<(), NoMemory> {
    let disk = req / 1000;
    let block = u64::from(req.wrapping_mul(7) % 300);
    let byte = (req % 251) as u8;
    events.push(write_of(alloc, req, disk, block, byte)?)?;
    events.push(HistEvent::WriteDone { req })?;
    events.push(read_of(alloc, disk, block, byte)?)?;
    events.push(read_of(alloc, disk, block, byte)?)?;
    Ok(())
}

/// 100,000 events over 300 blocks, with a copy of the disk after each 1,000 writes.
fn long_history(alloc: Global) -> Result<HistList, NoMemory> {
    let mut events = HistList::new(alloc);
    events.push(HistEvent::Create {
        disk: 0,
        blocks: 300,
    })?;
    for req in 0u32..25_000 {
        add_write(alloc, &mut events, req)?;
        if req % 1000 == 999 {
            let old = req / 1000;
            events.push(HistEvent::Copy { old, new: old + 1 })?;
        }
    }
    Ok(events)
}

// Built, it is checked in a tenth of a second.
#[test]
fn checks_a_long_history(rt: HostRuntime) -> Result<(), Fail> {
    let events = long_history(rt.alloc())?;
    assert_eq!(rt; check(rt.alloc(), events.as_slice()), Ok(()));
    Ok(())
}
