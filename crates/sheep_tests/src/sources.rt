//! What no clause says: that each call comes through with ample memory, and what the worked faults give.
use sheep_base::{
    Bytes, Fault, HostSink, HostSource, MemSink, MemSource, ReadStop, SureSink, SureSource,
    put_all, read_all,
};
use std::io;
use std::io::Read;
use std::test::Fail;

/// A reader of the letters a to f whose second call fails.
#[derive(Drop)]
struct Stutter {
    calls: u32,
    letters: &'static [u8],
}

impl Read for Stutter {
    fn read(&mut self, buf: &mut [u8]) -> io::Result<usize> {
        self.calls = self.calls.saturating_add(1);
        if self.calls == 2 {
            return Err(io::Error::from(io::ErrorKind::TimedOut));
        }
        self.letters.read(buf)
    }
}

#[test]
fn reads_to_the_end_or_stops(rt: HostRuntime) -> Result<(), Fail> {
    let none: &[u64] = &[];
    let table: [(usize, usize, &[u64], Result<&[u8], ReadStop>); 9] = [
        (6, 1, none, Ok(b"abcdef")),
        (6, 4, none, Ok(b"abcdef")),
        (7, 9, none, Ok(b"abcdef")),
        (5, 1, none, Err(ReadStop::TooLong)),
        (5, 9, none, Err(ReadStop::TooLong)),
        (6, 2, &[0], Err(ReadStop::Failed)),
        (6, 2, &[2], Err(ReadStop::Failed)),
        // The fourth call finds the end, and there is no fifth.
        (6, 2, &[3], Err(ReadStop::Failed)),
        (6, 2, &[4], Ok(b"abcdef")),
    ];
    for (limit, piece, fails, wanted) in table {
        assert!(rt; piece > 0);
        let bytes = Bytes::from_slice(rt.alloc(), b"abcdef")?;
        let fails = Vec::from_slice(rt.alloc(), fails)?;
        let mut source = MemSource::new(bytes, fails, piece);
        match (read_all(rt.alloc(), &mut source, limit), wanted) {
            (Ok(text), Ok(letters)) => assert_eq!(rt; text.as_slice(), letters),
            (Err(stop), Err(cause)) => assert_eq!(rt; stop, cause),
            _ => assert!(rt; false, "at pieces of {piece} and a limit of {limit}"),
        }
    }
    Ok(())
}

#[test]
fn goes_on_after_a_fault(rt: HostRuntime) -> Result<(), Fail> {
    let bytes = Bytes::from_slice(rt.alloc(), b"abcdef")?;
    let fails = Vec::from_slice(rt.alloc(), &[1])?;
    let mut source = MemSource::new(bytes, fails, 2);
    assert!(rt; matches!(read_all(rt.alloc(), &mut source, 6), Err(ReadStop::Failed)));
    assert_eq!(rt;
        read_all(rt.alloc(), &mut source, 6)?.as_slice(),
        b"cdef".as_slice()
    );
    assert!(rt; read_all(rt.alloc(), &mut source, 0)?.is_empty());
    Ok(())
}

#[test]
fn writes_all_or_stops(rt: HostRuntime) -> Result<(), Fail> {
    let none: &[u64] = &[];
    let table: [(usize, usize, &[u64], Result<(), Fault>, &[u8]); 7] = [
        (6, 1, none, Ok(()), b"abcdef"),
        (6, 4, none, Ok(()), b"abcdef"),
        (6, 6, &[1], Ok(()), b"abcdef"),
        (6, 1, &[0], Err(Fault::Failed), b""),
        (6, 1, &[3], Err(Fault::Failed), b"abc"),
        (5, 1, none, Err(Fault::Failed), b"abcde"),
        // A piece that fits in part isn't taken in part.
        (5, 2, none, Err(Fault::Failed), b"abcd"),
    ];
    for (room, piece, fails, answer, given) in table {
        assert!(rt; piece > 0);
        let fails = Vec::from_slice(rt.alloc(), fails)?;
        let mut sink = MemSink::new(rt.alloc(), fails, piece);
        sink.reserve(room)?;
        assert_eq!(rt; put_all(&mut sink, b"abcdef"), answer);
        assert_eq!(rt; sink.given(), given);
    }
    Ok(())
}

#[test]
fn writes_nothing_without_a_call(rt: HostRuntime) -> Result<(), Fail> {
    let fails = Vec::from_slice(rt.alloc(), &[0])?;
    let mut sink = MemSink::new(rt.alloc(), fails, 1);
    put_all(&mut sink, b"")?;
    assert_eq!(rt; put_all(&mut sink, b"a"), Err(Fault::Failed));
    Ok(())
}

#[test]
fn sure_ones_take_and_give_all(rt: HostRuntime) -> Result<(), Fail> {
    let mut source = SureSource::new(Bytes::from_slice(rt.alloc(), b"abcdef")?);
    let text = read_all(rt.alloc(), &mut source, 6)?;
    assert_eq!(rt; text.as_slice(), b"abcdef".as_slice());

    let mut sink = SureSink::new(rt.alloc(), 4)?;
    put_all(&mut sink, b"abc")?;
    put_all(&mut sink, b"def")?;
    assert_eq!(rt; sink.given(), b"abcd".as_slice());
    assert_eq!(rt; sink.more(), 2);
    Ok(())
}

#[test]
fn host_readers_are_read(rt: HostRuntime) -> Result<(), Fail> {
    let letters: &[u8] = b"abcdef";
    let text = read_all(rt.alloc(), &mut HostSource::new(letters), 6)?;
    assert_eq!(rt; text.as_slice(), letters);

    let mut source = HostSource::new(Stutter { calls: 0, letters });
    assert!(rt; matches!(read_all(rt.alloc(), &mut source, 6), Err(ReadStop::Failed)));
    Ok(())
}

#[test]
fn host_writers_are_written(rt: HostRuntime) -> Result<(), Fail> {
    let mut held = Vec::new(rt.alloc());
    put_all(&mut HostSink::new(&mut held), b"abcdef")?;
    assert_eq!(rt; held.as_slice(), b"abcdef".as_slice());

    // A slice takes what fits, and then writes of nothing.
    let mut room = [0; 4];
    let answer = put_all(&mut HostSink::new(room.as_mut_slice()), b"abcdef");
    assert_eq!(rt; answer, Err(Fault::Failed));
    assert_eq!(rt; room, *b"abcd");
    Ok(())
}
