//! What no clause says: that the calls come through with ample memory, and what the rules mean on small scripts.
ghost use Rattle.std.specs.Prelude.{◌<◌};

use object_id::{Bytes, fnv1a};
use sheep::{Status, sheep};
use sheep_base::{MemSink, MemSource, SureSink, SureSource};
use std::alloc::Global;
use std::test::Fail;

const ONE_DISK: &str =
    "cluster 1\nsession 1 node 0\n1 vdi create -c 1 a 1M\n1 vdi open a\n1 vdi write 0 512 fill 7\n1 vdi read 0 1024\n1 vdi close\n";

const ONE_DISK_TEXT: &str = "1 ok\n2 ok\n3 ok\n4 ok 07*512 00*512\n5 ok\n";

// What each text is, the text, the number of the status that `run` ends with, and what it prints, by the rules of scripts and reports,
// worked out by hand. `@` is between rows, and `|` between their fields.
const SCRIPTS: &str = "write and read back|\
cluster 1\nsession 1 node 0\n1 vdi create -c 1 a 1M\n1 vdi open a\n1 vdi write 0 512 fill 7\n\
1 vdi read 0 1024\n1 vdi close\n|0|\
1 ok\n2 ok\n3 ok\n4 ok 07*512 00*512\n5 ok\n@\
empty input||0|@\
odd sizes and a read past the end|\
cluster 1\nsession 1 node 0\n1 vdi create -c 1 a 1536\n1 vdi open a\n1 vdi read 0 512\n\
1 vdi write 1024 512 fill 255\n1 vdi read 512 1024\n1 vdi read 1536 512\n|0|\
1 ok\n2 ok\n3 ok 00*512\n4 ok\n5 ok 00*512 ff*512\n6 refused 05 INVALID_PARMS\n@\
a refused write changes nothing|\
cluster 1\nsession 1 node 0\n1 vdi create -c 1 a 1K\n1 vdi open a\n1 vdi write 0 1K fill 10\n\
1 vdi write 512 1K fill 11\n1 vdi read 0 1K|0|\
1 ok\n2 ok\n3 ok\n4 refused 05 INVALID_PARMS\n5 ok 0a*1024\n@\
the last of two writes|\
cluster 1\nsession 1 node 0\n1 vdi create -c 1 a 4K\n1 vdi open a\n1 vdi write 0 2K fill 1\n\
1 vdi write 512 512 fill 2\n1 vdi read 0 4K\n|0|\
1 ok\n2 ok\n3 ok\n4 ok\n5 ok 01*512 02*512 01*1024 00*2048\n@\
a write at the end of all numbers|\
cluster 1\nsession 1 node 0\n1 vdi create -c 1 a 1M\n1 vdi open a\n\
1 vdi write 18446744073709551104 1024 fill 1\n|0|\
1 ok\n2 ok\n3 refused 05 INVALID_PARMS\n@\
two nodes, and no statement|\
cluster 2\n|0|@\
a close before an open|\
cluster 1\nsession 1 node 0\n1 vdi close\n|0|\
1 refused 10 VDI_NOT_LOCKED\n@\
a disk of three copies waits for the third node|\
cluster 2\nsession 1 node 0\n1 vdi create -c 3 a 1M\nsettle\njoin 2\nsettle\n1 vdi create -c 3 a 1M\n\
1 vdi open a\n1 vdi write 0 512 fill 9\n1 vdi read 0 512\nvdi list\ncluster info\n|0|\
1 refused 19 HALT members 2 wanted 3\n2 ok\n3 ok\n4 ok\n5 ok 09*512\n\
vdi 01ec8d a - 1048576 3 22 000000 session 1\ncluster epoch 2 settled 2 members 0 1 2\n@\
the later of two writes is read, whichever message is lost|\
cluster 3\nsession 1 node 0\n1 vdi create a 1M\n1 vdi open a\nsettle\nlose 1\n1 vdi write 0 512 fill 1\n\
1 vdi write 0 512 fill 2\n1 vdi read 0 512\n|0|\
1 ok\n2 ok\n3 ok\n4 ok\n5 ok 02*512\n@\
two strips are lost|\
cluster 8\nsession 1 node 0\n1 vdi create -c 4:2 a 1M\n1 vdi open a\n1 vdi write 0 2048 step 1\nsettle\n\
fail 6\nfail 7\nsettle\n1 vdi read 0 2048\ncluster info\n|0|\
1 ok\n2 ok\n3 ok\n4 ok 01*512 02*512 03*512 04*512\ncluster epoch 3 settled 3 members 0 1 2 3 4 5\n@\
a snapshot and a clone|\
cluster 3\nsession 1 node 0\nsession 2 node 1\n1 vdi create a 8M\n1 vdi open a\n1 vdi write 0 512 fill 1\n\
1 vdi write 4M 512 fill 8\n1 vdi snapshot -s t1\n1 vdi write 0 512 fill 2\nsettle\n2 vdi clone -s t1 a b\n\
2 vdi open b\n2 vdi write 0 512 fill 3\n2 vdi read 0 512\n1 vdi read 0 512\nsettle\n2 vdi close\n\
2 vdi open -s t1 a\n2 vdi read 0 512\nvdi list\n1 vdi close\n1 vdi delete a\nsettle\n2 vdi close\n\
2 vdi delete -s t1 a\n2 vdi open b\n2 vdi read 0 512\n2 vdi read 4M 512\nvdi list\n|0|\
1 ok\n2 ok\n3 ok\n4 ok\n5 ok\n6 ok\n7 ok\n8 ok\n9 ok\n10 ok 03*512\n11 ok 02*512\n12 ok\n13 ok\n14 ok 01*512\n\
vdi 01ec8c a t1 8388608 3 22 000000 snapshot\nvdi 01ec8d a - 8388608 3 22 01ec8c session 1\n\
vdi 01f1a5 b - 8388608 3 22 01ec8c free\n15 ok\n16 ok\n17 ok\n18 ok\n19 ok\n20 ok 03*512\n21 ok 08*512\n\
vdi 01f1a5 b - 8388608 3 22 01ec8c session 2\n@\
the lock of a lost node is free|\
cluster 4\nsession 1 node 0\nsession 2 node 1\n1 vdi create a 1M\n1 vdi open a\nsettle\n2 vdi open a\nsettle\n\
fail 0\nsettle\n2 vdi open a\ncluster info\n|0|\
1 ok\n2 ok\n3 refused 07 VDI_LOCKED session 1\n4 ok\ncluster epoch 2 settled 2 members 1 2 3\n";

const NO_SCRIPTS: &str = "an odd offset|\
cluster 1\nsession 1 node 0\n1 vdi create -c 1 a 1M\n1 vdi open a\n1 vdi read 100 512\n|3|\
bad line 5 cause 4\n@\
an undeclared session|\
cluster 1\n1 vdi close\n|3|\
bad line 2 cause 6\n@\
a number with letters|\
cluster 1x\n|3|\
bad line 1 cause 2\n@\
an odd offset, before any disk|\
cluster 1\nsession 1 node 0\n1 vdi read 100 512\n|3|\
bad line 3 cause 4\n@\
a length of 0|\
cluster 1\nsession 1 node 0\n1 vdi read 0 0\n|3|\
bad line 3 cause 3\n@\
a word that is none|\
cluster 1\nsession 1 node 0\n1 vdi raed 0 512\n|3|\
bad line 3 cause 1\n@\
another session|\
cluster 1\nsession 1 node 0\n2 vdi close\n|3|\
bad line 3 cause 6\n";

const SMALL: &str = "cluster 1\nsession 1 node 0\n1 vdi create -c 1 a 512\n";

// The same of `replay`.
const REPLAYS: &str = "the only order|\
cluster 1\nsession 1 node 0\n1 vdi create -c 1 a 512\ntrace\nguest 1\nput 0\nlog 0\ndeliver 0.0\ndeliver 0.0\n\
put 0\nlog 0\nphase\n|0|\
1 ok\n@\
an event twice|\
cluster 1\nsession 1 node 0\n1 vdi create -c 1 a 512\ntrace\nguest 1\nguest 1\nput 0\nlog 0\ndeliver 0.0\n\
deliver 0.0\nput 0\nlog 0\nphase\n|7|\
bad event 2\n@\
the last phase isn't ended|\
cluster 1\nsession 1 node 0\n1 vdi create -c 1 a 512\ntrace\nguest 1\nput 0\nlog 0\ndeliver 0.0\ndeliver 0.0\n\
put 0\nlog 0\n|7|\
bad event 8\n@\
no trace|\
cluster 1\nsession 1 node 0\n1 vdi create -c 1 a 512\n|7|\
bad event 1\n@\
a leading zero|\
cluster 1\nsession 1 node 0\n1 vdi create -c 1 a 512\ntrace\nguest 01\nput 0\nlog 0\ndeliver 0.0\n\
deliver 0.0\nput 0\nlog 0\nphase\n|7|\
bad event 1\n@\
a bad script with a good trace|\
clusten 1\nsession 1 node 0\n1 vdi create -c 1 a 512\ntrace\nguest 1\nput 0\nlog 0\ndeliver 0.0\ndeliver 0.0\n\
put 0\nlog 0\nphase\n|3|\
bad line 1 cause 1\n@\
nothing||0|@\
sixteen requests a session|\
cluster 1\nsession 1 node 0\n1 vdi create -c 1 -z 12 a 8K\n1 vdi open a\n1 vdi write 0 512 fill 1\n\
1 vdi write 4K 512 fill 2\n1 vdi write 512 512 fill 3\ntrace\nguest 1\nput 0\nlog 0\ndeliver 0.0\n\
deliver 0.0\nput 0\nlog 0\nguest 1\nput 0\nlog 0\ndeliver 0.1\ndeliver 0.1\ndeliver 0.2\ndeliver 0.2\n\
guest 1\nguest 1\nguest 1\ndeliver 0.3\ndeliver 0.3\ndeliver 0.4\ndeliver 0.4\ndeliver 0.5\ndeliver 0.5\n\
deliver 0.6\ndeliver 0.6\ndeliver 0.7\ndeliver 0.7\nphase\n|0|\
1 ok\n2 ok\n3 ok\n4 ok\n5 ok\n";

/// The words of a line.
fn words_of(alloc: Global, line: &str) -> Result<Vec<String>, Fail> {
    let mut words = Vec::new(alloc);
    for word in line.split_ascii_whitespace() {
        words.push(String::from_str(alloc, word)?)?;
    }
    Ok(words)
}

fn source_of(alloc: Global, input: &str) -> Result<SureSource, Fail> {
    Ok(SureSource::new(Bytes::from_slice(alloc, input.as_bytes())?))
}

/// The status of a call with these words and this input, if it prints this text.
fn status_of(alloc: Global, line: &str, input: &str, text: &str) -> Result<Option<Status>, Fail> {
    let words = words_of(alloc, line)?;
    let mut source = source_of(alloc, input)?;
    let mut sink = SureSink::new(alloc, 10_000)?;
    let status = sheep(alloc, words.as_slice(), &mut source, &mut sink);
    Ok(if sink.given() == text.as_bytes() {
        Some(status)
    } else {
        None
    })
}

/// Whether a call with these words and this input is done, and prints this text.
fn prints(alloc: Global, line: &str, input: &str, text: &str) -> Result<bool, Fail> {
    Ok(status_of(alloc, line, input, text)? == Some(Status::Done))
}

fn has_number(status: Option<Status>, number: &str) -> bool {
    match status {
        Some(status) => number.as_bytes() == [b'0'.wrapping_add(status.number())].as_slice(),
        None => false,
    }
}

/// Whether a call with this word and the text of a row comes to what the row says.
fn is_answered(alloc: Global, word: &str, row: &str) -> Result<bool, Fail> {
    let mut fields = row.split('|').skip(1);
    let (Some(input), Some(number), Some(text)) = (fields.next(), fields.next(), fields.next())
    else {
        return Ok(false);
    };
    let status = status_of(alloc, word, input, text)?;
    Ok(has_number(status, number))
}

/// How many rows are answered so, up to the first that isn't.
fn answered_rows(alloc: Global, word: &str, rows: &str) -> Result<u32, Fail> {
    let mut count = 0_u32;
    for row in rows.split('@') {
        if !is_answered(alloc, word, row)? {
            return Ok(count);
        }
        count = count.wrapping_add(1);
    }
    Ok(count)
}

#[test]
fn runs_small_scripts(rt: HostRuntime) -> Result<(), Fail> {
    assert_eq!(rt; answered_rows(rt.alloc(), "run", SCRIPTS)?, 13);
    Ok(())
}

#[test]
fn names_bad_lines(rt: HostRuntime) -> Result<(), Fail> {
    assert_eq!(rt; answered_rows(rt.alloc(), "run", NO_SCRIPTS)?, 7);
    Ok(())
}

#[test]
fn replays_traces(rt: HostRuntime) -> Result<(), Fail> {
    assert_eq!(rt; answered_rows(rt.alloc(), "replay", REPLAYS)?, 8);
    Ok(())
}

const SMALL_TEXT: &str =
    "1 ok\ntrace\nguest 1\nput 0\nlog 0\ndeliver 0.0\ndeliver 0.0\nput 0\nlog 0\nphase\n";

// What is read again by `replay`, for every seed.
#[test]
fn prints_the_trace(rt: HostRuntime) -> Result<(), Fail> {
    assert!(rt; prints(rt.alloc(), "run --trace", SMALL, SMALL_TEXT)?);
    assert!(rt; prints(rt.alloc(), "run --seed 1 --trace", SMALL, SMALL_TEXT)?);
    Ok(())
}

#[test]
fn reads_a_seed_behind_its_sign(rt: HostRuntime) -> Result<(), Fail> {
    let last = "run --trace --seed=18446744073709551615";
    assert!(rt; prints(rt.alloc(), last, SMALL, SMALL_TEXT)?);
    assert!(rt; prints(rt.alloc(), "run --seed=07 --trace", SMALL, SMALL_TEXT)?);
    Ok(())
}

// The line that each number gives, from another program, which was written apart from this one, from the rules alone.
const FIRST_GENERATED: &str =
    "gen 0 requests 208 ok 208 refused 0 gone 0 pending 0 unsent 0 hash 9ee79acc6a87a82a\n";

const SECOND_GENERATED: &str =
    "gen 1 requests 208 ok 208 refused 0 gone 0 pending 0 unsent 0 hash c4a2d7ab1ad0569c\n";

const LAST_GENERATED: &str =
    "gen 18446744073709551615 requests 208 ok 208 refused 0 gone 0 pending 0 unsent 0 hash 931e00afa113a018\n";

#[test]
fn runs_generated_scripts(rt: HostRuntime) -> Result<(), Fail> {
    assert!(rt; prints(rt.alloc(), "gen 0", "1", FIRST_GENERATED)?);
    assert!(rt; prints(rt.alloc(), "gen 01", "1", SECOND_GENERATED)?);
    assert!(rt; prints(rt.alloc(), "gen 18446744073709551615", "1", LAST_GENERATED)?);
    Ok(())
}

fn failing_source(alloc: Global, fails: &[u64], piece: usize) -> Result<MemSource, Fail>
    requires { 0 < piece }
{
    let input = Bytes::from_slice(alloc, ONE_DISK.as_bytes())?;
    Ok(MemSource::new(input, Vec::from_slice(alloc, fails)?, piece))
}

fn failing_sink(alloc: Global, fails: &[u64], piece: usize) -> Result<MemSink, Fail>
    requires { 0 < piece }
{
    let mut sink = MemSink::new(alloc, Vec::from_slice(alloc, fails)?, piece);
    sink.reserve(1000)?;
    Ok(sink)
}

/// Whether a call comes to this status and prints this text, where these calls of the source and of the sink fail, and a call takes so many
/// bytes.
fn ends_so(
    alloc: Global,
    fails: (&[u64], &[u64]),
    piece: usize,
    status: Status,
    text: &str,
) -> Result<bool, Fail>
    requires { 0 < piece }
{
    let words = words_of(alloc, "run")?;
    let mut source = failing_source(alloc, fails.0, piece)?;
    let mut sink = failing_sink(alloc, fails.1, piece)?;
    let found = sheep(alloc, words.as_slice(), &mut source, &mut sink);
    Ok(found == status && sink.given() == text.as_bytes())
}

#[test]
fn answers_the_first_fault(rt: HostRuntime) -> Result<(), Fail> {
    assert!(rt; ends_so(rt.alloc(), (&[0], &[]), 4096, Status::ReadFault, "")?);
    assert!(rt; ends_so(rt.alloc(), (&[], &[0]), 4096, Status::WriteFault, "")?);
    Ok(())
}

#[test]
fn answers_faults_byte_by_byte(rt: HostRuntime) -> Result<(), Fail> {
    assert!(rt; ends_so(rt.alloc(), (&[], &[]), 1, Status::Done, ONE_DISK_TEXT)?);
    assert!(rt; ends_so(rt.alloc(), (&[70], &[]), 1, Status::ReadFault, "")?);
    assert!(rt; ends_so(rt.alloc(), (&[], &[7]), 1, Status::WriteFault, "1 ok\n2 ")?);
    Ok(())
}

/// The status of a run of so many line feeds, if it prints this text.
fn long_status(alloc: Global, length: usize, text: &str) -> Result<Option<Status>, Fail> {
    let words = words_of(alloc, "run")?;
    let mut source = SureSource::new(Bytes::from_vec(vec![in alloc; b'\n'; length]?));
    let mut sink = SureSink::new(alloc, 100)?;
    let status = sheep(alloc, words.as_slice(), &mut source, &mut sink);
    Ok(if sink.given() == text.as_bytes() {
        Some(status)
    } else {
        None
    })
}

#[test]
fn answers_the_longest_inputs(rt: HostRuntime) -> Result<(), Fail> {
    assert_eq!(rt;
        long_status(rt.alloc(), 16_777_216, "")?,
        Some(Status::Done)
    );
    assert_eq!(rt;
        long_status(rt.alloc(), 16_777_217, "too long\n")?,
        Some(Status::TooLong)
    );
    Ok(())
}

// No words at all, and then some that aren't accepted.
const OTHER_WORDS: &str = "|runs|run run|run --seed|run --seed=+1|run --seed=|run --seed --trace|\
run --seed 000000000000000000001|run --trace --trace|run --trace=true|run --|\
gen|gen 18446744073709551616|gen -- 1|replay --trace|live|--help";

#[test]
fn refuses_other_words(rt: HostRuntime) -> Result<(), Fail> {
    let mut lines = 0_u32;
    for line in OTHER_WORDS.split('|') {
        let status = status_of(rt.alloc(), line, ONE_DISK, "bad words\n")?;
        assert_eq!(rt; status, Some(Status::BadWords), "{line}");
        lines = lines.wrapping_add(1);
    }
    assert_eq!(rt; lines, 17);
    Ok(())
}

const THREE_NODES: &str =
    "cluster 3\nsession 1 node 0\nsession 2 node 1\n1 vdi create -c 2 -z 12 a 8K\n1 vdi open a\nsettle\n1 vdi write 0 1024 step 3\n1 vdi write 4096 512 fill 7\nlose 1\nfail 2\n1 vdi read 0 4608\nnode list\n2 vdi create -c 2:1 -z 12 b 4K\njoin 3\ndump\n";

/// The status of the run of that script by a seed, how long the text with its trace is, and its hash.
fn told_by_seed(alloc: Global) -> Result<(Status, usize, u64), Fail> {
    let words = words_of(alloc, "run --trace --seed 7")?;
    let mut source = source_of(alloc, THREE_NODES)?;
    let mut sink = SureSink::new(alloc, 10_000)?;
    let status = sheep(alloc, words.as_slice(), &mut source, &mut sink);
    Ok((status, sink.given().len(), fnv1a(sink.given())))
}

// The length and the hash are from that other program.
#[test]
fn prints_the_trace_that_a_seed_gives(rt: HostRuntime) -> Result<(), Fail> {
    let (status, length, hash) = told_by_seed(rt.alloc())?;
    assert_eq!(rt; status, Status::Done);
    assert_eq!(rt; (length, hash), (2255, 0x252e_aad7_5040_72c1));
    Ok(())
}
