use cluster_script::{LineCause, Script, ScriptFault, parse};
use object_id::{INPUT_BYTES_MAX, NoMemory};
use std::alloc::Global;
use std::test::*;

/// The first bad line of a text made of lines and a last piece so many times, and the number of its cause.
fn bad_line(
    alloc: Global,
    lines: &[u8],
    last: &[u8],
    times: u32,
) -> Result<Option<(u32, u8)>, Fail> {
    let mut text = Vec::from_slice(alloc, lines)?;
    for _ in 0..times {
        text.extend_from_slice(last)?;
    }
    if text.len() > INPUT_BYTES_MAX {
        return Err(Fail::from("the text is too long"));
    }
    match parse(alloc, text.as_slice()) {
        Ok(_script) => Ok(None),
        Err(ScriptFault::BadLine { line, cause }) => Ok(Some((line, cause.number()))),
        Err(ScriptFault::NoMemory) => Err(Fail::from("no memory")),
    }
}

/// The script of a text that is one.
fn script_of(alloc: Global, text: &[u8]) -> Result<Script, Fail> {
    if text.len() > INPUT_BYTES_MAX {
        return Err(Fail::from("the text is too long"));
    }
    match parse(alloc, text) {
        Ok(script) => Ok(script),
        Err(_fault) => Err(Fail::from("the text is a script")),
    }
}

/// What the statements of a script say, a line each.
fn statements_text(alloc: Global, script: &Script) -> Result<String, Fail> {
    let mut text = String::new(alloc);
    for statement in script.statements() {
        text.push_str(format!(in alloc; "{statement:?}\n")?.as_str())?;
    }
    Ok(text)
}

/// Whether a script's statements say these lines.
fn is_read_as(alloc: Global, script: &[u8], said: &str) -> Result<bool, Fail> {
    let script = script_of(alloc, script)?;
    Ok(statements_text(alloc, &script)?.as_str() == said)
}

/// A script of every statement.
const STATEMENTS: &[u8] = b"zone 63 0\n\
cluster 3\n\
vnodes 256\n\
tries 1000\n\
limit 0001\n\
session 64 node 2\n\
fail 1\n\
join 63\n\
reweight 63 1\n\
back 1\n\
fail 1\n\
lose 10000\n\
settle\n\
lose 1\n\
node list\n\
vdi list\n\
cluster info\n\
dump\n\
64 vdi create -c 16:15 -z 12 a 512\n\
64 vdi create -c 31 b 4194304M\n\
64  vdi create -z 24 c 1K\n\
64 vdi open -s t a\n\
\x2064 vdi open b\n\
64 vdi read 1G 0512\n\
64 vdi write 512 1M step 255\n\
64 vdi write 0 512 fill 0 \n\
64 vdi snapshot -s t\n\
64 vdi clone -s t a d\n\
64 vdi delete -s t a\n\
64 vdi delete a\n\
64 vdi check\n\
64 vdi close\n";

/// What each of them says: 97 to 100 are the names a to d, and 116 is the tag t.
const STATEMENTS_SAID: &str = "Zone { node: 63, zone: 0 }\n\
Cluster { nodes: 3 }\n\
Vnodes { vnodes: 256 }\n\
Tries { tries: 1000 }\n\
Limit { limit: 1 }\n\
Session { session: 64, node: 2 }\n\
Fail { node: 1 }\n\
Join { node: 63 }\n\
Reweight { node: 63, vnodes: 1 }\n\
Back { node: 1 }\n\
Fail { node: 1 }\n\
Lose { count: 10000 }\n\
Settle\n\
Lose { count: 1 }\n\
ListNodes\n\
ListVdis\n\
ClusterInfo\n\
Dump\n\
Create { session: 64, policy: Coded { d: 16, p: 15 }, shift: 12, name: Bytes { items: [97] }, size: 512 }\n\
Create { session: 64, policy: Copies(31), shift: 22, name: Bytes { items: [98] }, size: 4398046511104 }\n\
Create { session: 64, policy: Copies(3), shift: 24, name: Bytes { items: [99] }, size: 1024 }\n\
OpenDisk { session: 64, name: Bytes { items: [97] }, tag: Some(Bytes { items: [116] }) }\n\
OpenDisk { session: 64, name: Bytes { items: [98] }, tag: None }\n\
Read { session: 64, offset: 1073741824, length: 512 }\n\
Write { session: 64, offset: 512, length: 1048576, pattern: Step(255) }\n\
Write { session: 64, offset: 0, length: 512, pattern: Fill(0) }\n\
Snapshot { session: 64, tag: Bytes { items: [116] } }\n\
Clone { session: 64, base: Bytes { items: [97] }, tag: Bytes { items: [116] }, name: Bytes { items: [100] } }\n\
Delete { session: 64, name: Bytes { items: [97] }, tag: Some(Bytes { items: [116] }) }\n\
Delete { session: 64, name: Bytes { items: [97] }, tag: None }\n\
Check { session: 64 }\n\
Close { session: 64 }\n";

#[test]
fn reads_each_statement(rt: HostRuntime) -> Result<(), Fail> {
    assert!(rt; is_read_as(rt.alloc(), STATEMENTS, STATEMENTS_SAID)?);
    Ok(())
}

/// A script of one disk, with lines that say nothing, and no line feed behind its last line.
const ONE_DISK: &[u8] =
    b"cluster 1\n\n# a comment\n session  1 node 0\n1 vdi create -c 1 a 1M\n1 vdi open a\n\
1 vdi write 1K 512 fill 7\n1 vdi read 0 1024\n1 vdi close";

const ONE_DISK_SAID: &str = "Cluster { nodes: 1 }\n\
Session { session: 1, node: 0 }\n\
Create { session: 1, policy: Copies(1), shift: 22, name: Bytes { items: [97] }, size: 1048576 }\n\
OpenDisk { session: 1, name: Bytes { items: [97] }, tag: None }\n\
Write { session: 1, offset: 1024, length: 512, pattern: Fill(7) }\n\
Read { session: 1, offset: 0, length: 1024 }\n\
Close { session: 1 }\n";

#[test]
fn reads_a_script_of_one_disk(rt: HostRuntime) -> Result<(), Fail> {
    assert!(rt; is_read_as(rt.alloc(), ONE_DISK, ONE_DISK_SAID)?);
    Ok(())
}

/// Three nodes, of which one is failed, a fourth that joins, a session, and 9,000 losses of the phase: six lines.
const SO_FAR: &[u8] = b"cluster 3\nsession 1 node 0\nfail 1\njoin 3\nlose 9000\n\n";

/// The two parts of a row.
fn parts(row: &[u8]) -> (&[u8], &[u8]) {
    let mut fields = row.split(|byte| *byte == b';');
    match (fields.next(), fields.next()) {
        (Some(text), Some(answer)) => (text, answer),
        _ => (b"", b""),
    }
}

/// Whether the line of a row, behind those, is refused for the row's cause.
fn is_refused(alloc: Global, row: &[u8]) -> Result<bool, Fail> {
    let (line, answer) = parts(row);
    let [cause] = answer else {
        return Ok(false);
    };
    let found = bad_line(alloc, SO_FAR, line, 1)?;
    Ok(found == Some((7, cause.wrapping_sub(b'0'))))
}

/// How many rows are refused so, up to the first that isn't.
fn refused_rows(alloc: Global, rows: &[u8]) -> Result<u32, Fail> {
    let mut count = 0_u32;
    for row in rows.split(|byte| *byte == b'\n') {
        if !is_refused(alloc, row)? {
            return Ok(count);
        }
        count = count.wrapping_add(1);
    }
    Ok(count)
}

/// Lines of a cluster, each with the number of the cause for which it is refused.
const CLUSTER_LINES: &[u8] = b"vnodes 8;1\n\
cluster 3;1\n\
zone 1 2;1\n\
stop;1\n\
node lists;1\n\
node;1\n\
cluster inf;1\n\
dump all;1\n\
settle now;1\n\
session 0 node 0;3\n\
session 65 node 0;3\n\
session x node 0;2\n\
session 1 node 9;5\n\
session 2 nod 1;1\n\
session 2 node 64;3\n\
session 2 node 1;6\n\
session 2 node 4;6\n\
session 2 node 0 0;1\n\
fail;1\n\
fail x;2\n\
fail 64;3\n\
fail 1;6\n\
fail 2 2;1\n\
join 64;3\n\
join 0;5\n\
join 1;5\n\
join 3 3;5\n\
join 4 4;1\n\
reweight 1 0;6\n\
reweight 2;1\n\
reweight 2 0;3\n\
reweight 2 257;3\n\
reweight 2 1 1;1\n\
back 64;3\n\
back 0;6\n\
back 4;6\n\
back 1 1;1\n\
lose;1\n\
lose x;2\n\
lose 1001 2;1\n\
lose 1001;7\n\
lose 18446744073709551615;7\n\
lose 18446744073709551616;2";

#[test]
fn names_what_is_wrong_with_a_line_of_a_cluster(rt: HostRuntime) -> Result<(), Fail> {
    assert_eq!(rt; refused_rows(rt.alloc(), CLUSTER_LINES)?, 43);
    Ok(())
}

/// Requests, each with the number of the cause for which it is refused.
const REQUESTS: &[u8] = b"0 vdi close;3\n\
65 vdi close;3\n\
2 vdi close;6\n\
18446744073709551616 vdi close;2\n\
1x vdi close;1\n\
1;1\n\
1 vd close;1\n\
1 vdi;1\n\
1 vdi raed 0 512;1\n\
1 vdi close now;1\n\
1 vdi check now;1\n\
1\tvdi close;1\n\
1 vdi create gs;1\n\
1 vdi create gs 511;3\n\
1 vdi create gs 513;4\n\
1 vdi create gs 4194305M;3\n\
1 vdi create gs 512 512;1\n\
1 vdi create -c gs 1M;2\n\
1 vdi create -c 0 gs 1M;3\n\
1 vdi create -c 32 gs 1M;3\n\
1 vdi create -c 3:1 gs 1M;3\n\
1 vdi create -c 2:0 gs 1M;3\n\
1 vdi create -c 2:16 gs 1M;3\n\
1 vdi create -c 4:2:1 gs 1M;2\n\
1 vdi create -c : gs 1M;2\n\
1 vdi create -c 1 -c 1 gs 1M;1\n\
1 vdi create -z 11 gs 1M;3\n\
1 vdi create -z 25 gs 1M;3\n\
1 vdi create -z 12 gs 8G;3\n\
1 vdi create -z 12 -c 2 gs 4K;1\n\
1 vdi create -gs 1M;1\n\
1 vdi open;1\n\
1 vdi open -s gs;1\n\
1 vdi open -s -t gs;1\n\
1 vdi open gs hs;1\n\
1 vdi open g\x7fs;1\n\
1 vdi read 100 512;4\n\
1 vdi read 0 0;3\n\
1 vdi read 100 0;4\n\
1 vdi read 0 1048577;3\n\
1 vdi read 0 1049088;3\n\
1 vdi read 0 513;4\n\
1 vdi read 0 1k;2\n\
1 vdi read 17179869184G 512;2\n\
1 vdi read 0 512 512;1\n\
1 vdi write 0 512;1\n\
1 vdi write 0 512 full 256;1\n\
1 vdi write 0 512 fill x;2\n\
1 vdi write 0 512 fill 256;3\n\
1 vdi write 0 512 step 256;3\n\
1 vdi write 0 512 fill 1 1;1\n\
1 vdi snapshot t;1\n\
1 vdi snapshot -s;1\n\
1 vdi snapshot -s t u;1\n\
1 vdi clone -s t gs;1\n\
1 vdi clone gs hs;1\n\
1 vdi clone -s t gs hs is;1\n\
1 vdi delete;1\n\
1 vdi delete -s t;1\n\
1 vdi delete gs hs;1";

#[test]
fn names_what_is_wrong_with_a_request(rt: HostRuntime) -> Result<(), Fail> {
    assert_eq!(rt; refused_rows(rt.alloc(), REQUESTS)?, 60);
    Ok(())
}

/// Texts, whose line feeds are written `|`, each with its first bad line and the number of the cause.
const TEXTS: &[u8] = b"cluster info;11\n\
settle;11\n\
1 vdi close;11\n\
session 1 node 0;11\n\
back 1;11\n\
cluster;11\n\
cluster x;12\n\
cluster 0;13\n\
cluster 65 x;13\n\
cluster 3 4;11\n\
vnodes 257;13\n\
tries 1001;13\n\
limit 1000001;13\n\
zone 64 0;13\n\
zone 0 64;13\n\
zone 0;11\n\
zone 0 0 0;11\n\
vnodes 8|vnodes 8;21\n\
zone 0 1|zone 0 x;25\n\
|# c|  |vnodes 0;43\n\
cluster 1|# \xff;28\n\
x\xff;18\n\
cluster 1||#|x|y;41\n\
cluster 1|cluster 1;21\n\
cluster 1|session 1 node 1;26\n\
cluster 1|1 vdi close;26\n\
cluster 1|session 1 node 0|limit 5;31\n\
cluster 1|settle|vnodes 8;31\n\
cluster 1|join 1|fail 1|back 1|fail 1|fail 1;66\n\
cluster 2|fail 1|back 1|back 1;46\n\
cluster 1|session 1 node 0|lose 9999|settle|lose 10000|lose 1;67";

/// The text of a row.
fn text_of(alloc: Global, word: &[u8]) -> Result<Vec<u8>, NoMemory> {
    let mut text = Vec::new(alloc);
    for byte in word {
        text.push(if *byte == b'|' { b'\n' } else { *byte })?;
    }
    Ok(text)
}

/// Whether a row's line is the first bad one of its text, for the row's cause.
fn is_first_bad(alloc: Global, row: &[u8]) -> Result<bool, Fail> {
    let (word, answer) = parts(row);
    let [line, cause] = answer else {
        return Ok(false);
    };
    let text = text_of(alloc, word)?;
    let found = bad_line(alloc, text.as_slice(), b"", 0)?;
    let line = u32::from(line.wrapping_sub(b'0'));
    Ok(found == Some((line, cause.wrapping_sub(b'0'))))
}

#[test]
fn names_the_first_bad_line(rt: HostRuntime) -> Result<(), Fail> {
    let mut rows = 0_u32;
    for row in TEXTS.split(|byte| *byte == b'\n') {
        assert!(rt; is_first_bad(rt.alloc(), row)?, "row {rows}");
        rows = rows.wrapping_add(1);
    }
    assert_eq!(rt; rows, 31);
    Ok(())
}

/// Whether a line may stand just so often behind two others.
fn is_counted(alloc: Global, line: &[u8], most: u32) -> Result<bool, Fail> {
    let lines = b"cluster 1\nsession 1 node 0\n";
    if bad_line(alloc, lines, line, most)?.is_some() {
        return Ok(false);
    }
    let found = bad_line(alloc, lines, line, most.saturating_add(1))?;
    Ok(found == Some((most.saturating_add(3), 7)))
}

#[test]
fn counts_requests_to_the_limits(rt: HostRuntime) -> Result<(), Fail> {
    assert!(rt; is_counted(rt.alloc(), b"1 vdi close\n", 10_000)?);
    assert!(rt; is_counted(rt.alloc(), b"1 vdi read 0 1M\n", 256)?);
    assert!(rt; is_counted(rt.alloc(), b"1 vdi write 0 1M step 0\n", 64)?);
    Ok(())
}

#[test]
fn counts_checks_and_losses_to_the_limits(rt: HostRuntime) -> Result<(), Fail> {
    assert!(rt; is_counted(rt.alloc(), b"1 vdi check\n", 4)?);
    assert!(rt; is_counted(rt.alloc(), b"lose 1000\n", 10)?);
    Ok(())
}

/// The lines up to an open disk: two of its requests.
const OPENED: &[u8] = b"cluster 1\nsession 1 node 0\n1 vdi create -c 1 a 1M\n1 vdi open a\n";

/// All requests count, of whatever kind.
#[test]
fn counts_the_requests_of_each_kind(rt: HostRuntime) -> Result<(), Fail> {
    let read = b"1 vdi read 0 512\n";
    assert_eq!(rt; bad_line(rt.alloc(), OPENED, read, 9_998)?, None);
    assert_eq!(rt;
        bad_line(rt.alloc(), OPENED, read, 9_999)?,
        Some((10_003, 7))
    );
    Ok(())
}

/// Which requests are refused when they are made isn't asked of a line.
#[test]
fn reads_requests_in_any_order(rt: HostRuntime) -> Result<(), Fail> {
    let twice = b"1 vdi close\n1 vdi close\nx";
    assert_eq!(rt; bad_line(rt.alloc(), OPENED, twice, 1)?, Some((7, 1)));
    Ok(())
}

#[test]
fn says_which_line_is_bad(rt: HostRuntime) -> Result<(), Fail> {
    let fault = ScriptFault::BadLine {
        line: 3,
        cause: LineCause::Range,
    };
    assert_eq!(rt;
        format!(in rt.alloc(); "{fault}")?.as_str(),
        "line 3 is bad: Range"
    );
    Ok(())
}

#[test]
fn says_that_memory_is_short(rt: HostRuntime) -> Result<(), Fail> {
    let fault = ScriptFault::NoMemory;
    assert_eq!(rt; format!(in rt.alloc(); "{fault}")?.as_str(), "no memory");
    Ok(())
}
