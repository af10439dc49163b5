//! Inodes whose bytes and answers come from outside, and what no clause says.

use inode::{Inode, InodeFault, an_inode_is_as_long_as_its_table, entries_in};
use object_id::{Policy, VdiSpec, Vid};
use std::alloc::Global;
use std::test::*;

// A row: how many bytes there are; those that aren't 0, each run with its place, in hexadecimal; what they are read as:
// name and tag in hexadecimal, size, copies or strips, shift, snap_id, id, parent and the table, or the refusal. Before an
// answer `=` says that the bytes are the spelling of what is read, `~` that they aren't. The rows were drawn at random and
// answered by a program in Python that was written apart from this one, from the layout alone.
const INODES: &[u8] = b"0~ShortInode\n\
4663 0:53 537:82 554:0c0dfe0000000ef5e9~ShortInode\n\
4663 0:2740 537:04 554:130d4f000000eefb19~ShortInode\n\
4668 0:61 537:02000010 552:4e001610c50000005f981e~BadSize\n\
4668 0:3122 537:f801 554:1f11f20000003cb206 4667:01~BadEntry\n\
4672 0:7466 537:16 554:1f0c0c0000000e97e0 4668:0e97e0=7466 - 5632 31 12 12 14718734 0 0 14718734\n\
4672 0:31 537:5205 552:2e001219b1000000662311 4664:662311~BadShift\n\
4672 0:2f47 537:68ff 552:160008171f000000c77788 4664:c77788=2f47 - 16738304 2:6 23 31 8943559 0 8943559 0\n\
4669 0:54 256:4e 537:9a06 552:4a001214b40000005885fa 4668:01~54 4e 432640 8:10 20 180 16418136 0 0\n\
4672 0:497e 537:9e02 554:0d19fe000000c726c10035b8bb 4668:8d877f~BadShift\n\
4671 0:29 537:7221 552:43000b1595000000dfa346 4664:4d34c700dfa346~ShortInode\n\
4669 0:6d74 537:22 554:110ffa000000bcade0003f757b 4664:bcade00001~6d74 - 8704 17 15 250 14724540 8090943 14724540\n\
4673 0:75 537:14 552:2500090c14000000d34704 4664:d3470400c38c080001~75 - 5120 4:5 12 20 280531 0 280531 560323\n\
4668 0:3c 512:01 537:9220 554:0e18f8000000b98681 700:09 4664:d47739~3c - 2134528 14 24 248 8488633 0 3766228\n\
4672 0:7447 537:da 554:160fff000000eaa48f00ec75d8 4664:17a72200eaa48f=7447 - 55808 22 15 255 9413866 14185964 2270999 9413866\n\
4668 0:3c7b4c3e5b2d48 537:0a 552:4000110cb100000069351400f36358 4664:693514~BadPolicy\n\
4685 0:394f 537:2404 552:43000b10580000007f7756 4664:7f77560014952a 4684:01~394f - 271360 8:3 16 88 5666687 0 5666687 2790676 0 0 0\n\
4684 0:77 537:ae13 554:07123a0000006c4250 4668:911195 4676:8eb33c006c425001~BadEntry\n\
4685 0:75 537:26ff04 552:45000d18d8000000e343d4 4664:e343d400e343d4 4684:01~75 - 83830272 8:5 24 216 13911011 0 13911011 13911011 0 0 0\n\
4672 0:7b5c 256:285d 537:dc02 552:2c0010116a 563:01777006 4664:f7da9e00f48eef~BadSize\n\
4672 0:2625233f31216f 537:e003 552:8e001e199c000000e8d562 4664:469ae1007cb4f3~BadShift\n\
4684 0:61 537:3801 552:4900110e2000000001af44 4664:01af440001af44007bd904 4680:c69b5a=61 - 79872 8:9 14 32 4501249 0 4501249 4501249 317819 0 5938118\n\
4684 0:4062 537:5804 554:03105a00000093dc66 4664:93dc660093dc6600aa6f5d0093dc660093dc66=4062 - 284672 3 16 90 6741139 0 6741139 6741139 6123434 6741139 6741139\n\
4684 0:33 537:1801 552:0100040e820000000203e40073a30c 4664:0203e4000203e400addb33000203e4~BadPolicy\n\
4684 0:25 512:01 537:b02901 552:480010165a00000080bb2700cdda3a 700:09 4672:80bb27007e3715~25 - 19509248 8:8 22 90 2603904 3857101 0 0 2603904 1390462 0\n\
4684 0:652c 256:413b572a3f4f7c 537:4e 554:0d0c980000000eef5e 4664:80e9f1 4672:afd5c2000eef5e=652c 413b572a3f4f7c 19968 13 12 152 6221582 0 15853952 0 12768687 6221582 0\n\
4824 0:2f51 537:26e204 554:141567 563:01 4664:e4f852 4672:c9dd4800842124 4684:c9dd480010c7bb00bc936b00c5a533 4708:c9dd4800c9dd4800e513e6 4728:c9dd4800c9dd4800c9dd48 4744:c9dd4800dff5c00056dd6000c9dd48 4764:c9dd48 4772:dccc1e 4784:c9dd48 4796:648a6e00c9dd4800c9dd4800c9dd48 4816:c9dd48~BadSize\n\
4824 0:376f 537:387202 554:121408000000784af000c9cbd1 4672:394ac900784af000888b7800dbc9bd 4696:43098700784af000e4d43f00784af000784af000784af0008e80fb 4732:e8798a00b1f26c0078490c 4756:c915a4 4768:784af000784af0 4780:36446700784af0 4792:69b97d00111ac0 4804:784af000784af0 4816:dbfdb600d19bc901~BadEntry\n\
4824 0:6353264642762a 537:a213 552:8a001a0fda00000006dd9b007d82b7 4668:06dd9b0006dd9b 4680:5372580006dd9b000c4b06 4696:e37808 4708:06dd9b0006dd9b00e86d370006dd9b0006dd9b 4732:06dd9b0006dd9b007f9a040006dd9b0089b0da00b65659 4772:d3049c00375402008ce5290006dd9b0006dd9b 4804:06dd9b0006dd9b00e8354b=6353264642762a - 1286656 16:10 15 218 10214662 12026493 0 10214662 10214662 0 5796435 10214662 412428 0 555235 0 0 10214662 10214662 3632616 10214662 10214662 0 10214662 10214662 301695 10214662 14332041 5854902 0 0 0 0 10224851 152631 2745740 10214662 10214662 0 0 0 10214662 10214662 4929000 0 0\n\
4672 0:702b 256:79797979797979797979797979797979797979797979797979797979797979797979797979797979797979797979797979797979797979797979797979797979797979797979797979797979797979797979797979797979797979797979797979797979797979797979797979797979797979797979797979797979797979797979797979797979797979797979797979797979797979797979797979797979797979797979797979797979797979797979797979797979797979797979797979797979797979797979797979797979797979797979797979797979797979797979797979797979797979797979797979797979797979797979797979797979 537:80 552:4f00170e6d0000003782a9 4668:3782a9~NameNotEnded\n\
4672 0:2670 256:79797979797979797979797979797979797979797979797979797979797979797979797979797979797979797979797979797979797979797979797979797979797979797979797979797979797979797979797979797979797979797979797979797979797979797979797979797979797979797979797979797979797979797979797979797979797979797979797979797979797979797979797979797979797979797979797979797979797979797979797979797979797979797979797979797979797979797979797979797979797979797979797979797979797979797979797979797979797979797979797979797979797979797979797979797979 537:1a 552:8600160caa0000003210ed 4668:3210ed~NameNotEnded\n\
4672 0:78787878787878787878787878787878787878787878787878787878787878787878787878787878787878787878787878787878787878787878787878787878787878787878787878787878787878787878787878787878787878787878787878787878787878787878787878787878787878787878787878787878787878787878787878787878787878787878787878787878787878787878787878787878787878787878787878787878787878787878787878787878787878787878787878787878787878787878787878787878787878787878787878787878787878787878787878787878787878787878787878787878787878787878787878787878 537:460a 552:2a000e1341000000b92fff00b6c1fe 4664:76e681~NameNotEnded\n\
4684 0:7c56 256:30527d296d78513e634a595a2c50686d2c7e284a30683c3e424047317e2d224b3d7d557737696144633b234b34222c5541472f2c7421642d7e23282c547921697c39236f334b292267364c46402a2a672145243a7528506d69682d6d6c2c616f4c77506f272f63586e6f75766b47227c372b227140295b53635240454e674e7a576b737d60482a3e43533e31456c22772136734473466c5e2d3f2c25623c2c4e516e3072787a276c59303f3a5b6875232f623f3c6461302f77796a4b7b2236756752232d622f6e605f6a5a73287b634922584b38237d465d6a542b66763a6c7527765e293f596b77427d523f5342455a506f7379342b6e776059527b404064 537:2204 552:23000510780000009cf06d00f6ad18 4672:fdab8c 4680:9cf06d~BadPolicy";

/// The inode of a disk `a` of one MiB on one node.
const DISK_A: &[u8] = b"4668 0:61 536:0000100000000000 552:00000116 556:010000008cec0100";

/// That inode with the tag `monday`, which is 6d 6f 6e 64 61 79 behind the 256 bytes of the name.
const DISK_A_WITH_TAG: &[u8] =
    b"4668 0:61 256:6d6f6e646179 536:0000100000000000 552:00000116 556:010000008cec0100";

// Inodes worked by hand: that of the disk `a`, then with one byte less, with half a header, and with a shift of 11; then one
// in which everything is wrong, and what is told is mended from row to row.
const MENDED: &[u8] =
    b"4668 0:61 536:0000100000000000 552:00000116 556:010000008cec0100=61 - 1048576 1 22 1 126092 0 0\n\
4667 0:61 536:0000100000000000 552:00000116 556:010000008cec0100~ShortInode\n\
4663 0:61 536:0000100000000000 552:00000116 556:010000008cec0100~ShortInode\n\
4668 0:61 536:0000100000000000 552:0000010b 556:010000008cec0100~BadShift\n\
4672 0:78787878787878787878787878787878787878787878787878787878787878787878787878787878787878787878787878787878787878787878787878787878787878787878787878787878787878787878787878787878787878787878787878787878787878787878787878787878787878787878787878787878787878787878787878787878787878787878787878787878787878787878787878787878787878787878787878787878787878787878787878787878787878787878787878787878787878787878787878787878787878787878787878787878787878787878787878787878787878787878787878787878787878787878787878787878 536:01 552:01 555:0b 4667:01~NameNotEnded\n\
4672 0:787878787878787878787878787878787878787878787878787878787878787878787878787878787878787878787878787878787878787878787878787878787878787878787878787878787878787878787878787878787878787878787878787878787878787878787878787878787878787878787878787878787878787878787878787878787878787878787878787878787878787878787878787878787878787878787878787878787878787878787878787878787878787878787878787878787878787878787878787878787878787878787878787878787878787878787878787878787878787878787878787878787878787878787878787878 536:01 552:01 555:0b 4667:01~BadShift\n\
4672 0:78 536:01 552:01 555:0c 4667:01~BadPolicy\n\
4672 0:78 536:01 554:03 555:0c 4667:01~BadSize\n\
4672 0:78 537:30 554:03 555:0c 4667:01~BadSize\n\
4672 0:78 537:30 554:03 555:0c 560:07 4667:01~ShortInode\n\
4672 0:78 537:20 554:03 555:0c 560:07 4667:01~BadEntry\n\
4672 0:78 537:20 554:03 555:0c 560:07=78 - 8192 3 12 0 7 0 0 0";

fn digit(letter: u8) -> u8 {
    if letter <= b'9' {
        letter.wrapping_sub(b'0')
    } else {
        letter.wrapping_sub(b'a').wrapping_add(10)
    }
}

fn number_of(digits: &[u8]) -> usize {
    let mut number = 0usize;
    for letter in digits {
        number = number
            .wrapping_mul(10)
            .wrapping_add(usize::from(digit(*letter)));
    }
    number
}

/// What stands before a letter, and what stands behind it.
fn cut(text: &[u8], separator: u8) -> (&[u8], &[u8]) {
    for (place, letter) in text.iter().enumerate() {
        if *letter == separator {
            return (&text[..place], &text[place + 1..]);
        }
    }
    (text, b"")
}

/// Lays a run's bytes from its place on.
fn lay(bytes: &mut [u8], first: usize, digits: &[u8]) {
    let mut place = first;
    for pair in digits.chunks_exact(2) {
        if let ([high, low], Some(byte)) = (pair, bytes.get_mut(place)) {
            *byte = digit(*high).wrapping_mul(16).wrapping_add(digit(*low));
        }
        place = place.wrapping_add(1);
    }
}

/// The bytes that a row says: their number, then runs.
fn bytes_of(alloc: Global, words: &[u8]) -> Result<Vec<u8>, Fail> {
    let (count, runs) = cut(words, b' ');
    let mut bytes = Vec::new(alloc);
    for _ in 0..number_of(count) {
        bytes.push(0)?;
    }
    for run in runs.split(|letter| *letter == b' ') {
        let (place, digits) = cut(run, b':');
        lay(bytes.as_mut_slice(), number_of(place), digits);
    }
    Ok(bytes)
}

fn text_of(alloc: Global, bytes: &[u8]) -> Result<String, Fail> {
    let mut text = String::new(alloc);
    if bytes.is_empty() {
        text.push('-')?;
    }
    for byte in bytes {
        text.push_str(format!(in alloc; "{byte:02x}")?.as_str())?;
    }
    Ok(text)
}

fn policy_text(alloc: Global, policy: Policy) -> Result<String, Fail> {
    Ok(match policy {
        Policy::Copies(copies) => format!(in alloc; "{copies}")?,
        Policy::Coded { d, p } => format!(in alloc; "{d}:{p}")?,
    })
}

fn names_text(alloc: Global, inode: &Inode) -> Result<String, Fail> {
    let name = text_of(alloc, inode.name())?;
    let tag = text_of(alloc, inode.tag())?;
    Ok(format!(in alloc; "{name} {tag}")?)
}

fn spec_text(alloc: Global, spec: VdiSpec) -> Result<String, Fail> {
    let policy = policy_text(alloc, spec.policy)?;
    Ok(format!(in alloc; "{} {policy} {}", spec.size, spec.shift)?)
}

fn table_text(alloc: Global, inode: &Inode) -> Result<String, Fail> {
    let mut text = String::new(alloc);
    for entry in inode.entries() {
        text.push_str(format!(in alloc; " {entry}")?.as_str())?;
    }
    Ok(text)
}

fn inode_text(alloc: Global, inode: &Inode) -> Result<String, Fail> {
    let names = names_text(alloc, inode)?;
    let spec = spec_text(alloc, inode.spec())?;
    let table = table_text(alloc, inode)?;
    let (snap_id, vid, parent) = (inode.snap_id(), inode.vid().0, inode.parent());
    Ok(format!(in alloc; "{names} {spec} {snap_id} {vid} {parent}{table}")?)
}

/// What bytes are read as, and whether they are its spelling.
fn answer_of(alloc: Global, bytes: &[u8]) -> Result<(bool, String), Fail> {
    match Inode::from_bytes(alloc, bytes) {
        Ok(inode) => {
            let spelled = inode.to_bytes(alloc)?;
            Ok((spelled.as_slice() == bytes, inode_text(alloc, &inode)?))
        }
        Err(fault) => Ok((false, format!(in alloc; "{fault:?}")?)),
    }
}

fn agrees(alloc: Global, row: &[u8]) -> Result<bool, Fail> {
    let (words, text) = cut(row, b'=');
    let is_spelling = !text.is_empty();
    let (words, text) = if is_spelling {
        (words, text)
    } else {
        cut(row, b'~')
    };
    let bytes = bytes_of(alloc, words)?;
    let (spelled, answer) = answer_of(alloc, bytes.as_slice())?;
    Ok(spelled == is_spelling && answer.as_bytes() == text)
}

/// The first row whose answer is another, from 0.
fn first_wrong(alloc: Global, rows: &[u8]) -> Result<Option<usize>, Fail> {
    for (place, row) in rows.split(|letter| *letter == b'\n').enumerate() {
        if !agrees(alloc, row)? {
            return Ok(Some(place));
        }
    }
    Ok(None)
}

#[test]
fn reads_drawn_inodes(rt: HostRuntime) -> Result<(), Fail> {
    assert_eq!(rt; first_wrong(rt.alloc(), INODES)?, None);
    Ok(())
}

#[test]
fn refuses_in_order(rt: HostRuntime) -> Result<(), Fail> {
    assert_eq!(rt; first_wrong(rt.alloc(), MENDED)?, None);
    Ok(())
}

/// The inode of a disk `a` of one MiB on one node.
fn disk_a(alloc: Global) -> Result<Inode, Fail> {
    let spec = VdiSpec {
        size: 1 << 20,
        policy: Policy::Copies(1),
        shift: 22,
    };
    Ok(Inode::new(alloc, b"a", Vid(0x01_ec8c), 1, None, spec)?)
}

/// Whether a row has an inode's bytes.
fn is_spelled_as(alloc: Global, inode: &Inode, row: &[u8]) -> Result<bool, Fail> {
    let want = bytes_of(alloc, row)?;
    let bytes = inode.to_bytes(alloc)?;
    Ok(bytes.as_slice() == want.as_slice())
}

#[test]
fn spells_a_new_inode(rt: HostRuntime) -> Result<(), Fail> {
    let inode = disk_a(rt.alloc())?;
    assert!(rt; is_spelled_as(rt.alloc(), &inode, DISK_A)?);
    Ok(())
}

/// The entries of a disk `b` once the second is set, a copy of its inode, and the inode once all three are set.
fn tables_of_b(alloc: Global) -> Result<([u32; 3], Inode, Inode), Fail> {
    let spec = VdiSpec {
        size: 3 << 12,
        policy: Policy::Coded { d: 4, p: 2 },
        shift: 12,
    };
    let mut inode = Inode::new(alloc, b"b", Vid(9), 2, Some(Vid(7)), spec)?;
    inode.set_entry(1, Vid(9));
    let entries = [inode.entry(0), inode.entry(1), inode.entry(2)];
    let copy = inode.copy(alloc)?;
    inode.set_entries(&[7, 0, 7]);
    Ok((entries, copy, inode))
}

/// Whether an inode is printed as this text.
fn is_printed_as(alloc: Global, inode: Inode, text: &str) -> Result<bool, Fail> {
    Ok(inode_text(alloc, &inode)?.as_str() == text)
}

#[test]
fn keeps_its_table(rt: HostRuntime) -> Result<(), Fail> {
    let (entries, copy, inode) = tables_of_b(rt.alloc())?;
    assert_eq!(rt; entries, [0, 9, 0]);
    assert!(rt; is_printed_as(rt.alloc(), copy, "62 - 12288 4:2 12 2 9 7 0 9 0")?);
    assert!(rt; is_printed_as(rt.alloc(), inode, "62 - 12288 4:2 12 2 9 7 7 0 7")?);
    Ok(())
}

/// The disk `a` with its tag.
fn disk_a_with_tag(alloc: Global) -> Result<Inode, Fail> {
    let mut inode = disk_a(alloc)?;
    inode.set_tag(alloc, b"monday")?;
    Ok(inode)
}

#[test]
fn writes_its_tag_behind_the_name(rt: HostRuntime) -> Result<(), Fail> {
    let inode = disk_a_with_tag(rt.alloc())?;
    assert_eq!(rt;
        (inode.name(), inode.tag()),
        (b"a".as_slice(), b"monday".as_slice())
    );
    assert!(rt; is_spelled_as(rt.alloc(), &inode, DISK_A_WITH_TAG)?);
    Ok(())
}

// Five bytes stand where the table is: the first entry is whole, the second has its lowest byte, and the third none.
#[test]
fn reads_entries_of_short_bytes(rt: HostRuntime) -> Result<(), Fail> {
    let alloc = rt.alloc();
    let bytes = bytes_of(alloc, b"4669 4664:0102030405")?;
    let entries = entries_in(alloc, 3, bytes.as_slice())?;
    assert_eq!(rt; entries.as_slice(), [0x0403_0201, 5, 0].as_slice());
    an_inode_is_as_long_as_its_table();
    Ok(())
}

/// What the faults say, a line each.
fn faults_text(alloc: Global) -> Result<String, Fail> {
    let mut text = String::new(alloc);
    for fault in FAULTS {
        text.push_str(format!(in alloc; "{fault}\n")?.as_str())?;
    }
    Ok(text)
}

const FAULTS: [InodeFault; 7] = [
    InodeFault::ShortInode,
    InodeFault::NameNotEnded,
    InodeFault::BadShift,
    InodeFault::BadPolicy,
    InodeFault::BadSize,
    InodeFault::BadEntry,
    InodeFault::NoMemory,
];

const FAULTS_TEXT: &str = "the inode isn't whole\n\
a name or tag has no end\n\
the shift isn't 12 to 24\n\
the policy isn't one\n\
the size or the id isn't one\n\
an entry is no disk's id\n\
no memory\n";

#[test]
fn says_why_bytes_are_no_inode(rt: HostRuntime) -> Result<(), Fail> {
    assert_eq!(rt; faults_text(rt.alloc())?.as_str(), FAULTS_TEXT);
    Ok(())
}
