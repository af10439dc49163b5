//! The parts of an object's bytes at a policy, worked out by hand.

use object_id::{Kind, Policy};
use strip_coding::{bytes_of_parts, part, part_size};

/// Two blocks: ones in the first half of the first and twos in the other, and a block of zeros.
fn two_blocks() -> [u8; 1024] {
    let mut bytes = [0; 1024];
    bytes[..256].fill(1);
    bytes[256..512].fill(2);
    bytes
}

// One and two are added to seven by 3 * 1 + 2 * 2; zeros to zero.
#[test]
fn has_a_strip_of_each_block(rt: HostRuntime) {
    let policy = Policy::Coded { d: 2, p: 1 };
    let bytes = two_blocks();
    let firsts = [1, 2, 7];
    for index in 0..3 {
        let mut strips = [9; 512];
        part(policy, Kind::Block, index, &bytes, &mut strips);
        let mut want = [0; 512];
        want[..256].fill(firsts[index as usize]);
        assert_eq!(rt; strips, want, "index {index}");
    }
    assert_eq!(rt; part_size(policy, Kind::Block, 1024), 512);
}

// The second data strip comes after the parity strip, and the first data strip is missing.
#[test]
fn joins_parts_by_their_indexes(rt: HostRuntime) {
    let policy = Policy::Coded { d: 2, p: 1 };
    let mut parts = [0; 1024];
    parts[..256].fill(7);
    parts[512..768].fill(2);
    let mut bytes = [9; 1024];
    bytes_of_parts(policy, Kind::Block, &[2, 1], &parts, &mut bytes);
    assert_eq!(rt; bytes, two_blocks());
}

// Whole copies and the inodes of coded disks aren't cut.
#[test]
fn leaves_copies_whole(rt: HostRuntime) {
    let copies = Policy::Copies(3);
    let mut whole = [0; 5];
    part(copies, Kind::Block, 0, &[3, 1, 4, 1, 5], &mut whole);
    assert_eq!(rt; whole, [3, 1, 4, 1, 5]);
    let mut bytes = [0; 5];
    bytes_of_parts(copies, Kind::Block, &[0], &whole, &mut bytes);
    assert_eq!(rt; bytes, [3, 1, 4, 1, 5]);

    let coded = Policy::Coded { d: 4, p: 2 };
    let mut whole = [0; 3];
    part(coded, Kind::Inode, 0, &[2, 7, 1], &mut whole);
    assert_eq!(rt; whole, [2, 7, 1]);
    let mut bytes = [0; 3];
    bytes_of_parts(coded, Kind::Inode, &[0], &whole, &mut bytes);
    assert_eq!(rt; bytes, [2, 7, 1]);
}
