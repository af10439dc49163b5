//! Each strip against that of `strip_coding`, decoding, worked parts, and a strip whose length isn't a multiple of 32.

use crate::calls::{bytes_of_parts, decode_block, encode_block, part};
use crate::sums::ByLanes;
use gf256::TooFewStrips;
use object_id::{Kind, Policy};
use strip_coding::{ByteByByte, StripSums};

/// Bytes that differ from block to block and from strip to strip.
fn sample() -> [u8; 512] {
    let mut block = [0; 512];
    for k in 0..512 {
        block[k] = (k * 89 % 251) as u8;
    }
    block
}

// The strips of `strip_coding`, which are tested against those of a plain program.
#[test]
fn makes_each_strip(rt: HostRuntime) {
    let block = sample();
    for d in [2, 4, 8, 16] {
        let mut strip = [0; 256];
        let strip = &mut strip[..512 / d as usize];
        let mut other = [1; 256];
        let other = &mut other[..512 / d as usize];
        for i in 0..31 {
            encode_block(d, &block, i, strip);
            strip_coding::encode_block(d, &block, i, other);
            assert_eq!(rt; &*strip, &*other, "strip {i} of {d}");
        }
    }
}

// From four parity strips, and not if one of them is given twice.
#[test]
fn decodes_without_data_strips(rt: HostRuntime) {
    let block = sample();
    let mut given = [0; 512];
    for place in 0..4 {
        let start = place as usize * 128;
        encode_block(4, &block, 27 + place, &mut given[start..start + 128]);
    }
    let mut decoded = [9; 512];
    assert_eq!(rt;
        decode_block(4, &[27, 28, 27, 30], &given, &mut decoded),
        Err(TooFewStrips)
    );
    assert_eq!(rt; decoded, [9; 512]);
    assert_eq!(rt;
        decode_block(4, &[27, 28, 29, 30], &given, &mut decoded),
        Ok(())
    );
    assert_eq!(rt; decoded, block);
}

// Two blocks, of which the second is zeros. The second data strip comes after the parity strip, and the first is missing.
#[test]
fn joins_parts_by_their_indexes(rt: HostRuntime) {
    let policy = Policy::Coded { d: 2, p: 1 };
    let mut bytes = [0; 1024];
    bytes[..256].fill(1);
    bytes[256..512].fill(2);
    let mut parts = [9; 1024];
    part(policy, Kind::Block, 2, &bytes, &mut parts[..512]);
    part(policy, Kind::Block, 1, &bytes, &mut parts[512..]);
    let mut want = [0; 1024];
    want[..256].fill(7);
    want[512..768].fill(2);
    assert_eq!(rt; parts, want);
    let mut joined = [9; 1024];
    bytes_of_parts(policy, Kind::Block, &[2, 1], &parts, &mut joined);
    assert_eq!(rt; joined, bytes);
}

// Strips of 45 bytes, of which 13 are left after 32.
#[test]
fn sums_what_is_left(rt: HostRuntime) {
    let strips = sample();
    let mut sum = [9; 45];
    ByLanes::combine(&[0x8f, 3, 0, 0xff], &[2, 0, 5, 10], &strips, &mut sum);
    let mut other = [7; 45];
    ByteByByte::combine(&[0x8f, 3, 0, 0xff], &[2, 0, 5, 10], &strips, &mut other);
    assert_eq!(rt; sum, other);
}
