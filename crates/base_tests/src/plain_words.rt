//! What the words that everything is spelled in come to: hashes, names, numbers with their limits, spans, and bytes that are read or laid over.

use object_id::{
    Bytes, FnvHasher, NodeId, fnv1a, is_name, is_session, is_span, is_tag, is_weight, is_zone,
    lay_over, u16_at, u32_at, u64_at,
};
use std::test::Fail;

// The published values of the hash's authors for these texts.
#[test]
fn hashes_published_texts(rt: HostRuntime) {
    assert_eq!(rt; fnv1a(b""), 0xcbf2_9ce4_8422_2325);
    assert_eq!(rt; fnv1a(b"a"), 0xaf63_dc4c_8601_ec8c);
    assert_eq!(rt; fnv1a(b"foobar"), 0x8594_4171_f739_67e8);
}

#[test]
fn hashes_pieces_as_a_whole(rt: HostRuntime) {
    let mut hash = FnvHasher::new();
    hash.write(b"foo");
    hash.write(b"");
    hash.write(b"bar");
    assert_eq!(rt; hash.finish(), 0x8594_4171_f739_67e8);
}

#[test]
fn names_end_at_255_bytes(rt: HostRuntime) -> Result<(), Fail> {
    assert!(rt; !is_name(b""));
    assert!(rt; is_name(&[1]) && is_name(&[255; 255]));
    assert!(rt; !is_name(&[255; 256]));
    assert!(rt; !is_name(b"a\0b") && !is_name(b"ab\0"));

    let alloc = rt.alloc();
    assert!(rt; is_tag(&None));
    assert!(rt; is_tag(&Some(Bytes::from_slice(alloc, b"t1")?)));
    assert!(rt; !is_tag(&Some(Bytes::new(alloc))));
    Ok(())
}

#[test]
fn numbers_end_at_their_limits(rt: HostRuntime) {
    assert!(rt; NodeId(0).is_valid() && NodeId(63).is_valid());
    assert!(rt; !NodeId(64).is_valid() && !NodeId(u32::MAX).is_valid());
    assert!(rt; is_zone(0) && is_zone(63) && !is_zone(64));
    assert!(rt; !is_session(0) && is_session(1) && is_session(64) && !is_session(65));
    assert!(rt; !is_weight(0) && is_weight(1) && is_weight(256) && !is_weight(257));
}

#[test]
fn spans_are_whole_blocks(rt: HostRuntime) {
    assert!(rt; is_span(0, 512) && is_span(512, 1_048_576));
    assert!(rt; is_span(0xffff_ffff_ffff_fe00, 1_024));
    assert!(rt; !is_span(256, 512) && !is_span(0, 768));
    assert!(rt; !is_span(0, 0) && !is_span(0, 1_049_088));
}

#[test]
fn reads_the_lowest_byte_first(rt: HostRuntime) {
    let bytes = [1, 2, 3, 4, 5, 6, 7, 8, 9];
    assert_eq!(rt; u16_at(&bytes, 0), 0x0201);
    assert_eq!(rt; u32_at(&bytes, 1), 0x0504_0302);
    assert_eq!(rt; u64_at(&bytes, 1), 0x0908_0706_0504_0302);
}

#[test]
fn lays_a_piece_over(rt: HostRuntime) {
    let mut bytes = [1, 2, 3, 4, 5];
    lay_over(&mut bytes, 2, &[8, 9]);
    assert_eq!(rt; bytes, [1, 2, 8, 9, 5]);
}
