//! Ids and policies by their layout. Those that were drawn at random were answered by a program in Python that was written apart from this
//! one, from the layout alone.

use object_id::{BadPolicy, Kind, Oid, OidFault, Policy, Vid};

#[test]
fn reads_the_layout(rt: HostRuntime) {
    assert_eq!(rt;
        Oid::from_u64(0x0010_0000_0010_0000),
        Err(OidFault::ReservedBits)
    );
    assert_eq!(rt;
        Oid::from_u64(0x8000_0000_0000_0000),
        Err(OidFault::ZeroVid)
    );
    match Oid::from_u64(0x00ff_ffff_000f_ffff) {
        Ok(oid) => {
            assert_eq!(rt; oid.vid(), Vid(0xff_ffff));
            assert_eq!(rt; oid.index(), 1_048_575);
            assert_eq!(rt; oid.kind(), Kind::Block);
        }
        Err(_) => assert!(rt; false, "the greatest data object is an id"),
    }
    assert_eq!(rt;
        Oid::object(Vid(0x01_ec8c), 0).as_u64(),
        0x0001_ec8c_0000_0000
    );
    assert_eq!(rt; Oid::inode(Vid(0x01_ec8c)).as_u64(), 0x8001_ec8c_0000_0000);
}

#[test]
fn ids_of_disks_end_at_24_bits(rt: HostRuntime) {
    assert!(rt; !Vid(0).is_valid() && Vid(1).is_valid());
    assert!(rt; Vid(16_777_215).is_valid() && !Vid(16_777_216).is_valid());
}

#[test]
fn reads_policy_bytes(rt: HostRuntime) {
    let cases = [
        (0, 1, Ok(Policy::Copies(1))),
        (0, 31, Ok(Policy::Copies(31))),
        (0x11, 3, Ok(Policy::Coded { d: 2, p: 1 })),
        (0x22, 6, Ok(Policy::Coded { d: 4, p: 2 })),
        (0x8f, 31, Ok(Policy::Coded { d: 16, p: 15 })),
        (0, 0, Err(BadPolicy)),
        (0, 32, Err(BadPolicy)),
        (0x22, 7, Err(BadPolicy)),
        (0x20, 4, Err(BadPolicy)),
        (0x31, 7, Err(BadPolicy)),
    ];
    for (byte, copies, want) in cases {
        assert_eq!(rt; Policy::from_byte(byte, copies), want, "at {byte} {copies}");
    }
    let coded = Policy::Coded { d: 4, p: 2 };
    assert_eq!(rt; coded.to_byte(), 0x22);
    assert_eq!(rt;
        (coded.wanted(Kind::Block), coded.wanted(Kind::Inode)),
        (6, 3)
    );
    assert_eq!(rt; (coded.need(Kind::Block), coded.need(Kind::Inode)), (4, 1));
}

#[test]
fn policies_end_at_their_limits(rt: HostRuntime) {
    for copies in [1, 2, 31] {
        assert!(rt; Policy::Copies(copies).is_valid(), "{copies} copies");
    }
    for copies in [0, 32, 255] {
        assert!(rt; !Policy::Copies(copies).is_valid(), "{copies} copies");
    }
    for d in [2, 4, 8, 16] {
        assert!(rt;
            Policy::Coded { d, p: 1 }.is_valid() && Policy::Coded { d, p: 15 }.is_valid(),
            "{d} strips"
        );
        assert!(rt;
            !Policy::Coded { d, p: 0 }.is_valid() && !Policy::Coded { d, p: 16 }.is_valid(),
            "{d} strips"
        );
    }
    for d in [0, 1, 3, 6, 15, 17, 32] {
        assert!(rt; !Policy::Coded { d, p: 2 }.is_valid(), "{d} strips");
    }
}

#[test]
fn reads_drawn_ids(rt: HostRuntime) {
    let cases = [
        (0x800f_04cc_0000_0000, Ok((Kind::Inode, Vid(0x0f04cc), 0))),
        (
            0x003f_da33_0004_8cd5,
            Ok((Kind::Block, Vid(0x3fda33), 298197)),
        ),
        (
            0x0059_3fce_0007_dccb,
            Ok((Kind::Block, Vid(0x593fce), 515275)),
        ),
        (
            0x0037_9afc_000f_4193,
            Ok((Kind::Block, Vid(0x379afc), 999827)),
        ),
        (0x8077_cd02_0000_0000, Ok((Kind::Inode, Vid(0x77cd02), 0))),
        (
            0x00a9_0ab2_0008_96bd,
            Ok((Kind::Block, Vid(0xa90ab2), 562877)),
        ),
        (
            0x0024_e0fe_0007_93e9,
            Ok((Kind::Block, Vid(0x24e0fe), 496617)),
        ),
        (
            0x0095_0223_000b_df0a,
            Ok((Kind::Block, Vid(0x950223), 777994)),
        ),
        (
            0x0041_c816_0000_09ca,
            Ok((Kind::Block, Vid(0x41c816), 2506)),
        ),
        (
            0x00c9_007f_000f_ad9d,
            Ok((Kind::Block, Vid(0xc9007f), 1027485)),
        ),
        (0x0010_a307_040e_8bf0, Err(OidFault::ReservedBits)),
        (0x80f8_9cbc_0000_0100, Err(OidFault::ReservedBits)),
        (0x0076_51c4_1000_a7b1, Err(OidFault::ReservedBits)),
        (0x008c_81e0_0405_7d36, Err(OidFault::ReservedBits)),
        (0x0022_fcf4_200b_f893, Err(OidFault::ReservedBits)),
        (0x75a2_b52a_1bf4_f174, Err(OidFault::ReservedBits)),
        (0xce27_4af0_4082_e88d, Err(OidFault::ReservedBits)),
        (0xe0e8_3507_d54f_1385, Err(OidFault::ReservedBits)),
    ];
    for (raw, want) in cases {
        let read = Oid::from_u64(raw).map(|oid| (oid.kind(), oid.vid(), oid.index()));
        assert_eq!(rt; read, want, "at {raw}");
    }
}

#[test]
fn reads_drawn_policies(rt: HostRuntime) {
    // Behind each policy: on how many nodes a data object and an inode are kept, and how many of them a read needs.
    let cases = [
        (0x22, 6, Ok((Policy::Coded { d: 4, p: 2 }, (6, 3), (4, 1)))),
        (
            0x8f,
            31,
            Ok((Policy::Coded { d: 16, p: 15 }, (31, 16), (16, 1))),
        ),
        (0x00, 3, Ok((Policy::Copies(3), (3, 3), (1, 1)))),
        (0x41, 9, Ok((Policy::Coded { d: 8, p: 1 }, (9, 2), (8, 1)))),
        (0x11, 3, Ok((Policy::Coded { d: 2, p: 1 }, (3, 2), (2, 1)))),
        (0x00, 0, Err(BadPolicy)),
        (0x11, 145, Err(BadPolicy)),
        (0x8f, 32, Err(BadPolicy)),
        (0x41, 3, Err(BadPolicy)),
        (0x1f, 32, Err(BadPolicy)),
        (0xd9, 1, Err(BadPolicy)),
        (0x00, 227, Err(BadPolicy)),
        (0x11, 0, Err(BadPolicy)),
        (0x22, 1, Err(BadPolicy)),
        (0x8f, 201, Err(BadPolicy)),
    ];
    for (byte, copies, want) in cases {
        let read = Policy::from_byte(byte, copies);
        assert_eq!(rt;
            read,
            want.map(|(policy, _, _)| policy),
            "at {byte} {copies}"
        );
        if let Ok((policy, wanted, need)) = want {
            assert_eq!(rt; policy.to_byte(), byte);
            assert_eq!(rt;
                (policy.wanted(Kind::Block), policy.wanted(Kind::Inode)),
                wanted
            );
            assert_eq!(rt; (policy.need(Kind::Block), policy.need(Kind::Inode)), need);
        }
    }
}
