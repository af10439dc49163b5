//! Strips of a block against those of a plain program, and decoding from any of them.
ghost use Rattle.std.specs.Prelude.{◌<◌};

use gf256::TooFewStrips;
use object_id::{TARGETS_MAX, fnv1a};
use strip_coding::{choice_laws, decode_block, encode_block};

/// Bytes without a pattern that coding could keep.
fn sample() -> [u8; 512] {
    let mut block = [0; 512];
    for k in 0..512 {
        let place = k as u32;
        block[k] = ((place * place * 59 + place * 167 + 13) / 3 % 256) as u8;
    }
    block
}

/// The bytes 0 to 255, twice.
fn counted() -> [u8; 512] {
    let mut block = [0; 512];
    for k in 0..512 {
        block[k] = (k % 256) as u8;
    }
    block
}

/// Puts one of four strips to its place among those given.
fn put_strip(block: &[u8; 512], index: u8, place: usize, given: &mut [u8; 512])
    requires index { index < TARGETS_MAX }
    requires place { place < 4 }
{
    let start = place * 128;
    encode_block(4, block, index, &mut given[start..start + 128]);
}

// The hashes of the strips of the sample, made by a plain program that sums Lagrange's polynomials
// with products bit by bit; the hash is FNV-1a of 64 bits.
#[test]
fn makes_each_strip(rt: HostRuntime) {
    let block = sample();
    for (d, hashes) in [(2, TWO), (4, FOUR), (8, EIGHT), (16, SIXTEEN)] {
        let mut strip = [0; 256];
        let strip = &mut strip[..512 / d as usize];
        for i in 0..31 {
            encode_block(d, &block, i, strip);
            assert_eq!(rt; fnv1a(strip), hashes[i as usize], "strip {i} of {d}");
        }
    }
}

const TWO: [u64; 31] = [
    0x1e8c2cdea0ab1896,
    0xaf43f42d6392eb93,
    0x34d83051726f837a,
    0xdda12d25c61d34c3,
    0xf7c2454f033aec36,
    0xd6881f3d18b55a77,
    0x58252184b33964a6,
    0xd12fb42e6b603b9b,
    0xb6334a73696d6ffb,
    0xf32553ef287d1f26,
    0x27dd7a4a8b77c1eb,
    0x098d5b288f229f3a,
    0x1aa6901b6a4d051b,
    0x00b56c1d57ad55b2,
    0xa7311ee7ca412667,
    0x902f28d7bc649f4a,
    0x589a9ba9039b5b59,
    0x4b807dcb08291f5c,
    0x40c4837b609f8ebd,
    0x44b028d307b7c43c,
    0xa0e33322a9a9766d,
    0xaa452eaaa50c63a4,
    0x6307859075276b7d,
    0x28bc9257abd2fa08,
    0x6b0c16b273e9a2a4,
    0x3b03fbd79ed5de29,
    0xad48c7002c249f54,
    0x8591deef55e7b73d,
    0x7759ada7e0e3d2a8,
    0x25b0813771464049,
    0xc3d14037ca2329b4,
];

const FOUR: [u64; 31] = [
    0x0c5987b63c8e0c70,
    0xea5d685050f61557,
    0x268ca9cb59874fbe,
    0x3a0d20f219a84270,
    0x56ea29b10e4ad38d,
    0x125e0be3a782fc02,
    0xfe36ed2bf49327aa,
    0x1fa2b3ef0f4216bc,
    0x132858a334f3d551,
    0x0ead95519b086404,
    0x7dad6d667177d7dc,
    0xb4e0b5237f206de4,
    0xb6baae839493a93f,
    0x47d393c359a30e36,
    0xe7fe4b59ca1ab51b,
    0x0aae30cc2818e26f,
    0x74612eed9ef981eb,
    0x3c5a5b6fdde9e2c1,
    0x979e16e4a5789df3,
    0xe773950f556247a0,
    0xa78bc2e965285cd0,
    0xfd65ead4337b4616,
    0xfc7c16a7ebab96f5,
    0xf6c5812c94275b1e,
    0xac6433c9329cd158,
    0x125588731880a08c,
    0x3716e744ee4b080f,
    0x7a9d501db9f515fa,
    0xe764a3ce11bc5298,
    0x5a0568a451b7854c,
    0xc7807182e964c0d6,
];

const EIGHT: [u64; 31] = [
    0x670c47aa4ac26516,
    0xa84a6ad5eecdf413,
    0x9c478353d8ae3a70,
    0xc14281d94eee4596,
    0x3a847f5772375193,
    0xae16fe2628506c70,
    0x36b8cc778b91f616,
    0x6922b6a1e6480f13,
    0x9253fc893fb56c42,
    0x910d62a38672dcd4,
    0xd774cceaf299dcd7,
    0x1f7ef9c3de6d3ef1,
    0x3011de0492710517,
    0x82edb7df89a47125,
    0x7ebac607930e65c4,
    0xc0057fd7c063b01f,
    0x86aa0fdcc0ec642d,
    0x034e158b642db050,
    0xe9b7984233f04e3c,
    0x8a302a1875be43dc,
    0x5fb7912d93041589,
    0x0c20d967ea7f3a3b,
    0x2ebe8a7f1f18da51,
    0x3bf79a6be6e1046b,
    0x7ea4a6633df193d4,
    0x549ddd2d51032f15,
    0xb601147a03d283a8,
    0x6c6e7f2cfd86c96b,
    0x2d9f2b04ae4042c6,
    0x54a965b1bc1662fe,
    0x46a94688b560d72a,
];

const SIXTEEN: [u64; 31] = [
    0xbf87b023dd9827f0,
    0x203b7076c9940c97,
    0xed521aa840f7097e,
    0x7096eddd7d62f370,
    0x6a37812dc4eba457,
    0x72652bfc240ff2be,
    0x1f5add25b4a42ef0,
    0xeb40614528ae6797,
    0x18a1ce17a8eb547e,
    0x0fa6925ad7cb0670,
    0x9984144d060c92d7,
    0x4d5fa25b3ca6123e,
    0x6110766bb59ac9f0,
    0x986cfec07ea29197,
    0xb1b34afb752dda7e,
    0x36340fcf45326570,
    0xbc6fd4dc5ae076a0,
    0x3a2186b54a58f445,
    0xfd6daa3d4037fe9e,
    0x6f75ee153ba56daf,
    0x27081f4740e6d43b,
    0xc6910d81fa3441df,
    0x696216c15f5a9fec,
    0x9bf92afcc43c519f,
    0x812bcf1acb4e9f28,
    0xea9350059d30171e,
    0xedc688d357563cc1,
    0x054bbbc28d276b77,
    0xa651f127b0683c03,
    0xd2f17c7e3ed8faf3,
    0x1ea87a20927d1999,
];

// Strips 4 and 5 by hand: each is c with 0x74, or 0xf4, added at place c.
#[test]
fn codes_four_and_two(rt: HostRuntime) {
    let block = counted();
    let mut strips = [0; 6 * 128];
    for i in 0..6 {
        let start = i as usize * 128;
        encode_block(4, &block, i, &mut strips[start..start + 128]);
    }
    for c in 0..128 {
        let byte = c as u8;
        assert_eq!(rt; strips[c], byte);
        assert_eq!(rt; strips[128 + c], byte | 0x80);
        assert_eq!(rt; strips[256 + c], byte);
        assert_eq!(rt; strips[384 + c], byte | 0x80);
        assert_eq!(rt; strips[512 + c], byte ^ 0x74);
        assert_eq!(rt; strips[640 + c], byte ^ 0xf4);
    }
}

// Any four of the six strips give the block back, and three don't.
#[test]
fn decodes_any_four(rt: HostRuntime) {
    let block = counted();
    let mut choices: u32 = 0;
    for a in 0..3 {
        for b in a + 1..4 {
            for c in b + 1..5 {
                for e in c + 1..6 {
                    let mut given = [0; 512];
                    put_strip(&block, a, 0, &mut given);
                    put_strip(&block, b, 1, &mut given);
                    put_strip(&block, c, 2, &mut given);
                    put_strip(&block, e, 3, &mut given);
                    let mut decoded = [0; 512];
                    assert_eq!(rt;
                        decode_block(4, &[a, b, c, e], &given, &mut decoded),
                        Ok(())
                    );
                    assert_eq!(rt; decoded, block, "from {a}, {b}, {c} and {e}");
                    choices = choices.saturating_add(1);
                }
            }
        }
    }
    assert_eq!(rt; choices, 15);
    let mut decoded = [9; 512];
    assert_eq!(rt;
        decode_block(4, &[0, 1, 2], &[0; 384], &mut decoded),
        Err(TooFewStrips)
    );
    assert_eq!(rt;
        decode_block(4, &[0, 1, 2, 1], &[0; 512], &mut decoded),
        Err(TooFewStrips)
    );
    assert_eq!(rt; decoded, [9; 512]);
}

// One and two are added to seven by 3 * 1 + 2 * 2.
#[test]
fn codes_two_and_one(rt: HostRuntime) {
    let mut block = [1; 512];
    for k in 256..512 {
        block[k] = 2;
    }
    let mut strip = [0; 256];
    encode_block(2, &block, 2, &mut strip);
    assert_eq!(rt; strip, [7; 256]);
}

// The first strip of a repeated index counts, and the last d indexes need not be the first d distinct.
#[test]
fn takes_the_first_distinct(rt: HostRuntime) {
    let block = sample();
    let indexes = [
        30, 30, 17, 2, 17, 5, 29, 11, 23, 8, 19, 26, 3, 14, 21, 27, 9, 0, 24, 12,
    ];
    let mut strips = [0; 20 * 32];
    for (place, index) in indexes.iter().enumerate() {
        encode_block(16, &block, *index, &mut strips[place * 32..place * 32 + 32]);
    }
    for k in 32..64 {
        strips[k] = 0xee;
    }
    for k in 19 * 32..20 * 32 {
        strips[k] = 0xee;
    }
    let mut decoded = [0; 512];
    assert_eq!(rt; decode_block(16, &indexes, &strips, &mut decoded), Ok(()));
    assert_eq!(rt; decoded, block);
    choice_laws();
}

/// The first byte of a strip of a block of two data strips that is 0 but for a 1 at the beginning of one of them: its coefficient.
fn coefficient_of_two(taken: usize, index: u8) -> u8
    requires taken { taken < 2 }
    requires index { index < TARGETS_MAX }
{
    let mut block = [0; 512];
    block[taken * 256] = 1;
    let mut strip = [0; 256];
    encode_block(2, &block, index, &mut strip);
    strip[0]
}

/// Such a coefficient of a block of four data strips.
fn coefficient_of_four(taken: usize, index: u8) -> u8
    requires taken { taken < 4 }
    requires index { index < TARGETS_MAX }
{
    let mut block = [0; 512];
    block[taken * 128] = 1;
    let mut strip = [0; 128];
    encode_block(4, &block, index, &mut strip);
    strip[0]
}

/// The coefficients of four data strips in a strip.
fn coefficients_of_four(index: u8) -> [u8; 4]
    requires index { index < TARGETS_MAX }
{
    [
        coefficient_of_four(0, index),
        coefficient_of_four(1, index),
        coefficient_of_four(2, index),
        coefficient_of_four(3, index),
    ]
}

// Worked out by hand from Lagrange's sum.
#[test]
fn has_known_coefficients(rt: HostRuntime) {
    assert_eq!(rt;
        [coefficient_of_two(0, 2), coefficient_of_two(1, 2)],
        [0x03, 0x02]
    );
    assert_eq!(rt; coefficients_of_four(4), [0x1b, 0x1c, 0x12, 0x14]);
    assert_eq!(rt; coefficients_of_four(5), [0x1c, 0x1b, 0x14, 0x12]);
}
