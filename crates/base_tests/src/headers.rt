//! Headers whose bytes and answers come from outside, and what no clause says.

use sheep_proto::{
    Common, HeaderFault, ObjReq, READ_OBJ, Request, VdiReq, decode_reply, decode_request,
    encode_request, put_common, read_common,
};
use std::alloc::Global;
use std::test::*;

// A row: the bytes in hexadecimal; what they are read as, the fields in the order of the struct, or the refusal. The rows
// were drawn at random and answered by a program in Python that was written apart from this one, from the layout alone. Of
// those that are read some have reserved bytes that aren't 0, or bytes after the header.
const REQUESTS: &[u8] =
    b"0101d8e7046a09b93b5aaeafe0cf63c94af339c4924c45e114ee94e7b163b52642ac00000000000031eebea2df5a6ed9 object 1 59352 3104401924 2947439163 3378761696 16232464625167889226 2789245159971548692 66 172 15667560070223162929\n\
0103da1416ead2341ce3bd92b5cf1d3e8120fc081839aa33e2c9321862bc70153040000000000000c82a85b166b3b1c3 object 3 5338 886237718 2461917980 1042141109 3722850817367875713 1544941801686878690 48 64 14101249161920064200\n\
0111aeb48bc7e43b42ceeedb07a456d77b013c380726ed92af58d13c0e03cca546cc1f9ee7b1fd4c0000000000000000 disk 17 46254 1004849035 3689860674 3612779527 10587160111467987323 1020352687 14 3 204 165 2652884038 1291694567\n\
0112418e9fb732d5e499d26e2f771f28d5ea272aa6e2e0674114c858b4dc1eb0e9540c204302fafe0000000000000000 disk 18 36417 3576870815 1859295716 673150767 7485231783989471957 1489507393 180 220 30 176 537679081 4277797443\n\
01131d2c5b511dfe478f1d2c1a54e8d68a02bc14e297651d2450b0c8e24b00cf827dc6a65d1761cc0000000000000000 disk 19 11293 4263334235 740134727 3605550106 2118266197013955210 3366998052 226 75 0 207 2798026114 3428915037\n\
0114d7aac827022a0b7c171ee1f125f0b0898974cd95a98eaa056255031292bf534bcd1b580ee0170000000000000000 disk 20 43735 704784328 504855563 4029018593 10279912334105872816 1432487338 3 18 146 191 466438995 400559704\n\
0116f206403bc4312d103a3865805c832b2cb3df274366b3217c1c032806ecaaa74ba7beef07fd860000000000000000 disk 22 1778 834943808 943329325 2203877477 12927093618949434411 52198433 40 6 236 170 3198634919 2264729583\n\
01179132b369f2dbf9faf43936cde2186dc4294d428f18204eed158e63e223a5a19e2e150b1fd2720000000000000000 disk 23 12945 3690097075 972356345 417516854 2312755923579946093 2383801678 99 226 35 165 355376801 1926373131\n\
01011fd4a644e64b23a7ff34c4514f5d3ed0769f9732584c99c1d2249c502cadb919000000000000c41f3e01f2a6b646 object 1 54303 1273382054 889169699 1565479364 5501202571629875262 12478437299099713945 185 25 5095443586749439940\n\
010392d8cc6564f763279219baaa9f00758f46fbabf90afc4e828e0ac9aa1836bf340000000000003be0469ea1f6f4f2 object 3 55442 4150552012 429008739 10463930 18161602964375375733 3898053257931424334 191 52 17506888825501573179\n\
0111c40cf14060cfbed9b0a7a41f4023c63e6ce156bc6d9f7e5f3e60e6db8f65bbdbe06409181e410000000000000000 disk 17 3268 3479191793 2813385150 591404964 11488045305827180230 1614700414 230 219 143 101 1692457915 1092491273\n\
0112ed3ab86442c6bb46773349a6fd4ae17e59735f2e80fdb8b03ae35661349f1a0b690d1e2523590000000000000000 disk 18 15085 3326239928 863454907 1258137161 18266651076106747617 3812274360 86 97 52 159 224987930 1495475486\n\
010205206c1ab3516da3727957c335f3007fa6949ced0b731ba4776952416a3533510000000000004d7b18a0c75b9ce854 object 2 8197 1370692204 2037556077 4080386903 8289980795870150400 3848960653754082331 51 81 16761372826108721997\n\
010270197d540d1160d6e093b3f923788011183646cfd1f6da9ffbea5dd49002b3bb009f00000000a60b7e87a4bdea11 object 2 6512 286086269 2480985696 2015623603 17785224303925006720 184881084561596378 179 187 1291052757540539302\n\
01165b3c5ea5057c2fab2c21d5b3805a9def50da8732a0e70a5ee453fde5a0e7e12aae8fc82832240000000000000000b3 disk 22 15451 2080744798 556575535 1518384085 16690395778099769245 1407475210 253 229 160 231 2410556129 607267016\n\
0102190ab6880781071d590bfa75c079b506f87840493364507478b6a3e4cfde82bd000000000000db5dacabf493631822 object 2 2585 2164754614 190389511 2042656250 7220195168861292213 16055302588391257168 130 189 1757410958666128859\n\
015132e221a09bef29bb54db0c8cb30df218ca02a26213db3784bb177a17468281860000000000003df0997940d15d2d UnknownOpcode\n\
0119c92b99e29e8dd041e3f682ba0de89d5bcf4db3e186d0f8156477ffee0534df150000000000009eff771ef4d29c27 UnknownOpcode\n\
01bf02d631f0f60598daa9423540b8b7825ec30d070f1e72c5f162008f179251c94900000000000004cef6b3f3e85678 UnknownOpcode\n\
01134c985eaabfd2978b1281b9f6958503da68093bedcb1d55265ddd47e06a9046cf74e87191 ShortHeader\n\
010198a350554812b481cebb89a6fd702df7b76b5b7282d54dcae60ac68939009ac100 ShortHeader";

const REPLIES: &[u8] =
    b"0101cae7d15c5c2b012ae806549359692c21206800000000032b6cfe0000000000000000000000000000000000000000 reply 1 59338 727473361 115878401 1767478100 1746936108 4268501763\n\
0102686d4dc7bc1756e3afa0beca9184b2d23ace0000000093f575d70000000000000000000000000000000000000000 reply 2 28008 398247757 2695881558 2224147134 3459961522 3614832019\n\
0103b4b08e85bc41e444d12938a6bb9f1662211e000000000d27dbe70000000000000000000000000000000000000000 reply 3 45236 1102873998 701580516 2679875128 505504278 3889899277\n\
011259395703c91d195824e8484a919bc5ed440d00000000c52efd840000000000000000000000000000000000000000 reply 18 14681 499712855 3894695961 2609990216 222621125 2231185093\n\
0113d3d57cbfef660168d9f3217d1875f1ebc487000000008c59aac10000000000000000000000000000000000000000 reply 19 54739 1726988156 4091111425 1964539169 2277829617 3249166732\n\
01164320060a426b691269464103f61be68c5663000000006a3c40190000000000000000000000000000000000000000 reply 22 8259 1799490054 1181291113 469107521 1666616550 423640170\n\
0117c32d529fe83002415fd081565ba2fcb0b04f00000000cb8cb2670000000000000000000000000000000000000000 reply 23 11715 820551506 3495903490 2723894913 1336979708 1739754699\n\
010279f719b73f57161effb66810f9037a5ad02d00000000091411470000000000000000000000000000000000000000 reply 2 63353 1463793433 3070172694 66654312 768629370 1192301577\n\
0103eb99207c05148b140f95999df7d8911f165c00000000806f22ca0000000000000000000000000000000000000000 reply 3 39403 335903776 2500793483 3640106393 1544953745 3391254400\n\
011167c743f92bed7142797599ef79174805fb9400000000d0260edf0000000000000000000000000000000000000000 reply 17 51047 3979082051 1970881137 393867161 2499478856 3742246608\n\
01125b177a8ea5bfb8b1ebd1f71e0b5ec1a12a05000000005554b3c20000000000000000000000000000000000000000 reply 18 5979 3215298170 3521884600 1577787127 86680001 3266532437\n\
011678b844a3b7ae32cbc0af2a30f5899333b0ea00000000308c97c00000000000000000000000000000000000000000 reply 22 47224 2931270468 2948647730 2314547242 3937416083 3231157296\n\
0111ddb1658199a583c7fa5556238899d6aca6b8000000004a0e88720000000000000000000000004600000000000000 reply 17 45533 2778300773 1442498435 2575835990 3097930966 1921519178\n\
011487a4e2bbfe15dd26c9f4931a8ba98796f9c70000000027ec0e4d0000000000000000000000000000000000000000c9 reply 20 42119 369015778 4106823389 2844465811 3355022983 1292823591\n\
01013063c6578c5fc46f48bcdf774df875ce534800000000bbdd596500cf000000000000000000000000000000000000 reply 1 25392 1603033030 3158863812 4165826527 1213451893 1700388283\n\
0113c06e68f2c386729def720624483f5aa871ec00000000152423640000000000000000000000000000000089000000 reply 19 28352 2260988520 1928306034 1061692422 3966871642 1680024597\n\
01144c7e02ecc644d37d3e5a804c28bd9b3d2a200000000019a211770000000000000000000000000000000000000000da reply 20 32332 1153887234 1514044883 3173534848 539639195 1997644313\n\
0117e82d65a310f0bbb0e1e74603f0221464fb200000000083da51460000000000000000ab0000000000000000000000 reply 23 11752 4027622245 3890327739 586154822 553346068 1179769475\n\
0101d8cda997527695cae517f6bf584929bb58c3000000001bd025d900000000000000000000000000000000db000000 reply 1 52696 1985124265 400935573 1230553078 3277372201 3643133979\n\
0151c1fbe18565d217fb4459f6f65f2099b2cb2500000000871b5de20000000000000000000000000000000000000000 UnknownOpcode\n\
0119089e77aaed2729626f82f06d58c08ea9b7f2000000f47efc715a0000000000000000000000000000000000000000 UnknownOpcode\n\
01bf720612a62afc6df190082c3bab1561da2d0500000000046547820000000000000000000000000000000000000000 UnknownOpcode\n\
011209835e609deaeaea1e ShortHeader\n\
0103bd4668912f9c ShortHeader";

// Requests whose reserved bytes are 0.
const SPELLED: &[u8] =
    b"0101d8e7046a09b93b5aaeafe0cf63c94af339c4924c45e114ee94e7b163b52642ac00000000000031eebea2df5a6ed9\n\
0103da1416ead2341ce3bd92b5cf1d3e8120fc081839aa33e2c9321862bc70153040000000000000c82a85b166b3b1c3\n\
0111aeb48bc7e43b42ceeedb07a456d77b013c380726ed92af58d13c0e03cca546cc1f9ee7b1fd4c0000000000000000\n\
0112418e9fb732d5e499d26e2f771f28d5ea272aa6e2e0674114c858b4dc1eb0e9540c204302fafe0000000000000000\n\
01131d2c5b511dfe478f1d2c1a54e8d68a02bc14e297651d2450b0c8e24b00cf827dc6a65d1761cc0000000000000000\n\
0114d7aac827022a0b7c171ee1f125f0b0898974cd95a98eaa056255031292bf534bcd1b580ee0170000000000000000\n\
0116f206403bc4312d103a3865805c832b2cb3df274366b3217c1c032806ecaaa74ba7beef07fd860000000000000000\n\
01179132b369f2dbf9faf43936cde2186dc4294d428f18204eed158e63e223a5a19e2e150b1fd2720000000000000000\n\
01011fd4a644e64b23a7ff34c4514f5d3ed0769f9732584c99c1d2249c502cadb919000000000000c41f3e01f2a6b646\n\
010392d8cc6564f763279219baaa9f00758f46fbabf90afc4e828e0ac9aa1836bf340000000000003be0469ea1f6f4f2\n\
0111c40cf14060cfbed9b0a7a41f4023c63e6ce156bc6d9f7e5f3e60e6db8f65bbdbe06409181e410000000000000000\n\
0112ed3ab86442c6bb46773349a6fd4ae17e59735f2e80fdb8b03ae35661349f1a0b690d1e2523590000000000000000";

// A read of 512 bytes at 1,024 of the object 0 of disk 0x01ec8c.
const READ: &[u8; 48] =
    b"\x01\x02\x00\x00\x01\x00\x00\x00\x07\x00\x00\x00\x00\x02\x00\x00\x00\x00\x00\x00\x8c\xec\x01\x00\x00\x00\x00\x00\x00\x00\x00\x00\x03\x00\x00\x00\x00\x00\x00\x00\x00\x04\x00\x00\x00\x00\x00\x00";

fn digit(letter: u8) -> u8 {
    if letter <= b'9' {
        letter.wrapping_sub(b'0')
    } else {
        letter.wrapping_sub(b'a').wrapping_add(10)
    }
}

/// The bytes that digits in hexadecimal say.
fn bytes_of(alloc: Global, digits: &[u8]) -> Result<Vec<u8>, Fail> {
    let mut bytes = Vec::new(alloc);
    for pair in digits.chunks_exact(2) {
        if let [high, low] = pair {
            bytes.push(digit(*high).wrapping_mul(16).wrapping_add(digit(*low)))?;
        }
    }
    Ok(bytes)
}

fn fault_text(alloc: Global, fault: HeaderFault) -> Result<String, Fail> {
    Ok(format!(in alloc; "{fault:?}")?)
}

fn obj_text(alloc: Global, req: &ObjReq) -> Result<String, Fail> {
    let common = format!(in alloc;
        "{} {} {} {} {}",
        req.opcode, req.flags, req.epoch, req.id, req.data_length
    )?;
    Ok(format!(in alloc;
        "object {common} {} {} {} {} {}",
        req.oid, req.cow_oid, req.copies, req.copy_policy, req.offset
    )?)
}

fn vdi_text(alloc: Global, req: &VdiReq) -> Result<String, Fail> {
    let common = format!(in alloc;
        "{} {} {} {} {}",
        req.opcode, req.flags, req.epoch, req.id, req.data_length
    )?;
    let kept = format!(in alloc;
        "{} {} {} {} {} {}",
        req.vdi_size,
        req.base_vdi_id,
        req.copies,
        req.copy_policy,
        req.store_policy,
        req.block_size_shift
    )?;
    Ok(format!(in alloc; "disk {common} {kept} {} {}", req.snapid, req.kind_word)?)
}

fn request_text(alloc: Global, bytes: &[u8]) -> Result<String, Fail> {
    match decode_request(bytes) {
        Ok(Request::Obj(req)) => obj_text(alloc, &req),
        Ok(Request::Vdi(req)) => vdi_text(alloc, &req),
        Err(fault) => fault_text(alloc, fault),
    }
}

fn reply_text(alloc: Global, bytes: &[u8]) -> Result<String, Fail> {
    match decode_reply(bytes) {
        Ok(rsp) => {
            let common = format!(in alloc;
                "{} {} {} {} {}",
                rsp.opcode, rsp.flags, rsp.epoch, rsp.id, rsp.data_length
            )?;
            Ok(format!(in alloc; "reply {common} {} {}", rsp.result, rsp.vdi_id)?)
        }
        Err(fault) => fault_text(alloc, fault),
    }
}

/// The bytes of a row, and its answer.
fn parts(row: &[u8]) -> (&[u8], &[u8]) {
    for (place, letter) in row.iter().enumerate() {
        if *letter == b' ' {
            return (&row[..place], &row[place + 1..]);
        }
    }
    (row, b"")
}

#[test]
fn reads_drawn_requests(rt: HostRuntime) -> Result<(), Fail> {
    let alloc = rt.alloc();
    for row in REQUESTS.split(|letter| *letter == b'\n') {
        let (digits, answer) = parts(row);
        let bytes = bytes_of(alloc, digits)?;
        let text = request_text(alloc, bytes.as_slice())?;
        assert_eq!(rt; text.as_bytes(), answer);
    }
    Ok(())
}

#[test]
fn reads_drawn_replies(rt: HostRuntime) -> Result<(), Fail> {
    let alloc = rt.alloc();
    for row in REPLIES.split(|letter| *letter == b'\n') {
        let (digits, answer) = parts(row);
        let bytes = bytes_of(alloc, digits)?;
        let text = reply_text(alloc, bytes.as_slice())?;
        assert_eq!(rt; text.as_bytes(), answer);
    }
    Ok(())
}

#[test]
fn spells_drawn_headers(rt: HostRuntime) -> Result<(), Fail> {
    let alloc = rt.alloc();
    for row in SPELLED.split(|letter| *letter == b'\n') {
        let bytes = bytes_of(alloc, row)?;
        let spelled = decode_request(bytes.as_slice()).map(|req| encode_request(&req));
        assert_eq!(rt;
            spelled.map(|header| header.as_slice() == bytes.as_slice()),
            Ok(true)
        );
    }
    Ok(())
}

#[test]
fn refuses_in_order(rt: HostRuntime) {
    let mut header = [0u8; 48];
    assert_eq!(rt;
        decode_request(&header[..47]),
        Err(HeaderFault::ShortHeader)
    );
    header[0] = 2;
    header[1] = 0x7f;
    assert_eq!(rt;
        decode_request(&header[..47]),
        Err(HeaderFault::ShortHeader)
    );
    assert_eq!(rt; decode_request(&header), Err(HeaderFault::VerMismatch));
    assert_eq!(rt; decode_reply(&header), Err(HeaderFault::VerMismatch));
    header[0] = 1;
    assert_eq!(rt; decode_request(&header), Err(HeaderFault::UnknownOpcode));
    assert_eq!(rt; decode_reply(&header), Err(HeaderFault::UnknownOpcode));
}

#[test]
fn spells_a_read(rt: HostRuntime) {
    let read = Request::Obj(ObjReq {
        opcode: READ_OBJ,
        flags: 0,
        epoch: 1,
        id: 7,
        data_length: 512,
        oid: 0x0001_ec8c_0000_0000,
        cow_oid: 0,
        copies: 3,
        copy_policy: 0,
        offset: 1024,
    });
    let header = encode_request(&read);
    assert_eq!(rt; header, *READ);
    assert_eq!(rt; decode_request(&header), Ok(read));
}

#[test]
fn shares_the_first_bytes(rt: HostRuntime) {
    let common = Common {
        opcode: 0xa6,
        flags: 0,
        epoch: 3,
        id: 9,
        data_length: 40,
    };
    let mut header = [9u8; 48];
    put_common(&common, &mut header);
    assert_eq!(rt;
        header[..16],
        b"\x01\xa6\0\0\x03\0\0\0\x09\0\0\0\x28\0\0\0"[..]
    );
    assert_eq!(rt; header[16..], [9; 32][..]);
    assert_eq!(rt; read_common(&header), Ok(common));
    assert_eq!(rt; read_common(&header[..47]), Err(HeaderFault::ShortHeader));
}

#[test]
fn says_why_bytes_are_no_header(rt: HostRuntime) -> Result<(), Fail> {
    let alloc = rt.alloc();
    let short = format!(in alloc; "{}", HeaderFault::ShortHeader)?;
    assert_eq!(rt; short.as_str(), "fewer than 48 bytes");
    let version = format!(in alloc; "{}", HeaderFault::VerMismatch)?;
    assert_eq!(rt; version.as_str(), "the version isn't 1");
    let opcode = format!(in alloc; "{}", HeaderFault::UnknownOpcode)?;
    assert_eq!(rt; opcode.as_str(), "the opcode is unknown");
    Ok(())
}
