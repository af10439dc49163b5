//! What no clause says: that the clauses mean the same as the reference program, and that each call comes through
//! with ample memory.
ghost use Rattle.std.specs.Prelude.{◌<◌, ◌≤◌};
ghost use Rattle.object_id.specs.Policy.{IsPolicy};

use crate::Placement;
use hash_ring::are_weighted;
use object_id::{Epoch, Kind, Member, MemberList, NoMemory, NodeId, Oid, Policy, Vid};
use std::alloc::Global;
use std::test::Fail;

/// The epochs of the table: one node in so many is a member, in one of so many zones.
const EPOCHS: [(u32, u64, u64); 6] = [
    (1, 3, 64),
    (2, 2, 8),
    (3, 1, 64),
    (4, 4, 3),
    (5, 2, 40),
    (6, 8, 64),
];

/// A policy for each number below this.
const POLICIES: u8 = 31 + 60;

// Made by the Python reference program from the draws below: a look-up is a word, and node n in it is the
// character ':' + n. Each policy is asked twice for a data object and an inode, of an epoch that is drawn.
const TARGETS: &[u8] = b"\
    w T MK rT ;\\] yJL :?ZT jpPm DonNC KjPQn yMjKPQ Oqb OEjpdNH :=ZTury <i: \\:@ yJLMKnNDo wqeBZ_^ \
    ;?ZA`vmN YyKMjPQnHe ;A?Z`vmN QOpPNqondbD <iZ U@>trTR`XSsx RxvYmkJH wqeBZ_^ <iZ =Z:TuryLMKNnoO \
    PnjHeBbg;\\@`?uy mqb ]\\;Z:@`?TuyYKMPQ XVusywSxLvWMmlkK RxvYmkNH uTryLMKNnDoOCIf=: \
    WMVLwmlsykKPpONnod QmkpPONH iZ;?A`vN TRX>rSsxyYVLwvWMmlk RxvYmkJH Z_^wqeB <iZ qOb \
    jnPHeBbg;\\@`?uyYMQ qeBZ_^w Hig;\\:@`?TuyYMPQnb jmkpPONH CeIf=:TuryLMKnNoO Z_^wqeB \
    MKJNnDoOCIf=:TryL qeBZ_^w T?uryLMKnNDoOCIf: Oqb EdnHFZ;v yYKMjPQnHeB;\\@`?ub _^wqeBZ \
    MKnNDoOCIf=:TuryL twb LJwMlykmjKpPOnNodbDEechg;\\AZa TA`@>ta^?rRXSsVxyYLwvWMmlkpnob qOb \
    NqQOEpdH :?ZTuryLMKnNoOCIf bi: Yy Z_^w mqb Z_^wq U>rT Z_^wqe jKPQn ;<i]=\\g qeBZ_^ _^wqeBZ \
    :?ZTury RuyYKMjPQ Oqb eIf=:TuryL DNnCIf=:T If=:ZTuryLM JyMLKnNDoO Ywb mqb TA`^@>at?RrXs \
    ;\\]Z:@`?TuYy dcHFZ;`v rTRXU>sSxyVYL ;<i]=\\GgAZa[`@> YxvRmkJH yJLMKnNoDOCIf=:T \
    HdeBbg;\\@`?uyYM yJLMKNnDoOCIf=:Tr qeBZ_^w wqeBZ qe ^_wqeB dBF yJLMKNn MKNn NDoOnCIf wqeBZ \
    wqeBZ_^ wqeBZ_ MJwkmQjKPp :=ZTury T?uryLMKNnD NdHEbeFc HFeciIbhgG]; F<cigCIG] qOb =Z:TuryLMK \
    CIbFecihGg];=\\ Hig;\\:@`?Tu RuyYKMjPQnHeB;\\ Z_^wqeB eBZ_^wq yJLMKnNDoOCIf TRXU>rsSxyVYLwvWM \
    <i];=\\gGAZa[@` nNDoOCIf=:TuryLMK JyLMKnNDoOCIf=: uTryLMKNnDoOCIf=: XVusywSxLvWMmlkK @>aAZ`T^t \
    Hd <iZ;A`vN @>a @Rb eBZ_ MQpPmkONnodb swMlL <i: OEdnHF wqeBZ_^ mWvYkJP mkMKjQpPOnNodbD \
    yJLMKNnD <i];=\\gGAZa[`@>T MQpPmkOnN :@b iHg;\\:@`?T bi: MKLJynNDoOC ;?ZA`vmN ^_wqeBZ RxvYmkJH \
    Z_^wqeB ig;\\Z:@`?TuyYMPQnb mjkpPONH _wqeBZ^ <i: OEdnHF;v =;\\i]GgAZa[`@>Tt TuryLMKnNDoOCIf=: \
    @A MJyLKNnDoOCIf=:Tr jnP Z;?A`vmN NpbH BeZ_^wq MJwkm RuyYKMjPQnHeB;\\@`b ;\\Z:]@ \
    IG<cg]C;i=\\AZa[`@>Tt?r yJLMKNn wqeBZ_^ Z`@>aAT^ jnPHeBg;\\@`?uyYMQb ;Z:][a@`A \
    g];\\:Z@`?TuYyMPQnb :Z=TuryLMK wqeBZ_^ XusSrxRyVYL wqeBZ_^ g];\\:Z@`?Tuy :@b qeBZ_^w dcHFZ;vk \
    NqoQOpndbDeciI TR@uYyKMPQnHeBb;\\` qeBZ_^w XVusywSxLvWMmlkKPpONnobDechg;AZ Z_^wqeB w M <i Tu \
    pno wqb pbNd BeZ_ qeBZ_ Z_^wq dcHFZ; eCIf=: T?ZuryL jpPmkON qeBZ_^w Hig;\\:@` mqb SrTsxXyRY \
    \\:@ LJMKynNDoO dHig;\\:@`?u eBZ_^wq mqb eBZ_^wq biZ :Z?TuryLMKnNo ;AZ`@>aT^t?RrX RxvYmkNH \
    YWvmkJPH usySrxRXVYLwvWM twb =;\\i]GgAZa[`@>Tt If=:ZTuryLMKnNoOC mqb qeBZ_^w \
    yMjKPQnHeBb;\\@`?uY @Rb CIGhF<cig];=\\AZa[`@ mQkpPONH <iZ SxXVusywLvWMmlkKpPOnN Z_^wqeB \
    g]AZ:a;[`@>T^t?rXsSxyV JyMLKnNDoOCIf=:Tr wqb NqQOpdEH BeZ_^wq >_ZTvmkJ kmQJPpOH \
    LJMyKnNoDOCIf=:Tr TtxvYmkJ mqb G\\g]A;Za[`@>T^t?rXSVxyYLwvW Oqb NqQOpdEH =Z:TuryLMKNnoOCIf \
    HdebFciIhgG];=\\AZa[`@>Tt?rXSV biZ GA\\g];Za[`@>T^t?rXSxyVYLwvWMml mqb wqb :@];\\Z`?TuYyKMPQnb \
    yYK Yw eCIf ;\\Z NqoQO jpPm qOb RxvYm dcHFZ;` CeIf=: twb @][a;AZ QOpnPNqdo MKnNDoOC iZ;?A`vJ \
    Z_^wqeB TtxvYmkN Z_^wqeB bi: T?uryLMKnND :@b :?ZTuryLMKnN <iZ;AvkJ Z_^wqeB OEjpdNH; \\Z@ \
    RxvYmkNH ;\\]:Z@`?TuYyKMP eBZ_^wq TtxvYmkJ ;?ZAv Ts @>aAZ` <i: KQjnPHe jKPQ ;\\Z@`?Tu wqeBZ \
    <i: uRyYKM :Z?TuryLMK eZ_^wqB ?TZuryLMKnN MKJynNDo VLusywvWMmlk RuYyKMjPQ Z_^wqeB :@\\ \
    RxvYmkNH f=:ZTuryLMK qeBZ_^w MlLJykwmjKPp TuyLMKnNDoOCIf=: <i: rTuyLMKNnDoOCIf=: \
    yJLMKNnDoOCIf= g];\\:Z@`?TuYyMPQnb NKnDoOCIf=:Tury YWmkQJPH wqb QOpPkqnNo @> MKJynNDoOC Ywb \
    _wqeBZ^ ;\\Z@ Ief=:TuryLMK \\:@ yMjKPQnHeBb;\\ YyKMjP TuryLMKNnDoOCI g];\\Z:@ wqeBZ_^ DNnCIf=: \
    mqb wqeBZ_^ DNnCIf=:TuryLMKoO :@\\ FifZ;A`v TuryLMKnNDo :=ZTuryLMKNnoOCIf TtxvYmkN \
    rTSsxXyRYVLwvWMmlkpP PNqQOpondbDec Z_^wqeB TsSrXxyRVYLwvW YvWmkJPH PmkjpONH \
    ig;\\Z:@`?TuyYMPQnb dbHig;\\:@`?uYyMP <iZ Bd @a;AZ`>T^t?RrXsSxy dHc kmQpPONH :@\\ wqeBZ_^ \
    YWvmk RuYyKMjPQnHeBb;\\@` U@trTR LJyMKnNDoOCIf=:Tr NKnDoOC mQkPpONH Ywb YWvmkJPH MKLJyNnDo \
    PNqQOpnodbDEecIhg;=\\AZa[` Ebi ;\\]Z:@`?TuyYKMPQnb jKPQnHeB;\\@ eICf=:TuryLMKnNoO \
    PHdeBg;\\@`?u ;\\Z@]`?TuyYKMPQnBb Oqb wqeBZ_^ wqeBZ_^ =fZ:TuryLMKnNoOCI JyLMKnNDoOCIf=: \
    TsSrXxRyVYLwvWMmlkPpNnobDechg;A Hig;\\:@`?TuYyMPQ ";

/// Numbers drawn one after another, the same for the reference program and the test.
#[derive(Drop)]
struct Draw {
    word: u64,
}

impl Draw {
    fn below(&mut self, n: u64) -> u64
        requires { 0 < n }
        ensures { result < n }
    {
        self.word = self
            .word
            .wrapping_mul(6_364_136_223_846_793_005)
            .wrapping_add(1_442_695_040_888_963_407);
        (self.word >> 33) % n
    }

    fn members(&mut self, alloc: Global, sparse: u64, zones: u64) -> Result<MemberList, NoMemory>
        requires sparse { 0 < sparse }
        requires zones { (0 < zones) × (zones ≤ 64) }
    {
        let mut members = MemberList::new(alloc);
        for node in 0..64 {
            if self.below(sparse) == 0 {
                let zone = self.below(zones) as u32;
                let vnodes = 1 + self.below(256) as u16;
                members.push(Member {
                    node: NodeId(node),
                    zone,
                    vnodes,
                })?;
            }
        }
        Ok(members)
    }

    fn oid(&mut self, kind: Kind) -> Oid {
        let vid = Vid(1 + self.below(0xff_ffff) as u32);
        let index = self.below(1 << 20) as u32;
        match kind {
            Kind::Block => Oid::object(vid, index),
            Kind::Inode => Oid::inode(vid),
        }
    }
}

fn policy(number: u8) -> Policy
    requires { number < POLICIES }
    ensures { IsPolicy result }
{
    if number < 31 {
        return Policy::Copies(number + 1);
    }
    let d = match (number - 31) / 15 {
        0 => 2,
        1 => 4,
        2 => 8,
        _ => 16,
    };
    Policy::Coded {
        d,
        p: (number - 31) % 15 + 1,
    }
}

/// Whether a text begins with the word of these nodes and a space.
fn begins_with(text: &[u8], nodes: &[NodeId]) -> bool {
    if text.len() <= nodes.len() || text[nodes.len()] != b' ' {
        return false;
    }
    for k in 0..nodes.len() {
        if nodes[k].0 > 63 || u32::from(text[k]) != u32::from(b':') + nodes[k].0 {
            return false;
        }
    }
    true
}

#[test]
fn agrees_with_the_reference_program(rt: HostRuntime) -> Result<(), Fail> {
    let mut draw = Draw { word: 2026 };
    let mut placement = Placement::new(rt.alloc());
    for (epoch, sparse, zones) in EPOCHS {
        assert!(rt; 0 < sparse && 0 < zones && zones <= 64);
        let members = draw.members(rt.alloc(), sparse, zones)?;
        assert!(rt; are_weighted(members.as_slice()));
        assert!(rt; !placement.has_entered(Epoch(epoch)));
        placement.enter(Epoch(epoch), members.as_slice())?;
    }
    let mut text = TARGETS;
    for turn in 0..4 * POLICIES as u16 {
        let kind = if turn % 2 == 0 {
            Kind::Block
        } else {
            Kind::Inode
        };
        let number = (turn / 2 % POLICIES as u16) as u8;
        let epoch = Epoch(1 + draw.below(6) as u32);
        let oid = draw.oid(kind);
        assert!(rt; placement.has_entered(epoch));
        let mut out = [NodeId(99); 31];
        let count = placement.targets_at(epoch, oid, policy(number), &mut out);
        assert!(rt; count <= 31);
        assert!(rt; begins_with(text, &out[..count]), "at look-up {turn}");
        assert!(rt; count + 1 <= text.len());
        text = &text[count + 1..];
    }
    assert!(rt; text.is_empty());
    Ok(())
}

// Nobody is left in an epoch without members, and nothing is kept there.
#[test]
fn enters_an_epoch_without_members(rt: HostRuntime) -> Result<(), Fail> {
    let mut placement = Placement::new(rt.alloc());
    let members: [Member; 0] = [];
    assert!(rt; are_weighted(&members) && !placement.has_entered(Epoch(7)));
    placement.enter(Epoch(7), &members)?;
    assert!(rt; placement.has_entered(Epoch(7)));
    let mut out = [NodeId(99); 31];
    let oid = Oid::inode(Vid(1));
    assert_eq!(rt;
        placement.targets_at(Epoch(7), oid, Policy::Copies(3), &mut out),
        0
    );
    assert_eq!(rt; out[0], NodeId(99));
    Ok(())
}
