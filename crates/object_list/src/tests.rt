//! Lists whose unions come from outside, and that each call comes through with ample memory.

use crate::lists::Lists;
use object_id::{NoMemory, NodeId, Oid, Vid};
use object_store::OidList;
use std::alloc::Global;
use std::test::Fail;

// A row: what it shows; the node itself and the members, by letter; the answers, each with the letter of its node and the
// indexes of its objects; at first and after each answer who is waited for, ! where all have answered, and the indexes of
// the objects.
// The rows before the drawn ones were worked out by hand. The drawn ones were drawn at random and answered by a program
// in Python that was written apart from this one.
const LISTS: &[u8] = b"alone: nothing to wait for;a;a;;!\n\
no members at all;a;;;!\n\
not a member oneself;c;ab;a1|b2;ab|b1|!12\n\
two others;b;abc;a13|c2;ac|c13|!123\n\
in any order;b;abc;c2|a13;ac|a2|!123\n\
an empty list is an answer too;a;ab;b;b|!\n\
an id of both lists stands once;a;abc;b135|c345;bc|c135|!1345\n\
the same list twice;a;abc;b27|c27;bc|c27|!27\n\
the later list is below;a;abc;b78|c12;bc|c78|!1278\n\
one between the others;a;abc;b19|c5;bc|c19|!159\n\
a second answer counts once and adds its ids;a;abc;b1|b2|c3;bc|c1|c12|!123\n\
a second answer after the last;a;ab;b1|b23;b|!1|!123\n\
an answer of oneself counts for nobody and adds its ids;a;ab;a47|b5;b|b47|!457\n\
so does one of a stranger;a;ab;f47|b5;b|b47|!457\n\
members in another order;b;cba;a1|c2;ac|c1|!12\n\
a member named twice answers once;a;abb;b6;b|!6\n\
drawn 1;e;defh;h123789|h027|f0189;dfh|df123789|df0123789|d0123789\n\
drawn 2;e;abeg;g05|a|g|b;abg|ab05|b05|b05|!05\n\
drawn 3;f;bdefh;e034|d0134|b0189|d|h0456|d0;bdeh|bdh034|bh0134|h013489|h013489|!01345689|!01345689\n\
drawn 4;e;beh;h249|b2359;bh|b249|!23459\n\
drawn 5;a;adeh;e|h36|h28;deh|dh|d36|d2368\n\
drawn 6;a;adeg;d019|d56|e789|g0128;deg|eg019|eg01569|g0156789|!01256789\n\
drawn 7;f;bdfgh;d12|h36|g2579|d09|b045789;bdgh|bgh12|bg1236|b1235679|b01235679|!0123456789\n\
drawn 8;f;abefh;b028|b6|h135689|a0;abeh|aeh028|aeh0268|ae01235689|e01235689\n\
drawn 9;e;bceg;c18|c047|b1|g;bcg|bg18|bg01478|g01478|!01478\n\
drawn 10;e;abdeh;b2489|a2348|h3467|b089|d1368|a;abdh|adh2489|dh23489|d2346789|d02346789|!012346789|!012346789\n\
drawn 11;d;cdgh;c5|h158|c02|g|h;cgh|gh5|g158|g01258|!01258|!01258";

fn node(letter: u8) -> NodeId {
    NodeId(u32::from(letter.wrapping_sub(b'a')))
}

fn object(index: u32) -> Oid {
    Oid::object(Vid(1), index % 0x10_0000)
}

/// Adds an id, unless the list has one that is as great.
fn put(list: &mut OidList, oid: Oid) -> Result<(), NoMemory> {
    match list.get(list.len().saturating_sub(1)) {
        Some(last) if oid <= *last => Ok(()),
        _ => list.push(oid),
    }
}

fn list_of(alloc: Global, digits: &[u8]) -> Result<OidList, NoMemory> {
    let mut list = OidList::new(alloc);
    for digit in digits {
        put(&mut list, object(u32::from(digit.wrapping_sub(b'0'))))?;
    }
    Ok(list)
}

/// Who is waited for, whether all have answered, and the objects, behind what is there.
fn show(lists: &Lists, text: &mut Vec<u8>) -> Result<(), NoMemory> {
    for letter in b'a'..b'i' {
        if lists.waits_for(node(letter)) {
            text.push(letter)?;
        }
    }
    if lists.finished() {
        text.push(b'!')?;
    }
    for oid in lists.objects() {
        text.push(b'0'.wrapping_add((oid.index() % 10) as u8))?;
    }
    Ok(())
}

/// What is shown at first and after each answer.
fn states_of(alloc: Global, lists: &mut Lists, answers: &[u8]) -> Result<Vec<u8>, NoMemory> {
    let mut text = Vec::new(alloc);
    show(lists, &mut text)?;
    for answer in answers.split(|byte| *byte == b'|') {
        if let [from, digits @ ..] = answer {
            lists.add(node(*from), &list_of(alloc, digits)?)?;
            text.push(b'|')?;
            show(lists, &mut text)?;
        }
    }
    Ok(text)
}

fn is_answered(alloc: Global, row: &[u8]) -> Result<bool, NoMemory> {
    let mut fields = row.split(|byte| *byte == b';').skip(1);
    let (Some([me]), Some(letters), Some(answers), Some(want)) = (
        fields.next(),
        fields.next(),
        fields.next(),
        fields.next(),
    ) else {
        return Ok(false);
    };
    let mut members = Vec::new(alloc);
    for letter in letters {
        members.push(node(*letter))?;
    }
    let mut lists = Lists::new(alloc, node(*me), members.as_slice())?;
    Ok(states_of(alloc, &mut lists, answers)?.as_slice() == want)
}

#[test]
fn answers_as_the_table(rt: HostRuntime) -> Result<(), Fail> {
    let mut rows = 0_u32;
    for row in LISTS.split(|byte| *byte == b'\n') {
        assert!(rt; is_answered(rt.alloc(), row)?, "row {rows}");
        rows = rows.wrapping_add(1);
    }
    assert_eq!(rt; rows, 27);
    Ok(())
}

/// The first ids at a distance of `step`.
fn every(alloc: Global, step: u32, count: u32) -> Result<OidList, NoMemory> {
    let mut list = OidList::new(alloc);
    for k in 0..count {
        put(&mut list, object(k.wrapping_mul(step)))?;
    }
    Ok(list)
}

// Of the 10,000 first even indexes and the 10,000 first multiples of three, the 3,334 multiples of six below 20,000 are
// in both lists. The evens sum up to 99,990,000, the multiples of three to 149,985,000, those of six to 33,336,666.
#[test]
fn unites_long_lists(rt: HostRuntime) -> Result<(), Fail> {
    let alloc = rt.alloc();
    let mut lists = Lists::new(alloc, NodeId(0), &[NodeId(0), NodeId(1), NodeId(2)])?;
    lists.add(NodeId(1), &every(alloc, 2, 10_000)?)?;
    lists.add(NodeId(2), &every(alloc, 3, 10_000)?)?;
    let mut sum = 0_u64;
    for oid in lists.objects() {
        sum = sum.wrapping_add(u64::from(oid.index()));
    }
    assert_eq!(rt;
        (lists.finished(), lists.objects().len(), sum),
        (true, 16_666, 216_638_334)
    );
    Ok(())
}
