//! Lists of ids of objects. What no clause says: that each call comes through with ample memory.

use crate::plain_rows::key;
use object_id::{NoMemory, Oid, Vid};
use object_store::OidList;
use std::alloc::Global;
use std::test::Fail;

#[test]
fn grows_a_list_of_ids(rt: HostRuntime) -> Result<(), Fail> {
    let mut list = OidList::new(rt.alloc());
    let first = key(1, 0, 0).oid;
    list.push(first)?;
    assert_eq!(rt; (list.get(0), list.get(1)), (Some(&first), None));
    Ok(())
}

/// Two ids of disk 1, and one of disk 2 and of disk 3.
fn four_ids() -> [Oid; 4] {
    [
        key(1, 0, 0).oid,
        key(1, 1, 0).oid,
        key(2, 0, 0).oid,
        key(3, 0, 0).oid,
    ]
}

fn list_of_four(alloc: Global) -> Result<OidList, NoMemory> {
    let mut list = OidList::new(alloc);
    for oid in four_ids() {
        if list.len() == 0 || list.as_slice()[list.len() - 1] < oid {
            list.push(oid)?;
        }
    }
    Ok(list)
}

// The first id goes, then one in the middle and one that isn't there.
#[test]
fn takes_ids_out_of_a_list(rt: HostRuntime) -> Result<(), Fail> {
    let mut list = list_of_four(rt.alloc())?;
    let [a, b, c, d] = four_ids();
    assert_eq!(rt; list.remove_first(), Some(a));
    assert!(rt; list.has(c) && !list.has(a));
    list.remove(c);
    list.remove(a);
    assert_eq!(rt; list.as_slice(), [b, d].as_slice());
    Ok(())
}

/// The second and the last of the four.
fn list_of_two(alloc: Global) -> Result<OidList, NoMemory> {
    let [a, _, c, _] = four_ids();
    let mut list = list_of_four(alloc)?;
    list.remove(a);
    list.remove(c);
    Ok(list)
}

// What is kept goes by the disk.
#[test]
fn keeps_ids_in_a_list(rt: HostRuntime) -> Result<(), Fail> {
    let mut list = list_of_two(rt.alloc())?;
    let [_, _, _, last] = four_ids();
    list.retain(|oid| oid.vid() != Vid(1));
    assert_eq!(rt; list.copy(rt.alloc())?.as_slice(), [last].as_slice());
    assert_eq!(rt;
        (list.remove_first(), list.remove_first()),
        (Some(last), None)
    );
    assert!(rt; list.is_empty());
    Ok(())
}
