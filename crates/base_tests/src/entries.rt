//! Entries of the log: their copies, and which are the same.

use object_id::{
    Bytes, Entry, Epoch, Member, MemberList, NoMemory, NodeId, Origin, Policy, VdiSpec, Vid,
};
use std::alloc::Global;
use std::test::Fail;

// A body that never finds memory would meet every contract here.
#[test]
fn copies_an_entry(rt: HostRuntime) -> Result<(), Fail> {
    let alloc = rt.alloc();
    let name = Bytes::from_slice(alloc, b"vm")?;
    let tag = name.copy(alloc)?;
    let entry = Entry::Lock {
        by: NodeId(3),
        session: 7,
        name,
        tag: Some(tag),
    };
    let copy = entry.copy(alloc)?;
    match &copy {
        Entry::Lock {
            by,
            session,
            name,
            tag: Some(tag),
        } => {
            assert_eq!(rt; (*by, *session), (NodeId(3), 7));
            assert_eq!(rt; name.as_slice(), b"vm".as_slice());
            assert_eq!(rt; tag.as_slice(), b"vm".as_slice());
        }
        _ => assert!(rt; false, "the copy is another entry"),
    }
    Ok(())
}

#[test]
fn copies_members(rt: HostRuntime) -> Result<(), Fail> {
    let mut members = MemberList::new(rt.alloc());
    for n in 0..3 {
        members.push(Member {
            node: NodeId(n),
            zone: n,
            vnodes: 64,
        })?;
    }
    let copy = members.copy(rt.alloc())?;
    assert_eq!(rt; copy.len(), 3);
    assert!(rt;
        copy.get(2)
            .is_some_and(|member| member.node == NodeId(2) && member.zone == 2)
    );
    assert!(rt; copy.get(3).is_none());
    Ok(())
}

fn spec(size: u64, shift: u8) -> VdiSpec {
    VdiSpec {
        size,
        policy: Policy::Copies(3),
        shift,
    }
}

#[test]
fn specs_end_at_their_limits(rt: HostRuntime) {
    // As many objects as a disk may have, of the least size and of the greatest.
    assert!(rt; spec(4_294_967_296, 12).is_valid() && !spec(4_294_967_808, 12).is_valid());
    assert!(rt;
        spec(17_592_186_044_416, 24).is_valid() && !spec(17_592_186_044_928, 24).is_valid()
    );
    assert!(rt; spec(512, 12).is_valid() && !spec(0, 12).is_valid());
    assert!(rt; !spec(511, 12).is_valid() && !spec(513, 12).is_valid());
    assert!(rt; !spec(512, 11).is_valid() && !spec(512, 25).is_valid());
    let policy = Policy::Coded { d: 3, p: 2 };
    assert!(rt;
        !VdiSpec {
            policy,
            ..spec(512, 22)
        }
        .is_valid()
    );
}

#[test]
fn origins_have_names_and_specs(rt: HostRuntime) -> Result<(), Fail> {
    let alloc = rt.alloc();
    assert!(rt;
        Origin::Fresh {
            spec: spec(512, 22)
        }
        .is_valid()
    );
    assert!(rt; !Origin::Fresh { spec: spec(0, 22) }.is_valid());
    let tag = Bytes::from_slice(alloc, b"t1")?;
    assert!(rt; Origin::SnapshotOf { tag }.is_valid());
    let base = Bytes::from_slice(alloc, b"vm")?;
    let tag = Bytes::new(alloc);
    assert!(rt; !Origin::CloneOf { base, tag }.is_valid());
    Ok(())
}

fn lock(alloc: Global, session: u32, name: &[u8], tag: Option<Bytes>) -> Result<Entry, NoMemory> {
    Ok(Entry::Lock {
        by: NodeId(3),
        session,
        name: Bytes::from_slice(alloc, name)?,
        tag,
    })
}

#[test]
fn entries_are_the_same_in_every_field(rt: HostRuntime) -> Result<(), Fail> {
    let alloc = rt.alloc();
    let entry = lock(alloc, 7, b"vm", None)?;
    assert!(rt; entry.same(&entry.copy(alloc)?));
    assert!(rt; !entry.same(&lock(alloc, 8, b"vm", None)?));
    assert!(rt; !entry.same(&lock(alloc, 7, b"vn", None)?));
    assert!(rt; !entry.same(&lock(alloc, 7, b"vm", Some(Bytes::new(alloc)))?));
    let vid = Vid(5);
    assert!(rt; !Entry::Publish { by: NodeId(3), vid }.same(&Entry::Clone { by: NodeId(3), vid }));

    let fresh = Origin::Fresh {
        spec: spec(512, 22),
    };
    assert!(rt; fresh.same(&fresh.copy(alloc)?));
    assert!(rt;
        !fresh.same(&Origin::Fresh {
            spec: spec(512, 12)
        })
    );
    Ok(())
}
