ghost use Rattle.std.specs.Prelude.{◌≡◌, ◌++◌, ◌&&◌, nat_lt, true, OnOk, IfOk};
ghost use Rattle.peer_proto.specs.Ids.{is_oid, id_bytes, ids_in, are_id_bytes};

use object_id::{NoMemory, Oid, u64_at};
use object_store::OidList;
use std::alloc::Global;

/// How many bytes an object id takes.
pub const ID_BYTES: usize = 8;

/// Whether a number is an object id.
pub fn is_oid(raw: u64) -> bool
    ensures { result ≡ is_oid raw }
{
    Oid::from_u64(raw).is_ok()
}

/// The object id of a number that is one.
pub fn oid_of(raw: u64) -> Oid
    requires { is_oid raw ≡ true }
    ensures { result ≡ raw }
{
    Oid::from_u64(raw).unwrap()
}

/// Whether a number is an object id above the one before it.
fn is_next(last: u64, oid: u64) -> bool
    ensures { result ≡ (nat_lt last oid && is_oid oid) }
{
    last < oid && is_oid(oid)
}

/// Whether bytes are those of ascending object ids.
pub fn are_id_bytes(bytes: &[u8]) -> bool
    ensures { result ≡ are_id_bytes bytes.now }
{
    if !bytes.len().is_multiple_of(ID_BYTES) {
        return false;
    }
    let mut last = 0;
    for k in 0..bytes.len() / ID_BYTES {
        let oid = u64_at(bytes, k * ID_BYTES);
        if !is_next(last, oid) {
            return false;
        }
        last = oid;
    }
    true
}

/// The object ids whose bytes these are.
pub fn ids_in(alloc: Global, bytes: &[u8]) -> Result<OidList, NoMemory>
    requires { are_id_bytes bytes.now ≡ true }
    ensures { IfOk result (λ oids. oids ≡ ids_in bytes.now) }
{
    let count = bytes.len() / ID_BYTES;
    let mut oids = Vec::with_capacity(alloc, count)?;
    for k in 0..count {
        oids.push(oid_of(u64_at(bytes, k * ID_BYTES)))?;
    }
    Ok(OidList::from_vec(oids))
}

pub fn put_ids(out: &mut Vec<u8>, oids: &OidList) -> Result<(), NoMemory>
    ensures { OnOk result (out.new.items ≡ out.old.items ++ id_bytes oids.now) }
{
    for oid in oids.as_slice() {
        out.extend_from_slice(&oid.as_u64().to_le_bytes())?;
    }
    Ok(())
}
