//! What an opening or a clone takes from the inode that it reads.
ghost use Rattle.std.specs.Prelude.{◌≡◌, map, IfOk};
ghost use Rattle.std.specs.List.Sorted.{IsNonDecreasing};
ghost use Rattle.object_id.specs.Spec.{IsSpec, objects_of};
ghost use Rattle.vdi_ops.specs.Stage.{id_numbers};
ghost use Rattle.vdi_ops.specs.Tables.{kept_entry, table_in};

use inode::entries_in;
use object_id::{NoMemory, VdiSpec, Vid};
use std::alloc::Global;

/// How many data objects a disk has.
pub(crate) fn objects(spec: VdiSpec) -> u32
    requires { IsSpec spec }
    ensures { result ≡ objects_of spec }
{
    let object_bytes = 1 << spec.shift;
    ((spec.size + object_bytes - 1) / object_bytes) as u32
}

/// The numbers of these ids. Takes memory for them.
pub(crate) fn numbers(alloc: Global, ids: &[Vid]) -> Result<Vec<u32>, NoMemory>
    ensures { IfOk result (λ numbers. numbers.items ≡ id_numbers ids.now) }
{
    let mut numbers = Vec::with_capacity(alloc, ids.len())?;
    for id in ids {
        numbers.push(id.0)?;
    }
    Ok(numbers)
}

/// An entry if it is one of these ids, and else a hole. Costs the logarithm of the ids.
fn kept_entry(sorted: &[u32], entry: u32) -> u32
    requires { IsNonDecreasing sorted.now }
    ensures { result ≡ kept_entry sorted.now entry }
{
    match sorted.binary_search(&entry) {
        Ok(_) => entry,
        Err(_) => 0,
    }
}

/// Makes holes of the entries that are none of these ids.
fn keep_entries(sorted: &[u32], table: &mut [u32])
    requires { IsNonDecreasing sorted.now }
    ensures { table.new ≡ map (kept_entry sorted.now) table.old }
{
    for index in 0..table.len() {
        table[index] = kept_entry(sorted, table[index]);
    }
}

/// The table in an inode's bytes, with the entries that are among these ids. Sorts the ids once, and looks for each entry among
/// them; takes memory for the table.
pub(crate) fn table_in(
    alloc: Global,
    ids: Vec<u32>,
    spec: VdiSpec,
    bytes: &[u8],
) -> Result<Vec<u32>, NoMemory>
    requires { IsSpec spec }
    ensures { IfOk result (λ table. table.items ≡ table_in ids.items spec bytes.now) }
{
    let mut sorted = ids;
    sorted.sort_unstable();
    let mut table = entries_in(alloc, objects(spec), bytes)?;
    keep_entries(sorted.as_slice(), table.as_mut_slice());
    Ok(table)
}
