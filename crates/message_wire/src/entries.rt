ghost use Rattle.std.specs.Prelude.{◌≡◌, ◌<◌, ◌≤◌, T, length, not, slice_get, OnOk, OnErr, MatchResult};
ghost use Rattle.std.specs.Option.{option_copied};
ghost use Rattle.std.specs.Ordering.{nat_cmp, eq_by_cmp};
ghost use Rattle.std.specs.FinMap as tree;
ghost use Rattle.std.specs.FinMap.Entries.{where_key};
ghost use Rattle.message_wire.specs.Entries.{IsFoundAt, IsMissingAt};

use object_id::NoMemory;

/// Where the number stands among entries with ascending numbers, or else where it would. Costs the logarithm of the entries.
pub(crate) fn place_of<V>(entries: &[(u32, V)], number: u32) -> Result<usize, usize>
    requires { T (tree.is_sorted nat_cmp entries.now) }
    ensures stands { MatchResult result (λ place. IsFoundAt number place entries.now) (λ place. IsMissingAt number place entries.now) }
    ensures within { MatchResult result (λ place. place < length entries.now) (λ place. place ≤ length entries.now) }
{
    entries.binary_search_by_key(&number, |entry| entry.0)
}

/// What stands at a number.
pub(crate) fn value_at<V>(entries: &[(u32, V)], number: u32) -> Option<&V>
    requires { T (tree.is_sorted nat_cmp entries.now) }
    ensures { option_copied result ≡ tree.find nat_cmp number entries.now }
{
    match place_of(entries, number) {
        Ok(place) => Some(&entries[place].1),
        Err(_) => None,
    }
}

/// The entry at a place, with its number.
pub(crate) fn entry_at<V>(entries: &[(u32, V)], place: usize) -> Option<&(u32, V)>
    ensures { option_copied result ≡ slice_get entries.now place }
{
    entries.get(place)
}

/// Puts a value at a number, in the place of the one that was there. A new entry costs a move of those behind it. Without memory the
/// entries stay.
pub(crate) fn put<V: Drop>(
    entries: &mut Vec<(u32, V)>,
    number: u32,
    value: V,
) -> Result<(), NoMemory>
    requires { T (tree.is_sorted nat_cmp entries.old.items) }
    ensures ok { OnOk result (entries.new.items ≡ tree.put nat_cmp number value entries.old.items) }
    ensures err { OnErr result (entries.new.items ≡ entries.old.items) }
    ensures sorted { T (tree.is_sorted nat_cmp entries.new.items) }
{
    match place_of(entries.as_slice(), number) {
        Ok(place) => {
            entries[place] = (number, value);
            Ok(())
        }
        Err(place) => Ok(entries.insert(place, (number, value))?),
    }
}

/// Takes out what stands at a number. Costs a move of the entries behind it.
pub(crate) fn take<V: Drop>(entries: &mut Vec<(u32, V)>, number: u32) -> Option<V>
    requires { T (tree.is_sorted nat_cmp entries.old.items) }
    ensures value { result ≡ tree.find nat_cmp number entries.old.items }
    ensures others { entries.new.items ≡ where_key nat_cmp (λ other. not (eq_by_cmp nat_cmp number other)) entries.old.items }
{
    match place_of(entries.as_slice(), number) {
        Ok(place) => {
            let (_, value) = entries.remove(place);
            Some(value)
        }
        Err(_) => None,
    }
}
