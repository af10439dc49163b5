//! Places in lists, one after another.

ghost use Rattle.std.specs.Prelude.{◌≡◌, ◌+◌, IfOk};

use object_id::NoMemory;

/// The next place. A place that doesn't fit is told as want of memory: a list hasn't so many items.
pub fn next_place(place: usize) -> Result<usize, NoMemory>
    ensures { IfOk result (λ next. next ≡ place + 1) }
{
    match place.checked_add(1) {
        Some(next) => Ok(next),
        None => Err(NoMemory),
    }
}
