//! How many requests a report tells of in each way.

ghost use Rattle.std.specs.Prelude.{◌≡◌, ◌+◌, IfOk};

use object_id::NoMemory;

/// How many requests a report tells of in each way: they are done, refused, without reply from a lost gateway, without reply at the end,
/// or were never started.
#[derive(Clone, Copy, Debug, PartialEq, Eq)]
pub struct Counts {
    pub ok: u64,
    pub refused: u64,
    pub gone: u64,
    pub pending: u64,
    pub unsent: u64,
}

/// One more. A count that doesn't fit is told as want of memory: a script hasn't so many requests.
pub fn one_more(count: u64) -> Result<u64, NoMemory>
    ensures { IfOk result (λ more. more ≡ count + 1) }
{
    match count.checked_add(1) {
        Some(more) => Ok(more),
        None => Err(NoMemory),
    }
}

/// The next number. One that doesn't fit is told as want of memory: a script hasn't so many requests.
pub fn next_number(number: u32) -> Result<u32, NoMemory>
    ensures { IfOk result (λ next. next ≡ number + 1) }
{
    match number.checked_add(1) {
        Some(next) => Ok(next),
        None => Err(NoMemory),
    }
}
