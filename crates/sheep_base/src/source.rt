ghost use Rattle.std.specs.Prelude.{◌≡◌, ℕ, ◌<◌, ◌≤◌, List, length, Option, OnOk, OnErr};
ghost use Rattle.std.specs.Io.{ReadsAtMost};
ghost use Rattle.std.specs.Io.KnownBytes.{ReadConsumes};
ghost use Rattle.sheep_base.specs.Fault.{Rose};

use crate::fault::Fault;

/// Where bytes come from, in order and once each.
pub trait Source {
    /// The bytes that are left; `None` where the source doesn't tell.
    ghost left: { Self → Option (List ℕ) };

    /// How often the source has failed. It stands still at the last `u64`.
    ghost faults: { Self → ℕ };

    /// Moves the first bytes that are left to the front of `buf`, and answers how many. At `Ok(0)` none
    /// were left. At a fault what is left stays; without one the count stays.
    fn take(&mut self, buf: &mut [u8]) -> Result<usize, Fault>
        requires { 0 < length buf.old }
        ensures bound { ReadsAtMost result buf.new }
        ensures bytes { ReadConsumes (left self.old) (left self.new) result buf.new }
        ensures count { faults self.old ≤ faults self.new }
        ensures calm { OnOk result (faults self.new ≡ faults self.old) }
        ensures fault { OnErr result (Rose (faults self.old) (faults self.new)) };
}
