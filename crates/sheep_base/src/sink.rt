ghost use Rattle.std.specs.Prelude.{ℕ, ◌<◌, ◌≤◌, List, length, Bool, Option, IfOk, OnErr};
ghost use Rattle.std.specs.Io.{WritesAtMost};
ghost use Rattle.sheep_base.specs.Fault.{Rose};
ghost use Rattle.sheep_base.specs.Sink.{PutGains};

use crate::fault::Fault;

/// Where bytes go, in order and once each.
pub trait Sink {
    /// The bytes that it was given; `None` where the sink doesn't tell.
    ghost given: { Self → Option (List ℕ) };

    /// Whether sinks of this kind may stop telling. One that stopped never tells again.
    ghost stops: { Bool };

    /// How often the sink has failed. It stands still at the last `u64`.
    ghost faults: { Self → ℕ };

    /// Gives the first bytes of the piece, and answers how many: at least one, where it has any. At a
    /// fault none was given.
    fn put(&mut self, piece: &[u8]) -> Result<usize, Fault>
        ensures bound { WritesAtMost result piece.now }
        ensures some { IfOk result (λ n. 0 < length piece.now → 0 < n) }
        ensures bytes { PutGains stops (given self.old) (given self.new) result piece.now }
        ensures count { faults self.old ≤ faults self.new }
        ensures fault { OnErr result (Rose (faults self.old) (faults self.new)) };
}
