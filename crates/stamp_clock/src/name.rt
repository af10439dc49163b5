ghost use Rattle.stamp_clock.specs.Clock.{ClockId, no_clock};

use std::marker::Brand;

/// The name of a clock, for types that keep that their seats and notes are of one clock. Only contracts see it: a call at
/// `Brand` picks the clock that the name stands for.
pub trait ClockName: Send + Sync {
    ghost clock: { ClockId };
}

impl ClockName for Brand {
    ghost clock = { no_clock };
}
