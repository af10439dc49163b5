/// Why a cell made no step.
#[derive(Clone, Copy, Debug, PartialEq, Eq)]
pub enum ActFault {
    /// The clock had no stamp left. The cell is as it was.
    ClockSpent,
    /// The cell is spent.
    NoMemory,
}
