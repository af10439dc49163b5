ghost use Rattle.std.specs.Prelude.{◌≡◌, ◌≤◌};
ghost use Rattle.sheep_base.specs.Fault.{Rose, next_count};

/// A read or a write that failed. A count of faults says when this may come.
#[derive(Clone, Copy, Debug, PartialEq, Eq)]
pub enum Fault {
    Failed,
}

/// A fault, which raises the count.
pub(crate) fn raised(faults: &mut u64) -> Fault
    ensures next { faults.new ≡ next_count faults.old }
    ensures count { faults.old ≤ faults.new }
    ensures rose { Rose faults.old faults.new }
{
    *faults = faults.saturating_add(1);
    Fault::Failed
}
