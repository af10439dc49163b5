//! What is brought to a step.

ghost use Rattle.std.specs.Prelude.{◌≡◌, ◌≢◌, [], ◌∷◌, IfOk};

use live_cells::Carry;
use object_id::NoMemory;
use stamp_clock::ClockName;
use std::alloc::Global;

/// One carry, as what is brought.
#[tactic(auto, using(crate::proofs::BroughtLemmas::some_one))]
pub(crate) fn brought_of<N: ClockName>(
    alloc: Global,
    carry: Carry<N>,
) -> Result<Vec<Carry<N>>, NoMemory>
    ensures brought { IfOk result (λ brought. brought.items ≡ carry ∷ []) }
    ensures some { IfOk result (λ brought. brought.items ≢ []) }
{
    let mut brought = Vec::with_capacity(alloc, 1)?;
    brought.push(carry)?;
    Ok(brought)
}

/// Two carries, as what is brought.
#[tactic(auto, using(crate::proofs::BroughtLemmas::some_two))]
pub(crate) fn both_brought<N: ClockName>(
    alloc: Global,
    one: Carry<N>,
    other: Carry<N>,
) -> Result<Vec<Carry<N>>, NoMemory>
    ensures brought { IfOk result (λ brought. brought.items ≡ one ∷ other ∷ []) }
    ensures some { IfOk result (λ brought. brought.items ≢ []) }
{
    let mut brought = Vec::with_capacity(alloc, 2)?;
    brought.push(one)?;
    brought.push(other)?;
    Ok(brought)
}
