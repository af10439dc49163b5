use crate::carry::Carry;
use object_id::{Bytes, NodeId};
use stamp_clock::ClockName;

/// A message on its way from one node to another: a request, or the reply to one. Beside its bytes it has a carry of the step that sent it,
/// of the clock that N names.
#[derive(Drop)]
pub struct Letter<N: ClockName> {
    pub from: NodeId,
    pub to: NodeId,
    pub reply: bool,
    pub carry: Carry<N>,
    pub bytes: Bytes,
}
