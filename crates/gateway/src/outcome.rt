use object_id::{Bytes, Cause};

/// What an attempt comes to, once it is known what became of one more message.
#[derive(Debug, Drop)]
pub(crate) enum Outcome {
    /// A message is unanswered.
    Awaited,
    /// The attempt has ended, and the work waits for its next one.
    Failed,
    /// The work is done, and gave these bytes.
    Done(Bytes),
    /// The request is refused.
    Refused(Cause),
}
