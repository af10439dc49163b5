use thiserror::Error;

/// Why bytes are no header. Where several hold, the one listed first is given.
#[derive(Clone, Copy, Debug, PartialEq, Eq, Error)]
pub enum HeaderFault {
    #[error("fewer than 48 bytes")]
    ShortHeader,
    #[error("the version isn't 1")]
    VerMismatch,
    #[error("the opcode is unknown")]
    UnknownOpcode,
}
