ghost use Rattle.std.specs.Prelude.{◌≡◌};
ghost use Rattle.peer_proto.specs.Opcode.{opcode_byte, opcode_of};

/// What a message is about, as a byte of its header.
#[derive(Clone, Copy, Debug, PartialEq, Eq)]
pub enum Opcode {
    Create,
    Read,
    Write,
    List,
    RecoverRead,
}

impl Opcode {
    pub fn to_byte(self) -> u8
        ensures { result ≡ opcode_byte self }
    {
        match self {
            Opcode::Create => 0xa1,
            Opcode::Read => 0xa2,
            Opcode::Write => 0xa3,
            Opcode::List => 0xa4,
            Opcode::RecoverRead => 0xa5,
        }
    }

    pub fn from_byte(byte: u8) -> Option<Opcode>
        ensures { result ≡ opcode_of byte }
    {
        match byte {
            0xa1 => Some(Opcode::Create),
            0xa2 => Some(Opcode::Read),
            0xa3 => Some(Opcode::Write),
            0xa4 => Some(Opcode::List),
            0xa5 => Some(Opcode::RecoverRead),
            _ => None,
        }
    }
}
