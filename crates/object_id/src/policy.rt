ghost use Rattle.std.specs.Prelude.{◌≡◌, ◌↔◌, IfOk, IsTrue};
ghost use Rattle.object_id.specs.Policy.{IsPolicy, is_width as is_number_of_data_strips, policy_byte, strips_of, wanted_of, need_of};

use crate::limits::{COPIES_MAX, DATA_STRIPS_MAX, PARITY_MAX};
use crate::oid::Kind;

/// How an object of a disk is kept on several nodes.
#[derive(Clone, Copy, Debug, PartialEq, Eq)]
pub enum Policy {
    /// So many whole copies, 1 to [`COPIES_MAX`].
    Copies(u8),
    /// `d` data strips, 2, 4, 8 or 16, and `p` parity strips, 1 to [`PARITY_MAX`]. Inodes have `p + 1` whole copies.
    Coded { d: u8, p: u8 },
}

/// A policy byte and a number of copies that spell no policy.
#[derive(Clone, Copy, Debug, PartialEq, Eq)]
pub struct BadPolicy;

/// Whether there may be so many data strips.
fn is_width(d: u8) -> bool
    ensures { result ≡ is_number_of_data_strips d }
{
    d == 2 || d == 4 || d == 8 || d == DATA_STRIPS_MAX
}

impl Policy {
    /// Reads the policy that a policy byte and the number of copies beside it spell: byte 0 with 1 to 31 whole
    /// copies, or d / 2 in the high four bits and p in the low four, with d + p strips.
    pub fn from_byte(byte: u8, copies: u8) -> Result<Self, BadPolicy>
        ensures ok { IfOk result (λ policy. IsPolicy policy × (policy_byte policy ≡ byte) × (strips_of policy ≡ copies)) }
        // Each policy has one spelling, and it is read.
        ensures only { (policy : Policy) → IsPolicy policy → policy_byte policy ≡ byte → strips_of policy ≡ copies
            → result ≡ Ok policy }
    {
        let policy = if byte == 0 {
            Policy::Copies(copies)
        } else {
            Policy::Coded {
                d: byte / 16 * 2,
                p: byte % 16,
            }
        };
        if policy.is_valid() && policy.wanted(Kind::Block) == copies {
            Ok(policy)
        } else {
            Err(BadPolicy)
        }
    }

    /// Whether the numbers are such as a policy may have.
    pub fn is_valid(self) -> bool
        ensures { IsTrue result ↔ IsPolicy self }
    {
        match self {
            Policy::Copies(copies) => 1 <= copies && copies <= COPIES_MAX,
            Policy::Coded { d, p } => is_width(d) && 1 <= p && p <= PARITY_MAX,
        }
    }

    /// The policy byte: 0 for whole copies, else d / 2 in the high four bits and p in the low four.
    pub fn to_byte(self) -> u8
        requires { IsPolicy self }
        ensures { result ≡ policy_byte self }
    {
        match self {
            Policy::Copies(_) => 0,
            Policy::Coded { d, p } => d / 2 * 16 + p,
        }
    }

    /// On how many nodes an object of this kind is kept.
    pub fn wanted(self, kind: Kind) -> u8
        requires { IsPolicy self }
        ensures { result ≡ wanted_of self kind }
    {
        match (self, kind) {
            (Policy::Copies(copies), _) => copies,
            (Policy::Coded { d, p }, Kind::Block) => d + p,
            (Policy::Coded { d: _, p }, Kind::Inode) => p + 1,
        }
    }

    /// How many of these nodes a read needs.
    pub fn need(self, kind: Kind) -> u8
        requires { IsPolicy self }
        ensures { result ≡ need_of self kind }
    {
        match (self, kind) {
            (Policy::Coded { d, p: _ }, Kind::Block) => d,
            _ => 1,
        }
    }
}
