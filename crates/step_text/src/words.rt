use crate::fault::Fault;
use hex::FromHexError;
use object_id::{Bytes, Epoch, NodeId, Oid, Policy, VdiSpec, Vid};
use std::alloc::{AllocError, Global};
use std::fmt::Write;
use std::str::{FromStr, SplitWhitespace};

/// The words of a line that are still to be read.
#[derive(Drop)]
pub struct Words<'a> {
    pub alloc: Global,
    rest: SplitWhitespace<'a>,
}

impl<'a> Words<'a> {
    pub(crate) fn new(alloc: Global, line: &'a str) -> Words<'a> {
        Words {
            alloc,
            rest: line.split_whitespace(),
        }
    }

    pub(crate) fn word(&mut self) -> Result<&'a str, Fault> {
        match self.rest.next() {
            Some(word) => Ok(word),
            None => Err(Fault::Word),
        }
    }

    pub(crate) fn number<N: FromStr>(&mut self) -> Result<N, Fault>
    where
        N::Err: Drop,
    {
        number_of(self.word()?)
    }

    pub(crate) fn node(&mut self) -> Result<NodeId, Fault> {
        Ok(NodeId(self.number()?))
    }

    pub(crate) fn epoch(&mut self) -> Result<Epoch, Fault> {
        Ok(Epoch(self.number()?))
    }

    pub(crate) fn vid(&mut self) -> Result<Vid, Fault> {
        Ok(Vid(self.number()?))
    }

    pub(crate) fn oid(&mut self) -> Result<Oid, Fault> {
        Oid::from_u64(self.number()?).map_err(|_| Fault::Word)
    }

    /// A policy as scripts have it: a number of copies, or data and parity strips with a colon between them.
    pub(crate) fn policy(&mut self) -> Result<Policy, Fault> {
        let word = self.word()?;
        match word.split_once(':') {
            Some((data, parity)) => Ok(Policy::Coded {
                d: number_of(data)?,
                p: number_of(parity)?,
            }),
            None => Ok(Policy::Copies(number_of(word)?)),
        }
    }

    pub(crate) fn spec(&mut self) -> Result<VdiSpec, Fault> {
        let size = self.number()?;
        let policy = self.policy()?;
        let shift = self.number()?;
        Ok(VdiSpec {
            size,
            policy,
            shift,
        })
    }

    /// A byte string: two digits a byte, and where a byte is repeated, `*COUNT.` behind it. A string of no bytes is `-`.
    pub(crate) fn bytes(&mut self) -> Result<Bytes, Fault> {
        let word = self.word()?;
        self.bytes_of(word)
    }

    /// A tag, or a dot where there is none.
    pub(crate) fn tag(&mut self) -> Result<Option<Bytes>, Fault> {
        match self.word()? {
            "." => Ok(None),
            word => Ok(Some(self.bytes_of(word)?)),
        }
    }

    /// Two byte strings.
    pub(crate) fn bytes_twice(&mut self) -> Result<(Bytes, Bytes), Fault> {
        let first = self.bytes()?;
        Ok((first, self.bytes()?))
    }

    /// A name and a tag.
    pub(crate) fn named(&mut self) -> Result<(Bytes, Option<Bytes>), Fault> {
        let name = self.bytes()?;
        Ok((name, self.tag()?))
    }

    fn bytes_of(&self, word: &str) -> Result<Bytes, Fault> {
        let mut bytes = Vec::new(self.alloc);
        if word != "-" {
            for piece in word.split('.') {
                self.push_piece(&mut bytes, piece)?;
            }
        }
        Ok(Bytes::from_vec(bytes))
    }

    fn push_piece(&self, bytes: &mut Vec<u8>, piece: &str) -> Result<(), Fault> {
        let (digits, count) = match piece.split_once('*') {
            Some((digits, count)) => (digits, number_of::<u32>(count)?),
            None => (piece, 1),
        };
        let decoded = decoded(self.alloc, digits)?;
        bytes.extend_from_slice(decoded.as_slice())?;
        if let Some(last) = decoded.last() {
            for _ in 1..count {
                bytes.push(*last)?;
            }
        }
        Ok(())
    }
}

fn decoded(alloc: Global, digits: &str) -> Result<Vec<u8>, Fault> {
    match hex::decode(alloc, digits) {
        Ok(bytes) => Ok(bytes),
        Err(FromHexError::OutOfMemory) => Err(Fault::NoMemory),
        Err(_) => Err(Fault::Word),
    }
}

fn number_of<N: FromStr>(word: &str) -> Result<N, Fault>
where
    N::Err: Drop,
{
    match word.parse::<N>() {
        Ok(number) => Ok(number),
        Err(_) => Err(Fault::Word),
    }
}

/// Writes a byte string as `Words::bytes` reads it. A byte that stands up to three times in a row is spelled each time.
pub(crate) fn write_bytes(out: &mut String, bytes: &[u8]) -> Result<(), AllocError> {
    if bytes.is_empty() {
        return out.push('-');
    }
    let mut run = Run { byte: 0, count: 0 };
    for byte in bytes {
        if run.count != 0 && run.byte == *byte {
            run.count = run.count.saturating_add(1);
        } else {
            write_run(out, run)?;
            run = Run {
                byte: *byte,
                count: 1,
            };
        }
    }
    write_run(out, run)
}

/// Writes a policy as `Words::policy` reads it.
pub(crate) fn write_policy(out: &mut String, policy: Policy) -> Result<(), AllocError> {
    match policy {
        Policy::Copies(copies) => write!(out, "{copies}"),
        Policy::Coded { d, p } => write!(out, "{d}:{p}"),
    }
}

/// Writes a specification as `Words::spec` reads it.
pub(crate) fn write_spec(out: &mut String, spec: VdiSpec) -> Result<(), AllocError> {
    write!(out, "{} ", spec.size)?;
    write_policy(out, spec.policy)?;
    write!(out, " {}", spec.shift)
}

/// Writes a name and a tag as `Words::bytes` and `Words::tag` read them.
pub(crate) fn write_named(
    out: &mut String,
    name: &Bytes,
    tag: &Option<Bytes>,
) -> Result<(), AllocError> {
    write_bytes(out, name.as_slice())?;
    out.push(' ')?;
    match tag {
        Some(tag) => write_bytes(out, tag.as_slice()),
        None => out.push('.'),
    }
}

/// How often a byte stands in a row.
#[derive(Clone, Copy)]
struct Run {
    byte: u8,
    count: u32,
}

fn write_run(out: &mut String, run: Run) -> Result<(), AllocError> {
    if 3 < run.count {
        return write!(out, "{:02x}*{}.", run.byte, run.count);
    }
    for _ in 0..run.count {
        write!(out, "{:02x}", run.byte)?;
    }
    Ok(())
}
