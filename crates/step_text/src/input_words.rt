//! The words of a node's input, read and written.

use crate::entry_words::{read_entry, write_entry};
use crate::fault::Fault;
use crate::words::{Words, write_bytes, write_named, write_spec};
use crate::work_words::{read_work, write_work};
use epoch_log::EntryList;
use object_id::NoMemory;
use peer_proto::{
    DiskAsk, PeerReq, PeerRsp, VdiAsk, decode_ask, decode_say, encode_ask, encode_say,
};
use sheep_node::{Ask, Input};
use std::alloc::{AllocError, Global};
use std::fmt::Write;

/// The input that a line spells.
pub fn input_of(alloc: Global, line: &str) -> Result<Input, Fault> {
    let mut words = Words::new(alloc, line);
    let kind = words.word()?;
    read_input(kind, &mut words)
}

/// The input of this kind that the next words spell. Messages stand as their bytes.
pub(crate) fn read_input(kind: &str, words: &mut Words) -> Result<Input, Fault> {
    match kind {
        "guest" => Ok(Input::Guest {
            req: words.number()?,
            session: words.number()?,
            ask: read_ask(words)?,
        }),
        "request" => Ok(Input::Request(read_request(words)?)),
        "reply" => Ok(Input::Reply(read_reply(words)?)),
        "lost" => Ok(Input::Lost {
            number: words.number()?,
        }),
        "log" => Ok(Input::LogEntry(read_entry(words)?)),
        "put" => Ok(Input::Put),
        "recover_tick" => Ok(Input::RecoverTick),
        "retry_tick" => Ok(Input::RetryTick),
        "back" => Ok(Input::Back {
            entries: read_entries(words)?,
        }),
        _ => Err(Fault::Word),
    }
}

fn read_request(words: &mut Words) -> Result<PeerReq, Fault> {
    let bytes = words.bytes()?;
    Ok(decode_ask(words.alloc, bytes.as_slice())?)
}

fn read_reply(words: &mut Words) -> Result<PeerRsp, Fault> {
    let bytes = words.bytes()?;
    Ok(decode_say(words.alloc, bytes.as_slice())?)
}

fn read_entries(words: &mut Words) -> Result<EntryList, Fault> {
    let count: u32 = words.number()?;
    let mut entries = EntryList::new(words.alloc);
    for _ in 0..count {
        entries.push(read_entry(words)?)?;
    }
    Ok(entries)
}

/// What the next words ask of a node.
pub(crate) fn read_ask(words: &mut Words) -> Result<Ask, Fault> {
    match words.word()? {
        "disk" => Ok(Ask::Disk(read_disk_ask(words)?)),
        "vdi" => Ok(Ask::Vdi(read_command(words)?)),
        "object" => Ok(Ask::Object(read_work(words)?)),
        "entry" => Ok(Ask::Entry(read_entry(words)?)),
        _ => Err(Fault::Word),
    }
}

fn read_disk_ask(words: &mut Words) -> Result<DiskAsk, Fault> {
    match words.word()? {
        "read" => Ok(DiskAsk::Read {
            offset: words.number()?,
            length: words.number()?,
        }),
        "write" => Ok(DiskAsk::Write {
            offset: words.number()?,
            bytes: words.bytes()?,
        }),
        _ => Err(Fault::Word),
    }
}

fn read_command(words: &mut Words) -> Result<VdiAsk, Fault> {
    match words.word()? {
        "create" => Ok(VdiAsk::Create {
            name: words.bytes()?,
            spec: words.spec()?,
        }),
        "open" => {
            let (name, tag) = words.named()?;
            Ok(VdiAsk::Attach { name, tag })
        }
        "close" => Ok(VdiAsk::Close),
        "snapshot" => Ok(VdiAsk::Snapshot {
            tag: words.bytes()?,
        }),
        "clone" => read_clone(words),
        "delete" => {
            let (name, tag) = words.named()?;
            Ok(VdiAsk::Delete { name, tag })
        }
        "check" => Ok(VdiAsk::Check),
        _ => Err(Fault::Word),
    }
}

fn read_clone(words: &mut Words) -> Result<VdiAsk, Fault> {
    let (base, tag) = words.bytes_twice()?;
    Ok(VdiAsk::Clone {
        base,
        tag,
        name: words.bytes()?,
    })
}

/// Writes an input as `input_of` reads it.
pub fn write_input(alloc: Global, out: &mut String, input: &Input) -> Result<(), NoMemory> {
    match input {
        Input::Guest { req, session, ask } => {
            write!(out, "guest {req} {session} ")?;
            write_ask(out, ask)?;
        }
        Input::Request(request) => {
            out.push_str("request ")?;
            write_bytes(out, encode_ask(alloc, request)?.as_slice())?;
        }
        Input::Reply(reply) => {
            out.push_str("reply ")?;
            write_bytes(out, encode_say(alloc, reply)?.as_slice())?;
        }
        Input::Lost { number } => write!(out, "lost {number}")?,
        Input::LogEntry(entry) => {
            out.push_str("log ")?;
            write_entry(out, entry)?;
        }
        Input::Put => out.push_str("put")?,
        Input::RecoverTick => out.push_str("recover_tick")?,
        Input::RetryTick => out.push_str("retry_tick")?,
        Input::Back { entries } => write_entries(out, entries)?,
    }
    Ok(())
}

fn write_entries(out: &mut String, entries: &EntryList) -> Result<(), AllocError> {
    write!(out, "back {}", entries.len())?;
    for entry in entries.as_slice() {
        out.push(' ')?;
        write_entry(out, entry)?;
    }
    Ok(())
}

fn write_ask(out: &mut String, ask: &Ask) -> Result<(), AllocError> {
    match ask {
        Ask::Disk(ask) => write_disk_ask(out, ask),
        Ask::Vdi(ask) => write_command(out, ask),
        Ask::Object(work) => {
            out.push_str("object ")?;
            write_work(out, work)
        }
        Ask::Entry(entry) => {
            out.push_str("entry ")?;
            write_entry(out, entry)
        }
    }
}

fn write_disk_ask(out: &mut String, ask: &DiskAsk) -> Result<(), AllocError> {
    match ask {
        DiskAsk::Read { offset, length } => write!(out, "disk read {offset} {length}"),
        DiskAsk::Write { offset, bytes } => {
            write!(out, "disk write {offset} ")?;
            write_bytes(out, bytes.as_slice())
        }
    }
}

fn write_command(out: &mut String, ask: &VdiAsk) -> Result<(), AllocError> {
    match ask {
        VdiAsk::Create { name, spec } => {
            out.push_str("vdi create ")?;
            write_bytes(out, name.as_slice())?;
            out.push(' ')?;
            write_spec(out, *spec)
        }
        VdiAsk::Attach { name, tag } => {
            out.push_str("vdi open ")?;
            write_named(out, name, tag)
        }
        VdiAsk::Close => out.push_str("vdi close"),
        VdiAsk::Snapshot { tag } => {
            out.push_str("vdi snapshot ")?;
            write_bytes(out, tag.as_slice())
        }
        VdiAsk::Clone { base, tag, name } => {
            for (text, before) in [(base, "vdi clone "), (tag, " "), (name, " ")] {
                out.push_str(before)?;
                write_bytes(out, text.as_slice())?;
            }
            Ok(())
        }
        VdiAsk::Delete { name, tag } => {
            out.push_str("vdi delete ")?;
            write_named(out, name, tag)
        }
        VdiAsk::Check => out.push_str("vdi check"),
    }
}
