//! The lines by which the program says what is wrong.

ghost use Rattle.std.specs.Prelude.{◌≡◌, ◌++◌, decimal, IfOk, OnOk};
ghost use Rattle.sheep.specs.Answer.{bad_line_text, bad_event_text};

use cluster_script::LineCause;
use itoa::Buffer;
use object_id::{Bytes, NoMemory};
use std::alloc::Global;

/// Adds a decimal number.
fn push_decimal(text: &mut Vec<u8>, number: u64) -> Result<(), NoMemory>
    ensures { OnOk result (text.new.items ≡ text.old.items ++ decimal number) }
{
    let mut buffer = Buffer::new();
    text.extend_from_slice(buffer.format(number).as_bytes())?;
    Ok(())
}

/// The line that names a bad line of a script.
pub fn bad_line(alloc: Global, line: u32, cause: LineCause) -> Result<Bytes, NoMemory>
    ensures { IfOk result (λ text. text ≡ bad_line_text line cause) }
{
    let mut text = Vec::from_slice(alloc, b"bad line ")?;
    push_decimal(&mut text, u64::from(line))?;
    text.extend_from_slice(b" cause ")?;
    push_decimal(&mut text, u64::from(cause.number()))?;
    text.extend_from_slice(b"\n")?;
    Ok(Bytes::from_vec(text))
}

/// The line that names a bad line of a trace.
pub fn bad_event(alloc: Global, place: u32) -> Result<Bytes, NoMemory>
    ensures { IfOk result (λ text. text ≡ bad_event_text place) }
{
    let mut text = Vec::from_slice(alloc, b"bad event ")?;
    push_decimal(&mut text, u64::from(place))?;
    text.extend_from_slice(b"\n")?;
    Ok(Bytes::from_vec(text))
}
