//! The lines of a generated script, each with its LF.
ghost use Rattle.std.specs.Prelude.{◌≡◌, ◌<◌, ◌++◌, codes, decimal, OnOk};
ghost use Rattle.schedule.specs.Generated.{session_line, policy_text, create_line, disk_lines};
ghost use Rattle.schedule.specs.Generated.{piece_text, request_line, control_lines};
ghost use Rattle.schedule.specs.GeneratedScript.{text_of_lines};

use itoa::Buffer;
use object_id::NoMemory;

/// Adds a decimal number.
fn push_decimal(text: &mut Vec<u8>, number: u64) -> Result<(), NoMemory>
    ensures { OnOk result (text.new.items ≡ text.old.items ++ decimal number) }
{
    let mut buffer = Buffer::new();
    text.extend_from_slice(buffer.format(number).as_bytes())?;
    Ok(())
}

/// Adds the line of a session: its gateway is the node one below.
pub(crate) fn push_session(text: &mut Vec<u8>, session: u64) -> Result<(), NoMemory>
    requires { 0 < session }
    ensures { OnOk result (text.new.items ≡ text.old.items ++ (session_line session ++ codes "\n")) }
{
    text.extend_from_slice(b"session ")?;
    push_decimal(text, session)?;
    text.extend_from_slice(b" node ")?;
    push_decimal(text, session - 1)?;
    text.extend_from_slice(b"\n")?;
    Ok(())
}

/// The policy of a session's disk.
fn policy_word(session: u64) -> &'static [u8]
    ensures { result.now ≡ policy_text session }
{
    if session % 2 == 1 { b"3" } else { b"2:2" }
}

/// Adds the line by which a session makes its disk.
fn push_create(text: &mut Vec<u8>, session: u64) -> Result<(), NoMemory>
    ensures { OnOk result (text.new.items ≡ text.old.items ++ (create_line session ++ codes "\n")) }
{
    push_decimal(text, session)?;
    text.extend_from_slice(b" vdi create -c ")?;
    text.extend_from_slice(policy_word(session))?;
    text.extend_from_slice(b" -z 20 g")?;
    push_decimal(text, session)?;
    text.extend_from_slice(b" 64M\n")?;
    Ok(())
}

/// Adds the lines by which a session makes its disk and opens it.
pub(crate) fn push_disk(text: &mut Vec<u8>, session: u64) -> Result<(), NoMemory>
    ensures { OnOk result (text.new.items ≡ text.old.items ++ text_of_lines (disk_lines session)) }
{
    push_create(text, session)?;
    push_decimal(text, session)?;
    text.extend_from_slice(b" vdi open g")?;
    push_decimal(text, session)?;
    text.extend_from_slice(b"\n")?;
    Ok(())
}

/// Adds a read, or a write but for its byte, as a word draws it: whose it is, and the piece of the disk.
fn push_piece(text: &mut Vec<u8>, verb: &[u8], word: u64) -> Result<(), NoMemory>
    ensures { OnOk result (text.new.items ≡ text.old.items ++ piece_text verb.now word) }
{
    push_decimal(text, 1 + word % 4)?;
    text.extend_from_slice(b" vdi ")?;
    text.extend_from_slice(verb)?;
    text.extend_from_slice(b" ")?;
    push_decimal(text, word / 4 % 16_384 * 4_096)?;
    text.extend_from_slice(b" 4096")?;
    Ok(())
}

/// Adds the request that a word draws: one in four reads, and the others write a byte.
fn push_drawn(text: &mut Vec<u8>, word: u64) -> Result<(), NoMemory>
    ensures { OnOk result (text.new.items ≡ text.old.items ++ request_line word) }
{
    if (word >> 40) % 4 == 0 {
        return push_piece(text, b"read", word);
    }
    push_piece(text, b"write", word)?;
    text.extend_from_slice(b" fill ")?;
    push_decimal(text, (word >> 32) % 256)
}

/// Adds the line of the request that a word draws.
pub(crate) fn push_request(text: &mut Vec<u8>, word: u64) -> Result<(), NoMemory>
    ensures { OnOk result (text.new.items ≡ text.old.items ++ (request_line word ++ codes "\n")) }
{
    push_drawn(text, word)?;
    text.extend_from_slice(b"\n")?;
    Ok(())
}

/// What a round begins with: a node fails in round 1, and one joins in round 2.
fn control_text(round: u64) -> &'static [u8]
    ensures { result.now ≡ text_of_lines (control_lines round) }
{
    match round {
        1 => b"fail 5\n",
        2 => b"join 6\n",
        _ => b"",
    }
}

/// Adds what a round begins with.
pub(crate) fn push_control(text: &mut Vec<u8>, round: u64) -> Result<(), NoMemory>
    ensures { OnOk result (text.new.items ≡ text.old.items ++ text_of_lines (control_lines round)) }
{
    text.extend_from_slice(control_text(round))?;
    Ok(())
}
