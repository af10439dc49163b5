//! The text of the script that a number generates, made in one pass: each word is drawn where its request is written.
ghost use Rattle.std.specs.Prelude.{◌≡◌, ◌++◌, ◌∷◌, [], map, flat_map, codes, IfOk, OnOk};
ghost use Rattle.std.specs.List.{range_with_len};
ghost use Rattle.schedule.specs.Generated.{words_from, rng_after, session_line, disk_lines, request_line, control_lines, opening_lines};
ghost use Rattle.schedule.specs.GeneratedScript.{text_of_lines, generated_text};

use crate::generated_lines::{push_control, push_disk, push_request, push_session};
use crate::generator::{generator_of, next_word};
use object_id::{Bytes, NoMemory};
use rand_xoshiro::SplitMix64;
use std::alloc::Global;

/// Adds the lines of the four sessions.
fn push_sessions(text: &mut Vec<u8>) -> Result<(), NoMemory>
    ensures { OnOk result (text.new.items ≡ text.old.items ++ text_of_lines (map session_line (range_with_len 1 4))) }
{
    for session in 1..5 {
        push_session(text, session)?;
    }
    Ok(())
}

/// Adds the lines of the sessions' disks.
fn push_disks(text: &mut Vec<u8>) -> Result<(), NoMemory>
    ensures { OnOk result (text.new.items ≡ text.old.items ++ text_of_lines (flat_map disk_lines (range_with_len 1 4))) }
{
    for session in 1..5 {
        push_disk(text, session)?;
    }
    Ok(())
}

/// Adds what stands before the rounds.
fn push_opening(text: &mut Vec<u8>) -> Result<(), NoMemory>
    ensures { OnOk result (text.new.items ≡ text.old.items ++ text_of_lines opening_lines) }
{
    text.extend_from_slice(b"cluster 6\ntries 1000\n")?;
    push_sessions(text)?;
    push_disks(text)?;
    text.extend_from_slice(b"settle\n")?;
    Ok(())
}

/// Adds a round's fifty requests, each drawn by a word.
fn push_requests(text: &mut Vec<u8>, rng: &mut SplitMix64) -> Result<(), NoMemory>
    ensures text { OnOk result (text.new.items ≡ text.old.items ++ text_of_lines (map request_line (words_from 50 rng.old))) }
    ensures state { OnOk result (rng.new ≡ rng_after 50 rng.old) }
{
    for _ in 0..50_u32 {
        push_request(text, next_word(rng))?;
    }
    Ok(())
}

/// Adds a round.
fn push_round(text: &mut Vec<u8>, rng: &mut SplitMix64, round: u64) -> Result<(), NoMemory>
    ensures text { OnOk result (text.new.items ≡ text.old.items
        ++ text_of_lines (control_lines round ++ map request_line (words_from 50 rng.old) ++ codes "settle" ∷ [])) }
    ensures state { OnOk result (rng.new ≡ rng_after 50 rng.old) }
{
    push_control(text, round)?;
    push_requests(text, rng)?;
    text.extend_from_slice(b"settle\n")?;
    Ok(())
}

/// The text of the script that a number generates.
pub fn generated_text(alloc: Global, number: u64) -> Result<Bytes, NoMemory>
    ensures { IfOk result (λ text. text ≡ generated_text number) }
{
    let mut text = Vec::new(alloc);
    push_opening(&mut text)?;
    let mut rng = generator_of(number);
    for round in 0..4 {
        push_round(&mut text, &mut rng, round)?;
    }
    Ok(Bytes::from_vec(text))
}
