//! The words of a line, and their numbers, at the end of a text.

ghost use Rattle.std.specs.Prelude.{◌≡◌, [], ◌∷◌, ◌++◌, codes, decimal, OnOk};
ghost use Rattle.dog_report.specs.Words.{hex, following_words};

use itoa::Buffer;
use object_id::NoMemory;

const HEX_DIGITS: &[u8; 16] = b"0123456789abcdef";

/// A byte has so many digits in base 16, and so has a result.
pub const BYTE_DIGITS: u32 = 2;
/// The id of a disk has so many.
pub const VID_DIGITS: u32 = 6;
/// The id of an object has so many.
pub const OID_DIGITS: u32 = 16;
/// A hash has so many.
pub const HASH_DIGITS: u32 = 16;

/// Adds a decimal number.
pub fn push_decimal(text: &mut Vec<u8>, number: u64) -> Result<(), NoMemory>
    ensures { OnOk result (text.new.items ≡ text.old.items ++ decimal number) }
{
    let mut buffer = Buffer::new();
    text.extend_from_slice(buffer.format(number).as_bytes())?;
    Ok(())
}

/// Adds the last digits of a number in base 16, so many.
#[tactic(auto, unfolding(crate::specs::Words::hex))]
pub fn push_hex(text: &mut Vec<u8>, digits: u32, number: u64) -> Result<(), NoMemory>
    ensures { OnOk result (text.new.items ≡ text.old.items ++ hex digits number) }
{
    if digits == 0 {
        return Ok(());
    }
    push_hex(text, digits - 1, number / 16)?;
    text.push(HEX_DIGITS[(number % 16) as usize])?;
    Ok(())
}

/// Adds a word behind another one.
pub fn push_word(text: &mut Vec<u8>, word: &[u8]) -> Result<(), NoMemory>
    ensures { OnOk result (text.new.items ≡ text.old.items ++ following_words (word.now ∷ [])) }
{
    text.extend_from_slice(b" ")?;
    text.extend_from_slice(word)?;
    Ok(())
}

/// Adds a decimal number behind another word.
pub fn push_decimal_word(text: &mut Vec<u8>, number: u64) -> Result<(), NoMemory>
    ensures { OnOk result (text.new.items ≡ text.old.items ++ following_words (decimal number ∷ [])) }
{
    text.extend_from_slice(b" ")?;
    push_decimal(text, number)
}

/// Adds so many last digits of a number in base 16 behind another word.
pub fn push_hex_word(text: &mut Vec<u8>, digits: u32, number: u64) -> Result<(), NoMemory>
    ensures { OnOk result (text.new.items ≡ text.old.items ++ following_words (hex digits number ∷ [])) }
{
    text.extend_from_slice(b" ")?;
    push_hex(text, digits, number)
}

/// Adds what a number is called and the number, in decimal, behind another word.
pub fn push_named(text: &mut Vec<u8>, name: &[u8], number: u64) -> Result<(), NoMemory>
    ensures { OnOk result (text.new.items ≡ text.old.items ++ following_words (name.now ∷ decimal number ∷ [])) }
{
    push_word(text, name)?;
    push_decimal_word(text, number)
}

/// Ends a line.
pub fn end_line(text: &mut Vec<u8>) -> Result<(), NoMemory>
    ensures { OnOk result (text.new.items ≡ text.old.items ++ codes "\n") }
{
    text.extend_from_slice(b"\n")?;
    Ok(())
}
