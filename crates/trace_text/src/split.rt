//! Bytes, cut at a separator, and compared.

ghost use Rattle.std.specs.Prelude.{◌≡◌, ◌==◌, ◌∷◌, ◌++◌, false, All, bytes_eq, position, IfSome, IfNone};

/// The bytes before the first separator, and those after it, if there is one.
pub fn split_once(bytes: &[u8], separator: u8) -> Option<(&[u8], &[u8])>
    ensures parts { IfSome result (λ x. bytes.now ≡ x.0.now ++ separator ∷ x.1.now) }
    ensures first { IfSome result (λ x. All (λ byte. (byte == separator) ≡ false) x.0.now) }
    ensures none { IfNone result (All (λ byte. (byte == separator) ≡ false) bytes.now) }
{
    match place_of(bytes, separator) {
        Some(place) => Some((&bytes[..place], &bytes[place + 1..])),
        None => None,
    }
}

fn place_of(bytes: &[u8], byte: u8) -> Option<usize>
    ensures { result ≡ position (λ found. found == byte) bytes.now }
{
    bytes.iter().position(|&found| found == byte)
}

/// Whether bytes are just these.
pub fn are_same(bytes: &[u8], expected: &[u8]) -> bool
    ensures { result ≡ bytes_eq bytes.now expected.now }
{
    bytes == expected
}
