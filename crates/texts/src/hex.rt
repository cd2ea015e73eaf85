// Bytes as pairs of hexadecimal digits.
ghost use Rattle.std.specs.Prelude.{◌≡◌, ℕ, ◌<◌, ◌≤◌, List, [], ◌∷◌, ◌++◌, length, take};
ghost use Rattle.lists.specs.Every.{every};
ghost use Rattle.lists.specs.Held.{held};
ghost use Rattle.texts.specs.Answers.{mapped};
ghost use Rattle.texts.specs.Digits.{digit, is_digit, value, bytes_of, char, hexes, line_text};
ghost use Rattle.texts.specs.Reading.{line_bytes};

use crate::faults::{TextFault, TextQuestion};
use lists::BoundedVec;

// The value of a digit 0 to 9 or A to F. `to_digit` would take small letters too.
fn hex_digit(b: u8) -> Option<u8>
    ensures { result ≡ digit b }
{
    match b {
        b'0'..=b'9' => Some(b - b'0'),
        b'A'..=b'F' => Some(b - b'A' + 10),
        _ => None,
    }
}

fn all_digits(line: &[u8]) -> bool
    ensures { result ≡ every is_digit line.now }
{
    line.iter().all(|b| hex_digit(*b).is_some())
}

// The value of a digit, 0 of any other byte.
fn hex_value(b: u8) -> u8
    ensures is { result ≡ value b }
    ensures small { result < 16 }
{
    hex_digit(b).unwrap_or(0)
}

// The bytes of up to 32 digits.
fn pairs(line: &[u8]) -> BoundedVec<u8, 16>
    requires { length line.now ≤ 32 }
    ensures { held result ≡ bytes_of line.now }
{
    let (pairs, _) = line.as_chunks::<2>();
    let mut bytes = BoundedVec::new(0);
    for [high, low] in pairs {
        let _ = bytes.push(hex_value(*high) * 16 + hex_value(*low));
    }
    bytes
}

// The bytes of a text line without its 0A, where it has 2 to 32 digits, an even number, and nothing else.
pub(crate) fn line_bytes(line: &[u8], at: usize) -> Result<BoundedVec<u8, 16>, TextFault>
    ensures { mapped held result ≡ line_bytes at line.now }
{
    if !all_digits(line) {
        return Err(TextQuestion::Digits.at(at));
    }
    let digits = line.len();
    if !(2..=32).contains(&digits) || digits % 2 != 0 {
        return Err(TextQuestion::Count.at(at));
    }
    Ok(pairs(line))
}

// The digit of a value below 16: a capital, where `from_digit` would give a small letter.
fn hex_char(value: u8) -> u8
    requires { value < 16 }
    ensures { result ≡ char value }
{
    match value {
        0..=9 => b'0' + value,
        _ => b'A' - 10 + value,
    }
}

fn put_bytes<const N: usize>(text: &mut BoundedVec<u8, N>, bytes: &[u8])
    ensures { held text.new ≡ take N (held text.old ++ hexes bytes.now) }
{
    for b in bytes {
        text.extend(&[hex_char(*b / 16), hex_char(*b % 16)]);
    }
}

// Adds bytes as one more line of a text, as much of it as there is room for.
pub fn put_line<const N: usize>(text: &mut BoundedVec<u8, N>, bytes: &[u8])
    ensures { held text.new ≡ take N (held text.old ++ line_text bytes.now) }
{
    put_bytes(text, bytes);
    text.extend(&[0x0A]);
}
