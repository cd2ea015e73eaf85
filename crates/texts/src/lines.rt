// Texts and their lines.
ghost use Rattle.std.specs.Prelude.{◌≡◌, ℕ, ◌+◌, ◌<◌, ◌≤◌, length, drop, IfSome, IfOk};
ghost use Rattle.std.specs.Iterator.{YieldsFirstRef, item_count};
ghost use Rattle.std.specs.Option.{option_map as option_mapped};
ghost use Rattle.lists.specs.Held.{held};
ghost use Rattle.texts.specs.Answers.{mapped};
ghost use Rattle.texts.specs.Lines.{ended_at, lines_of, pieces, line_at};
ghost use Rattle.texts.specs.Reading.{short_enough, first_bytes, by_side, line_answer};

use crate::faults::{LineFault, TextFault, TextQuestion};
use crate::hex::line_bytes;
use lists::BoundedVec;
use values::search::position;

// Where the first 0A stands.
fn line_end(text: &[u8]) -> Option<usize>
    ensures is { result ≡ ended_at text.now }
    ensures within { IfSome result (λ n. n < length text.now) }
{
    position(text, &0x0A)
}

// Has the text at most 4,096 bytes?
pub fn check_length(text: &[u8]) -> Result<(), TextFault>
    ensures { result ≡ short_enough text.now }
{
    if text.len() > 4096 {
        return Err(TextQuestion::Length.at(0));
    }
    Ok(())
}

// The bytes that the first line says, and how long the line is with its 0A.
pub fn take_bytes(text: &[u8], at: usize) -> Result<(BoundedVec<u8, 16>, usize), TextFault>
    ensures is { mapped (λ p. (held p.0, lines_of (drop p.1 text.now))) result ≡ first_bytes at (lines_of text.now) }
    ensures within { IfOk result (λ p. (0 < p.1) × (p.1 ≤ length text.now)) }
{
    let n = line_end(text).ok_or(TextQuestion::Ended.at(at))?;
    let bytes = line_bytes(&text[..n], at)?;
    Ok((bytes, n + 1))
}

// The lines of a text that are still to come, each without its 0A; a last piece of one byte or more is a line too. The
// end of each is found by the one search.
#[derive(Drop)]
struct Pieces<'a>(&'a [u8]);

impl<'a> Iterator for Pieces<'a> {
    type Item = &'a [u8];

    ghost next_gives = { YieldsFirstRef (λ s. pieces (lines_of s.0.now)) };

    ghost remaining = { item_count (λ s. pieces (lines_of s.0.now)) };

    fn next(&mut self) -> Option<&'a [u8]> {
        let text = self.0;
        if text.is_empty() {
            return None;
        }
        let Some(n) = line_end(text) else {
            self.0 = &[];
            return Some(text);
        };
        self.0 = &text[n + 1..];
        Some(&text[..n])
    }
}

// How many lines a text has.
pub fn count_lines(text: &[u8]) -> usize
    ensures { result ≡ length (pieces (lines_of text.now)) }
{
    Pieces(text).count()
}

// The line with this number, counted from 1.
fn numbered(text: &[u8], number: usize) -> Option<&[u8]>
    ensures { option_mapped (λ l. l.now) result ≡ line_at (lines_of text.now) number }
{
    Pieces(text).nth(number.checked_sub(1)?)
}

// Is the side 0 (left) or 1 (right)? It comes as a number, since a caller may ask for any, and question 10 refuses the rest.
fn side_text<'a>(left: &'a [u8], right: &'a [u8], side: u8) -> Result<&'a [u8], TextFault>
    ensures { mapped (λ t. t.now) result ≡ by_side left.now right.now side }
{
    match side {
        0 => Ok(left),
        1 => Ok(right),
        _ => Err(TextQuestion::Side.at(0)),
    }
}

// LINE: a numbered line of the left text or of the right, by side.
pub fn line<'a>(
    left: &'a [u8],
    right: &'a [u8],
    side: u8,
    number: usize,
) -> Result<&'a [u8], LineFault>
    ensures { mapped (λ l. l.now) result ≡ line_answer left.now right.now side number }
{
    let text = side_text(left, right, side)?;
    numbered(text, number).ok_or(LineFault::Missing)
}
