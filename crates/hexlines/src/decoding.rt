// A line decoded into the bytes that it spells.
ghost use Rattle.std.specs.Prelude.{◌≡◌, ◌≤◌, All, MatchOption, flat_map, length};
ghost use Rattle.hexlines.specs.Decoding.{Back, DecodeOf, FirstOther};
ghost use Rattle.hexlines.specs.Hex.{Bytes, Digit, hex};
ghost use Rattle.lists.specs.FixedList.{held};

use crate::digits::{byte_of, is_digit};
use crate::limits::{LINE_BYTES, LINE_CHARACTERS};
use lists::FixedList;
use refusals::{Reason, Refusal};

// the bytes that a line spells; frames borrow from it
pub type LineBytes = FixedList<u8, LINE_BYTES>;

// Where the first character stands that is no digit.
fn first_other(line: &[u8]) -> Option<usize>
    ensures { MatchOption result (All Digit line.now) (FirstOther line.now) }
{
    line.iter().position(|character| !is_digit(*character))
}

// The bytes that pairs of digits spell.
fn bytes_of(pairs: &[[u8; 2]]) -> LineBytes
    requires short { length pairs.now ≤ LINE_BYTES }
    requires digits { All (All Digit) pairs.now }
    ensures value { hex (held result) ≡ flat_map (λ pair. pair) pairs.now }
    ensures bytes { Bytes (held result) }
{
    let mut bytes = FixedList::new(0);
    for pair in pairs {
        // there are no more pairs than places
        let _ = bytes.push(byte_of(*pair));
    }
    bytes
}

// by itself, so that `back` follows from the whole of `value`
#[tactic(auto, using(crate::proofs::Chunks::joined_chunks))]
fn bytes_spelled(line: &[u8]) -> Result<LineBytes, Refusal>
    ensures { DecodeOf line.now result }
{
    if line.len() > LINE_CHARACTERS {
        return Err(Reason::LineTooLong.at(LINE_CHARACTERS));
    }
    if let Some(place) = first_other(line) {
        return Err(Reason::NotHexadecimal.at(place));
    }
    let (pairs, rest) = line.as_chunks::<2>();
    if !rest.is_empty() {
        return Err(Reason::NotHexadecimal.at(line.len()));
    }
    Ok(bytes_of(pairs))
}

// No two lines spell the same bytes, and what spells bytes is decoded into them.
#[tactic(auto, using(crate::proofs::Back::back))]
pub fn decode(line: &[u8]) -> Result<LineBytes, Refusal>
    ensures value { DecodeOf line.now result }
    ensures back { Back line.now result }
{
    bytes_spelled(line)
}
