// An input split into lines.
ghost use Rattle.std.specs.Prelude.{◌≡◌, ◌==◌, position, take};
ghost use Rattle.std.specs.Iterator.{YieldsFirstRef, item_count};
ghost use Rattle.hexlines.specs.Lines.{SplitOf};

use crate::limits::INPUT_BYTES;

const LINE_FEED: u8 = b'\n';

#[derive(Clone, Copy)]
pub struct Split<'a> {
    pub line: &'a [u8],
    // what is behind the line and its line feed
    pub rest: &'a [u8],
}

// by itself, since first_line did not prove over the closure
fn first_feed(input: &[u8]) -> Option<usize>
    ensures { result ≡ position (λ c. c == LINE_FEED) input.now }
{
    input.iter().position(|character| *character == LINE_FEED)
}

// The first line of an input, or none of an empty input. A carriage return is a character like any other.
#[tactic(auto, using(crate::proofs::Splitting::first_lines))]
pub fn first_line(input: &[u8]) -> Option<Split<'_>>
    ensures { SplitOf input.now result }
{
    match first_feed(input) {
        Some(end) => Some(Split {
            line: &input[..end],
            rest: &input[end + 1..],
        }),
        None if input.is_empty() => None,
        None => Some(Split {
            line: input,
            rest: &[],
        }),
    }
}

// The lines of an input, one after another.
#[derive(Clone, Drop)]
pub struct Lines<'a> {
    rest: &'a [u8],
}

impl<'a> Lines<'a> {
    ghost use Rattle.hexlines.specs.Lines.{lines, lines_left};

    pub fn new(input: &'a [u8]) -> Lines<'a>
        ensures { lines_left result ≡ lines input.now }
    {
        Lines { rest: input }
    }
}

impl<'a> Iterator for Lines<'a> {
    ghost use Rattle.hexlines.specs.Lines.{lines_left};

    type Item = &'a [u8];

    ghost next_gives = { YieldsFirstRef lines_left };

    ghost remaining = { item_count lines_left };

    fn next(&mut self) -> Option<&'a [u8]> {
        let split = first_line(self.rest)?;
        self.rest = split.rest;
        Some(split.line)
    }
}

// The part of an input that is read.
#[tactic(auto, using(std::proofs::lemmas::List::take_min))]
pub fn readable(input: &[u8]) -> &[u8]
    ensures { result.now ≡ take 65536 input.now }
{
    &input[..INPUT_BYTES.min(input.len())]
}
