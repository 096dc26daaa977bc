// Lines of hexadecimal: an input split into lines, a line decoded into bytes, bytes encoded as a line.
#![tactic(auto)]

mod decoding;
mod digits;
mod encoding;
mod limits;
mod split;

pub use decoding::{LineBytes, decode};
pub use encoding::encode;
pub use limits::{INPUT_BYTES, LINE_BYTES, LINE_CHARACTERS};
pub use split::{Lines, Split, first_line, readable};
