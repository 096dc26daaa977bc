// How much is read of an input, and of one line.

// what is past this is not read, so that a trace has an end
pub const INPUT_BYTES: usize = 65_536;

// the longest line that is decoded, and the bytes that it spells
pub const LINE_CHARACTERS: usize = 140;

pub const LINE_BYTES: usize = LINE_CHARACTERS / 2;
