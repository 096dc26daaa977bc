// A line read as a frame, which borrows from the buffer that the line was decoded into.
ghost use Rattle.frames.specs.Line.{LineBack, LineOf, LineOnly};

use crate::frame::Frame;
use crate::reading::frame_of;
use hexlines::{LineBytes, decode};
use refusals::Refusal;

// What a writer of frames would write for a call is read as this call, and no two lines are read as one call.
#[tactic(auto, using(crate::proofs::Back::read))]
pub fn read_line<'a>(line: &[u8], buffer: &'a mut LineBytes) -> Result<Frame<'a>, Refusal>
    ensures value { LineOf line.now result }
    ensures back { LineBack line.now result }
    ensures only { LineOnly line.now result }
{
    *buffer = decode(line)?;
    frame_of(buffer.as_slice())
}
