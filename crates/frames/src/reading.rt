// The bytes of a decoded line read as a frame.
ghost use Rattle.frames.specs.Reading.{FieldsOf, FrameOf};

use crate::cursor::Cursor;
use crate::frame::Frame;
use crate::kinds::{FrameKind, UnknownKind};
use crate::malformed::Malformed;
use refusals::{Reason, Refusal};

// the bytes of a begin frame before its accesses
const BEGIN_BYTES: usize = 11;

// The fields behind the byte of a kind, to the last byte.
fn frame_fields(kind: FrameKind, bytes: &[u8]) -> Result<Frame<'_>, Malformed>
    ensures { FieldsOf kind bytes.now result }
{
    let mut fields = Cursor::new(bytes);
    let frame = match kind {
        FrameKind::Begin => Frame::Begin {
            protocol: fields.take()?,
            site: fields.take()?,
            timestamp: fields.take()?,
            interval: fields.take()?,
            accesses: fields.accesses()?,
        },
        FrameKind::Ask => Frame::Ask {
            number: fields.take()?,
            item: fields.take()?,
        },
        FrameKind::Settle => Frame::Settle {
            number: fields.take()?,
        },
        FrameKind::Grant => Frame::Grant {
            item: fields.take()?,
        },
        FrameKind::Finish => Frame::Finish {
            number: fields.take()?,
            values: fields.values()?,
        },
        FrameKind::Clear => Frame::Clear {
            number: fields.take()?,
        },
        FrameKind::Abandon => Frame::Abandon {
            number: fields.take()?,
        },
        FrameKind::Ring => Frame::Ring,
        FrameKind::Owing => Frame::Owing,
    };
    fields.end()?;
    Ok(frame)
}

pub fn frame_of(bytes: &[u8]) -> Result<Frame<'_>, Refusal>
    ensures { FrameOf bytes.now result }
{
    let (number, rest) = bytes.split_first().ok_or(UnknownKind)?;
    let kind = FrameKind::try_from(*number)?;
    match frame_fields(kind, rest) {
        Ok(frame) => Ok(frame),
        Err(Malformed::Length) => Err(Reason::WrongLength.at(bytes.len())),
        Err(Malformed::BadMode(i)) => Err(Reason::BadMode.at(BEGIN_BYTES + 2 * i)),
    }
}
