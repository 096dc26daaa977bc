// The nine kinds of frame that are read, and their numbers.
ghost use Rattle.std.specs.Prelude.{◌≡◌};
ghost use Rattle.refusals.specs.declared.Reason.TheVariants.{UnknownKind as UnknownKindReason};
ghost use Rattle.refusals.specs.Numbers.{refusal_at};
ghost use Rattle.frames.specs.Kinds.{KindOf};

use refusals::{Reason, Refusal};

#[derive(Clone, Copy, PartialEq, Eq, Debug)]
pub enum FrameKind {
    Begin,
    Ask,
    Settle,
    Grant,
    Finish,
    Clear,
    Abandon,
    Ring,
    Owing,
}

// That a line begins with the number of no kind, or with no byte at all.
#[derive(Clone, Copy, PartialEq, Eq, Debug)]
pub struct UnknownKind;

impl TryFrom<u8> for FrameKind {
    type Error = UnknownKind;

    ghost try_from_gives = { KindOf };

    fn try_from(number: u8) -> Result<FrameKind, UnknownKind> {
        match number {
            1 => Ok(FrameKind::Begin),
            2 => Ok(FrameKind::Ask),
            3 => Ok(FrameKind::Settle),
            4 => Ok(FrameKind::Grant),
            5 => Ok(FrameKind::Finish),
            6 => Ok(FrameKind::Clear),
            7 => Ok(FrameKind::Abandon),
            8 => Ok(FrameKind::Ring),
            9 => Ok(FrameKind::Owing),
            _ => Err(UnknownKind),
        }
    }
}

impl From<UnknownKind> for Refusal {
    ghost from_gives = { λ _ refusal. refusal ≡ refusal_at UnknownKindReason 0 };

    fn from(_unknown: UnknownKind) -> Refusal {
        Reason::UnknownKind.at(0)
    }
}
