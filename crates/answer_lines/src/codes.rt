// The codes that stand in answers. Asked and Finished carry numbers, and only an enum without any has `as u8`: a match is their form.
ghost use Rattle.std.specs.Prelude.{◌≡◌};
ghost use Rattle.answer_lines.specs.AnswerTable.{asked_code, asked_timestamp, finished_code, finished_serial, lock_code, schedule_code};

use calls::{Asked, Finished, GrantedLock, Schedule};

pub fn asked_code(asked: Asked) -> u8
    ensures { result ≡ asked_code asked }
{
    match asked {
        Asked::Own(_) => 0,
        Asked::Moved(_) => 1,
        Asked::Last(_) => 2,
        Asked::Away(_) => 3,
    }
}

pub fn asked_timestamp(asked: Asked) -> u32
    ensures { result ≡ asked_timestamp asked }
{
    match asked {
        Asked::Own(place) | Asked::Moved(place) | Asked::Last(place) => place,
        Asked::Away(bar) => bar,
    }
}

pub fn lock_code(lock: GrantedLock) -> u8
    ensures { result ≡ lock_code lock }
{
    lock as u8
}

pub fn schedule_code(schedule: Schedule) -> u8
    ensures { result ≡ schedule_code schedule }
{
    schedule as u8
}

pub fn finished_code(finished: Finished) -> u8
    ensures { result ≡ finished_code finished }
{
    match finished {
        Finished::Cleared(_) => 0,
        Finished::Owing => 1,
    }
}

pub fn finished_serial(finished: Finished) -> u16
    ensures { result ≡ finished_serial finished }
{
    match finished {
        Finished::Cleared(serial) => serial,
        Finished::Owing => 0,
    }
}
