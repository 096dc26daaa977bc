// An answer as bytes, kind by kind, and as the line that spells them.
ghost use Rattle.std.specs.Prelude.{◌≡◌, ◌^◌, ◌<◌, ◌≤◌, All, ◌∷◌, length};
ghost use Rattle.std.specs.Int.{w16, to_be_bytes};
ghost use Rattle.std.specs.List.{flat_map};
ghost use Rattle.lists.specs.FixedList.{held};
ghost use Rattle.calls.specs.Answers.{says, asked as asked_answer, finished as finished_answer, granted as granted_answer, refused as refused_answer, settled as settled_answer};
ghost use Rattle.answer_lines.specs.AnswerTable.{written_place};
ghost use Rattle.answer_lines.specs.Kinds.{kind_number};
ghost use Rattle.answer_lines.specs.Written.{Spelled, Written};

use crate::codes::{
    asked_code, asked_timestamp, finished_code, finished_serial, lock_code, schedule_code,
};
use crate::kinds::AnswerKind;
use calls::{Answer, Asked, Finished, Granted, Reply};
use hexlines::{LINE_CHARACTERS, LineBytes, encode};
use lists::FixedList;
use refusals::Refusal;
use values::bytes_of_number;

// A transaction's number or serial place behind the byte of a kind.
fn numbered(kind: AnswerKind, number: u16) -> LineBytes
    ensures { held result ≡ kind_number kind ∷ to_be_bytes w16 number }
{
    let [a, b] = number.to_be_bytes();
    FixedList::of(&[kind as u8, a, b], 0)
}

fn asked(asked: Asked) -> LineBytes
    ensures { Spelled (asked_answer asked) (held result) }
{
    let [a, b, c, d] = asked_timestamp(asked).to_be_bytes();
    let code = asked_code(asked);
    FixedList::of(&[AnswerKind::Asked as u8, code, a, b, c, d], 0)
}

fn settled(timestamp: u32) -> LineBytes
    ensures { Spelled (settled_answer timestamp) (held result) }
{
    let [a, b, c, d] = timestamp.to_be_bytes();
    FixedList::of(&[AnswerKind::Settled as u8, a, b, c, d], 0)
}

fn granted(granted: Granted<i32>) -> LineBytes
    ensures { Spelled (granted_answer granted.number granted.lock granted.schedule granted.value) (held result) }
{
    let [a, b] = granted.number.to_be_bytes();
    let lock = lock_code(granted.lock);
    let schedule = schedule_code(granted.schedule);
    let [v, w, x, y] = bytes_of_number(granted.value);
    let kind = AnswerKind::Granted as u8;
    FixedList::of(&[kind, a, b, lock, schedule, v, w, x, y], 0)
}

fn finished(finished: Finished) -> LineBytes
    ensures { Spelled (finished_answer finished) (held result) }
{
    let [a, b] = finished_serial(finished).to_be_bytes();
    let code = finished_code(finished);
    FixedList::of(&[AnswerKind::Finished as u8, code, a, b], 0)
}

// The largest place that two bytes hold stands for all that are larger.
fn written_place(place: usize) -> u16
    ensures { result ≡ written_place place }
{
    u16::try_from(place).unwrap_or(u16::MAX)
}

fn refused(refusal: Refusal) -> LineBytes
    ensures { Spelled (refused_answer refusal) (held result) }
{
    let layer = refusal.reason.layer().number();
    let number = refusal.reason.number();
    let [a, b] = written_place(refusal.place).to_be_bytes();
    FixedList::of(&[AnswerKind::Refused as u8, layer, number, a, b], 0)
}

// A list of transactions behind the byte of its kind: how many, and their numbers.
fn listed(kind: AnswerKind, numbers: &[u16]) -> LineBytes
    requires { length numbers.now ≤ 16 }
    ensures value { held result ≡ kind_number kind ∷ length numbers.now ∷ flat_map (to_be_bytes w16) numbers.now }
    ensures small { All (λ n. n < 2 ^ 16) numbers.now }
{
    // no u8::try_from: its error could never come
    let mut bytes = FixedList::of(&[kind as u8, numbers.len() as u8], 0);
    for number in numbers {
        // two pushes cost less than a copy of two bytes
        let [high, low] = number.to_be_bytes();
        let _ = bytes.push(high);
        let _ = bytes.push(low);
    }
    bytes
}

fn answer_bytes(reply: &Reply<i32>) -> LineBytes
    ensures { Spelled (says reply.now) (held result) }
{
    match *reply {
        Ok(Answer::Begun(number)) => numbered(AnswerKind::Begun, number),
        Ok(Answer::Asked(answer)) => asked(answer),
        Ok(Answer::Settled(timestamp)) => settled(timestamp),
        Ok(Answer::Granted(grant)) => granted(grant),
        Ok(Answer::Finished(end)) => finished(end),
        Ok(Answer::Cleared(serial)) => numbered(AnswerKind::Cleared, serial),
        Ok(Answer::Abandoned) => FixedList::of(&[AnswerKind::Abandoned as u8], 0),
        Ok(Answer::Ring(numbers)) => listed(AnswerKind::Ring, numbers.as_slice()),
        Ok(Answer::Owing(numbers)) => listed(AnswerKind::Owing, numbers.as_slice()),
        Err(refusal) => refused(refusal),
    }
}

// The line that is printed for what a call comes to, without its line feed.
pub fn write_answer(reply: &Reply<i32>) -> FixedList<u8, LINE_CHARACTERS>
    ensures { Written (says reply.now) (held result) }
{
    encode(&answer_bytes(reply))
}
