use answer_lines::write_answer;
use calls::{Answer, Asked, Finished, Granted, GrantedLock, Reply, Schedule};
use lists::FixedList;
use refusals::Reason;
use std::process::Abort;

fn written(rt: &impl Abort, reply: Reply<i32>, line: &[u8]) {
    assert!(rt; write_answer(&reply).as_slice() == line);
}

fn granted(lock: GrantedLock, schedule: Schedule, value: i32) -> Reply<i32> {
    Ok(Answer::Granted(Granted {
        number: 1,
        lock,
        schedule,
        value,
    }))
}

#[test]
fn the_worked_example(rt: HostRuntime) {
    written(&rt, Ok(Answer::Begun(1)), b"810001");
    written(&rt, Ok(Answer::Asked(Asked::Own(20))), b"820000000014");
    written(&rt, Ok(Answer::Settled(20)), b"8300000014");
    let grant = granted(GrantedLock::Write, Schedule::Normal, 0);
    written(&rt, grant, b"840001010000000000");
    written(&rt, Ok(Answer::Finished(Finished::Cleared(1))), b"85000001");
}

#[test]
fn where_a_request_was_put(rt: HostRuntime) {
    written(&rt, Ok(Answer::Asked(Asked::Moved(25))), b"820100000019");
    written(&rt, Ok(Answer::Asked(Asked::Last(0))), b"820200000000");
    written(
        &rt,
        Ok(Answer::Asked(Asked::Away(1_000_000_000))),
        b"82033b9aca00",
    );
}

#[test]
fn locks_schedules_and_values(rt: HostRuntime) {
    let grant = granted(GrantedLock::Read, Schedule::PreScheduled, -7);
    written(&rt, grant, b"8400010001fffffff9");
    let grant = granted(GrantedLock::SemiRead, Schedule::Normal, i32::MIN);
    written(&rt, grant, b"840001020080000000");
}

#[test]
fn ends_of_transactions(rt: HostRuntime) {
    written(&rt, Ok(Answer::Finished(Finished::Owing)), b"85010000");
    written(&rt, Ok(Answer::Cleared(60_000)), b"86ea60");
    written(&rt, Ok(Answer::Abandoned), b"87");
}

#[test]
fn lists_of_transactions(rt: HostRuntime) {
    written(&rt, Ok(Answer::Ring(FixedList::new(0))), b"8800");
    let ring = FixedList::of(&[1, 2, 60_000], 0);
    written(&rt, Ok(Answer::Ring(ring)), b"880300010002ea60");
    let all = FixedList::of(&[513; 16], 0);
    let line = b"89100201020102010201020102010201020102010201020102010201020102010201";
    written(&rt, Ok(Answer::Owing(all)), line);
}

#[test]
fn refusals_are_answers(rt: HostRuntime) {
    written(&rt, Err(Reason::LineTooLong.at(140)), b"00011e008c");
    written(&rt, Err(Reason::NoRoom.at(65_535)), b"000315ffff");
    // a place that two bytes do not hold is cut
    written(&rt, Err(Reason::NoSuchItem.at(70_000)), b"000314ffff");
}

// takes an answer by value: with an `impl Model` on its list, no caller could hand one in and use it again
fn is_ring(answer: Answer<i32>) -> bool {
    match answer {
        Answer::Ring(_) => true,
        _ => false,
    }
}

#[test]
fn an_answer_is_used_twice(rt: HostRuntime) {
    let answer = Answer::Ring(FixedList::of(&[1, 2], 0));
    assert!(rt; is_ring(answer));
    written(&rt, Ok(answer), b"880200010002");
    written(&rt, Ok(answer), b"880200010002");
}
