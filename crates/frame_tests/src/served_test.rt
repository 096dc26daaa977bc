use calls::Access;
use frames::{Frame, read_line};
use lists::FixedList;
use protocols::Mode;
use std::test::Fail;

fn access(mode: Mode, item: u8) -> Option<Access> {
    Some(Access { mode, item })
}

#[test]
fn a_begin_frame_says_its_fields(rt: HostRuntime) -> Result<(), Fail> {
    let mut buffer = FixedList::new(0);
    let frame = read_line(b"0102c83b9aca00000f4240001f01ff", &mut buffer)?;
    let Frame::Begin {
        protocol,
        site,
        timestamp,
        interval,
        accesses,
    } = frame
    else {
        return Err(Fail::new("no begin"));
    };
    assert_eq!(rt; protocol, 2);
    assert_eq!(rt; site, 200);
    assert_eq!(rt; timestamp, 1_000_000_000);
    assert_eq!(rt; interval, 1_000_000);
    assert_eq!(rt; accesses.len(), 2);
    assert_eq!(rt; accesses.get(0), access(Mode::Read, 31));
    assert_eq!(rt; accesses.get(1), access(Mode::Write, 255));
    assert_eq!(rt; accesses.get(2), None);
    Ok(())
}

// How many are too many is not the reader's question.
#[test]
fn a_begin_frame_has_no_access_or_more_than_16(rt: HostRuntime) -> Result<(), Fail> {
    let mut buffer = FixedList::new(0);
    let Frame::Begin { accesses, .. } = read_line(b"0100010000000100000001", &mut buffer)? else {
        return Err(Fail::new("no begin"));
    };
    assert_eq!(rt; accesses.len(), 0);
    let mut line = [b'0'; 90];
    line[1] = b'1';
    let Frame::Begin { accesses, .. } = read_line(&line, &mut buffer)? else {
        return Err(Fail::new("no begin"));
    };
    assert_eq!(rt; accesses.len(), 17);
    assert_eq!(rt; accesses.get(16), access(Mode::Read, 0));
    Ok(())
}

#[test]
fn a_finish_frame_says_its_values(rt: HostRuntime) -> Result<(), Fail> {
    let mut buffer = FixedList::new(0);
    let line = b"05ea60fffffff97fffffff80000000";
    let Frame::Finish { number, values } = read_line(line, &mut buffer)? else {
        return Err(Fail::new("no finish"));
    };
    assert_eq!(rt; number, 60_000);
    assert_eq!(rt; values.len(), 3);
    assert_eq!(rt; values.get(0), Some(-7));
    assert_eq!(rt; values.get(1), Some(i32::MAX));
    assert_eq!(rt; values.get(2), Some(i32::MIN));
    assert_eq!(rt; values.get(3), None);
    Ok(())
}

#[test]
fn ask_and_grant_say_their_numbers(rt: HostRuntime) -> Result<(), Fail> {
    let mut buffer = FixedList::new(0);
    let Frame::Ask { number, item } = read_line(b"020102ff", &mut buffer)? else {
        return Err(Fail::new("no ask"));
    };
    assert_eq!(rt; number, 258);
    assert_eq!(rt; item, 255);
    let Frame::Grant { item } = read_line(b"0405", &mut buffer)? else {
        return Err(Fail::new("no grant"));
    };
    assert_eq!(rt; item, 5);
    Ok(())
}

#[test]
fn settle_clear_and_abandon_say_their_number(rt: HostRuntime) -> Result<(), Fail> {
    let mut buffer = FixedList::new(0);
    let Frame::Settle { number } = read_line(b"030001", &mut buffer)? else {
        return Err(Fail::new("no settle"));
    };
    assert_eq!(rt; number, 1);
    let Frame::Clear { number } = read_line(b"06ffff", &mut buffer)? else {
        return Err(Fail::new("no clear"));
    };
    assert_eq!(rt; number, 65_535);
    let Frame::Abandon { number } = read_line(b"070100", &mut buffer)? else {
        return Err(Fail::new("no abandon"));
    };
    assert_eq!(rt; number, 256);
    Ok(())
}

#[test]
fn ring_and_owing_are_alone() -> Result<(), Fail> {
    let mut buffer = FixedList::new(0);
    let Frame::Ring = read_line(b"08", &mut buffer)? else {
        return Err(Fail::new("no ring"));
    };
    let Frame::Owing = read_line(b"09", &mut buffer)? else {
        return Err(Fail::new("no owing"));
    };
    Ok(())
}

#[test]
fn the_entries_of_a_frame_come_one_after_another(rt: HostRuntime) -> Result<(), Fail> {
    let mut buffer = FixedList::new(0);
    let frame = read_line(b"05ea60fffffff97fffffff80000000", &mut buffer)?;
    let Frame::Finish { values, .. } = frame else {
        return Err(Fail::new("no finish"));
    };
    let mut entries = values.into_iter();
    assert_eq!(rt; entries.next(), Some(-7));
    assert_eq!(rt; entries.next(), Some(i32::MAX));
    assert_eq!(rt; entries.next(), Some(i32::MIN));
    assert_eq!(rt; entries.next(), None);
    Ok(())
}

#[test]
fn a_frame_is_printed_in_words(rt: HostRuntime) -> Result<(), Fail> {
    let mut buffer = FixedList::new(0);
    let frame = read_line(b"0102c800000005000f4240001f0100", &mut buffer)?;
    let text = format!(in rt.alloc(); "{frame}")?;
    let words = "begin protocol 2 site 200 timestamp 5 interval 1000000: read 31 write 0";
    assert_eq!(rt; text.as_str(), words);
    let frame = read_line(b"050001fffffff9", &mut buffer)?;
    let text = format!(in rt.alloc(); "{frame}")?;
    assert_eq!(rt; text.as_str(), "finish 1: -7");
    Ok(())
}
