use hexlines::{INPUT_BYTES, Lines, first_line, readable};
use std::test::Fail;

#[test]
fn a_line_feed_ends_a_line(rt: HostRuntime) -> Result<(), Fail> {
    let split = first_line(b"08\n\n09").ok_or("no line")?;
    assert!(rt; split.line == b"08".as_slice());
    assert!(rt; split.rest == b"\n09".as_slice());
    let split = first_line(split.rest).ok_or("no empty line")?;
    assert!(rt; split.line == b"".as_slice());
    assert!(rt; split.rest == b"09".as_slice());
    Ok(())
}

#[test]
fn the_end_of_the_input_ends_a_line_begun(rt: HostRuntime) -> Result<(), Fail> {
    let split = first_line(b"09").ok_or("no line")?;
    assert!(rt; split.line == b"09".as_slice());
    assert!(rt; first_line(split.rest).is_none());
    let split = first_line(b"09\n").ok_or("no line")?;
    assert!(rt; split.line == b"09".as_slice());
    assert!(rt; first_line(split.rest).is_none());
    Ok(())
}

#[test]
fn a_carriage_return_stays_in_the_line(rt: HostRuntime) -> Result<(), Fail> {
    let split = first_line(b"08\r\n09").ok_or("no line")?;
    assert!(rt; split.line == b"08\r".as_slice());
    Ok(())
}

#[test]
fn no_more_is_read_than_the_limit(rt: HostRuntime) {
    let at_limit = [10u8; 65_536];
    assert!(rt; readable(&at_limit).len() == INPUT_BYTES);
    let past_limit = [10u8; 65_537];
    assert!(rt; readable(&past_limit).len() == INPUT_BYTES);
}

#[test]
fn lines_come_one_after_another(rt: HostRuntime) {
    let mut lines = Lines::new(b"08\n\n09");
    assert_eq!(rt; lines.next(), Some(b"08".as_slice()));
    assert_eq!(rt; lines.next(), Some(b"".as_slice()));
    assert_eq!(rt; lines.next(), Some(b"09".as_slice()));
    assert_eq!(rt; lines.next(), None);
}
