use frames::read_line;
use lists::FixedList;
use refusals::{Reason, Refusal};
use std::process::Abort;

fn refusal_of(line: &[u8]) -> Option<Refusal> {
    let mut buffer = FixedList::new(0);
    match read_line(line, &mut buffer) {
        Ok(_) => None,
        Err(refusal) => Some(refusal),
    }
}

fn refused(rt: &impl Abort, line: &[u8], reason: Reason, place: usize) {
    assert_eq!(rt; refusal_of(line), Some(reason.at(place)));
}

fn served(rt: &impl Abort, line: &[u8]) {
    assert_eq!(rt; refusal_of(line), None);
}

#[test]
fn a_line_has_at_most_140_characters(rt: HostRuntime) {
    refused(&rt, &[b'0'; 141], Reason::LineTooLong, 140);
    refused(&rt, &[b'x'; 141], Reason::LineTooLong, 140);
    refused(&rt, &[b'0'; 140], Reason::UnknownKind, 0);
}

#[test]
fn characters_are_lowercase_digits(rt: HostRuntime) {
    refused(&rt, b"0A", Reason::NotHexadecimal, 1);
    refused(&rt, b"08\r", Reason::NotHexadecimal, 2);
    refused(&rt, b"08\0", Reason::NotHexadecimal, 2);
    refused(&rt, b"0/", Reason::NotHexadecimal, 1);
    refused(&rt, b":0", Reason::NotHexadecimal, 0);
    refused(&rt, b"0`", Reason::NotHexadecimal, 1);
    refused(&rt, b"0g", Reason::NotHexadecimal, 1);
    refused(&rt, b"0G 8", Reason::NotHexadecimal, 1);
}

#[test]
fn there_are_evenly_many(rt: HostRuntime) {
    refused(&rt, b"080", Reason::NotHexadecimal, 3);
    refused(&rt, b"0", Reason::NotHexadecimal, 1);
    // a character that is no digit comes before the number of characters
    refused(&rt, b"08g", Reason::NotHexadecimal, 2);
}

#[test]
fn kinds_are_01_to_09(rt: HostRuntime) {
    refused(&rt, b"", Reason::UnknownKind, 0);
    refused(&rt, b"00", Reason::UnknownKind, 0);
    refused(&rt, b"0a", Reason::UnknownKind, 0);
    refused(&rt, b"81", Reason::UnknownKind, 0);
    served(&rt, b"08");
    served(&rt, b"09");
}

#[test]
fn begin_has_11_bytes_and_2_for_each_access(rt: HostRuntime) {
    refused(&rt, b"01010100000014000000", Reason::WrongLength, 10);
    served(&rt, b"0101010000001400000001");
    refused(&rt, b"010101000000140000000101", Reason::WrongLength, 12);
    served(&rt, b"01010100000014000000010105");
}

#[test]
fn finish_has_3_bytes_and_4_for_each_value(rt: HostRuntime) {
    refused(&rt, b"0500", Reason::WrongLength, 2);
    served(&rt, b"050001");
    refused(&rt, b"05000100", Reason::WrongLength, 4);
    served(&rt, b"05000100000000");
}

#[test]
fn finish_has_room_for_16_values(rt: HostRuntime) {
    let mut sixteen = [b'0'; 134];
    sixteen[1] = b'5';
    served(&rt, &sixteen);
    let mut seventeen = [b'0'; 142];
    seventeen[1] = b'5';
    refused(&rt, &seventeen, Reason::LineTooLong, 140);
}

#[test]
fn the_other_kinds_have_one_length(rt: HostRuntime) {
    refused(&rt, b"020001", Reason::WrongLength, 3);
    served(&rt, b"02000105");
    refused(&rt, b"0200010500", Reason::WrongLength, 5);
    refused(&rt, b"0300", Reason::WrongLength, 2);
    served(&rt, b"030001");
    refused(&rt, b"03000100", Reason::WrongLength, 4);
    refused(&rt, b"04", Reason::WrongLength, 1);
    served(&rt, b"0405");
    refused(&rt, b"040500", Reason::WrongLength, 3);
    refused(&rt, b"0600", Reason::WrongLength, 2);
    served(&rt, b"060001");
    refused(&rt, b"07000100", Reason::WrongLength, 4);
    served(&rt, b"070001");
    refused(&rt, b"0800", Reason::WrongLength, 2);
    refused(&rt, b"0900", Reason::WrongLength, 2);
}

#[test]
fn a_mode_is_00_or_01(rt: HostRuntime) {
    served(&rt, b"01010100000014000000010005");
    served(&rt, b"01010100000014000000010105");
    refused(&rt, b"01010100000014000000010205", Reason::BadMode, 11);
    refused(&rt, b"010101000000140000000101050206", Reason::BadMode, 13);
    // the length comes before the modes
    refused(
        &rt,
        b"0101010000001400000001020500",
        Reason::WrongLength,
        14,
    );
}
