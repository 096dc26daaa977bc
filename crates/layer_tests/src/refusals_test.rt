use refusals::{Layer, Reason};
use std::test::Fail;

#[test]
fn numbers(rt: HostRuntime) {
    assert_eq!(rt; Layer::Reader.number(), 1);
    assert_eq!(rt; Layer::Board.number(), 2);
    assert_eq!(rt; Layer::Store.number(), 3);
    assert_eq!(rt; Reason::NoSuchItem.number(), 20);
    assert_eq!(rt; Reason::NoRoom.number(), 21);
    assert_eq!(rt; Reason::BadTapeRow.number(), 22);
    assert_eq!(rt; Reason::NoRoom.layer(), Layer::Store);
    assert_eq!(rt; Reason::LineTooLong.number(), 30);
    assert_eq!(rt; Reason::NotHexadecimal.number(), 31);
    assert_eq!(rt; Reason::UnknownKind.number(), 32);
    assert_eq!(rt; Reason::WrongLength.number(), 33);
    assert_eq!(rt; Reason::BadMode.number(), 34);
    assert_eq!(rt; Reason::BadMode.layer(), Layer::Reader);
}

#[test]
fn text(rt: HostRuntime) -> Result<(), Fail> {
    let refusal = Reason::NoSuchItem.at(70_000);
    let text = format!(in rt.alloc(); "{refusal}")?;
    assert_eq!(rt; text.as_str(), "layer 3, number 20, place 70000");
    Ok(())
}
