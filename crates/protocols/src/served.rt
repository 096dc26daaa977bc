// The kind of a protocol number, if it is served.
ghost use Rattle.std.specs.Prelude.{◌≡◌, if◌then◌else◌, Some, None, nat_lt};

use crate::protocol::Protocol;
use crate::question::Kind;

pub fn served_kind<P: Protocol>(protocol: &P, number: u8) -> Option<Kind>
    ensures { result ≡ (if nat_lt number (P.count protocol.now) then Some (P.kinds protocol.now number) else None) }
{
    if u16::from(number) < protocol.numbers() {
        Some(protocol.kind(number))
    } else {
        None
    }
}
