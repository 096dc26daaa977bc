// Bytes encoded as a line.
ghost use Rattle.std.specs.Prelude.{◌≡◌};
ghost use Rattle.hexlines.specs.Hex.{hex};
ghost use Rattle.lists.specs.FixedList.{held};

use crate::decoding::LineBytes;
use crate::digits::digits_of;
use crate::limits::LINE_CHARACTERS;
use lists::FixedList;

pub fn encode(bytes: &LineBytes) -> FixedList<u8, LINE_CHARACTERS>
    ensures { held result ≡ hex (held bytes.now) }
{
    let mut line = FixedList::new(b'0');
    for byte in bytes.as_slice() {
        // two pushes cost less than a copy of two bytes
        let [high, low] = digits_of(*byte);
        let _ = line.push(high);
        let _ = line.push(low);
    }
    line
}
