// The bank that comes with the board: 0 is locking, 1 is ordering, 2 is agreement.
ghost use Rattle.std.specs.Prelude.{◌≡◌};
ghost use Rattle.protocols.specs.Delivered.{delivered_bank, delivered_kind};

use crate::agreement::Agreement;
use crate::bank::Bank;
use crate::locking::Locking;
use crate::ordering::Ordering;
use crate::question::Kind;
use crate::served::served_kind;

pub type Delivered = Bank<Locking, Bank<Ordering, Agreement>>;

pub fn delivered_bank() -> Delivered
    ensures { result ≡ delivered_bank }
{
    Bank {
        first: Locking,
        second: Bank {
            first: Ordering,
            second: Agreement,
        },
    }
}

pub fn delivered_kind(number: u8) -> Option<Kind>
    ensures { result ≡ delivered_kind number }
{
    served_kind(&delivered_bank(), number)
}
