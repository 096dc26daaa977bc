// One entry of a transaction's list: an item, and whether it is only read.
use protocols::Mode;

#[derive(Clone, Copy, PartialEq, Eq, Debug)]
pub struct Access {
    pub mode: Mode,
    pub item: u8,
}
