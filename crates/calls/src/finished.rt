// Where finish put a transaction. An Option is no plainer: its None would not say that the transaction is owing.

#[derive(Clone, Copy, PartialEq, Eq, Debug)]
pub enum Finished {
    // cleared, at this place of the serial order
    Cleared(u16),
    // executed, and its locks stay until earlier ones are gone
    Owing,
}
