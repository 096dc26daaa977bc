// Where ask put a request.

#[derive(Clone, Copy, PartialEq, Eq, Debug)]
pub enum Asked {
    // at the transaction's own timestamp
    Own(u32),
    // at a later timestamp
    Moved(u32),
    // behind all that ever stood in the queue, at its high mark
    Last(u32),
    // nowhere, and the transaction is turned away; the number is the bar that it did not pass
    Away(u32),
}
