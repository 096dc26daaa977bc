// What a protocol is asked of a request, and what it can answer.

// how a protocol orders its transactions: by locks alone, by timestamps alone, or by timestamps that can be moved
#[derive(Clone, Copy, PartialEq, Eq, Debug)]
pub enum Kind {
    Lock,
    Order,
    Agree,
}

#[derive(Clone, Copy, PartialEq, Eq, Debug)]
pub enum Mode {
    Read,
    Write,
}

#[derive(Clone, Copy, PartialEq, Eq, Debug)]
pub struct Question {
    // the protocol number that the transaction chose
    pub number: u8,
    pub mode: Mode,
    pub timestamp: u32,
    // the step by which precedence agreement moves a timestamp
    pub interval: u32,
    // the largest place that was granted to a conflicting request
    pub bar: u32,
}

// where the request is placed: at its own timestamp, at a later one, behind all that ever stood there, or nowhere
#[derive(Clone, Copy, PartialEq, Eq, Debug)]
pub enum Placement {
    Own,
    Moved(u32),
    Last,
    Away,
}
