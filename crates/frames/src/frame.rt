// A frame that was read: a call with its arguments. Its lists are parts of the decoded line.
use crate::entries::{Accesses, Values};

#[derive(Clone, Copy, PartialEq, Eq, Debug)]
pub enum Frame<'a> {
    Begin {
        protocol: u8,
        site: u8,
        timestamp: u32,
        interval: u32,
        accesses: Accesses<'a>,
    },
    Ask {
        number: u16,
        item: u8,
    },
    Settle {
        number: u16,
    },
    Grant {
        item: u8,
    },
    Finish {
        number: u16,
        values: Values<'a>,
    },
    Clear {
        number: u16,
    },
    Abandon {
        number: u16,
    },
    Ring,
    Owing,
}
