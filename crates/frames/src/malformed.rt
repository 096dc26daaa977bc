// Why the bytes behind a frame's kind are no fields of that kind.

#[derive(Clone, Copy, PartialEq, Eq, Debug)]
pub enum Malformed {
    // no frame of the kind is that long
    Length,
    // the mode of the access at this index is no mode
    BadMode(usize),
}
