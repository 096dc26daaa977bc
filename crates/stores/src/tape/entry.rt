// An entry of a tape: an item and a value that it was given, in row form.
#[derive(Clone, Copy, PartialEq, Eq, Debug)]
pub struct Entry<R> {
    pub item: u16,
    pub value: R,
}
