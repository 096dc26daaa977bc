// What a grant gives: a lock, and the value of the item.

// A write lock can become a semi-write lock later; none is granted as one.
#[derive(Clone, Copy, PartialEq, Eq, Debug)]
pub enum GrantedLock {
    Read = 0,
    Write = 1,
    SemiRead = 2,
}

#[derive(Clone, Copy, PartialEq, Eq, Debug)]
pub enum Schedule {
    // no conflicting lock that was granted earlier still stands
    Normal = 0,
    PreScheduled = 1,
}

#[derive(Clone, Copy, PartialEq, Eq, Debug)]
pub struct Granted<V> {
    pub number: u16,
    pub lock: GrantedLock,
    pub schedule: Schedule,
    pub value: V,
}
