// The kinds of answer, by the byte that their lines begin with.
#[derive(Clone, Copy, PartialEq, Eq, Debug)]
pub enum AnswerKind {
    Refused = 0x00,
    Begun = 0x81,
    Asked = 0x82,
    Settled = 0x83,
    Granted = 0x84,
    Finished = 0x85,
    Cleared = 0x86,
    Abandoned = 0x87,
    Ring = 0x88,
    Owing = 0x89,
}
