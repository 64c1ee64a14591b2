// What can be wrong with a body, and which object failed.

/// What is wrong with a body, numbered by the lines of the body table. The fault of a body is the first line whose test
/// holds.
#[derive(Clone, Copy, Debug, PartialEq, Eq)]
pub enum BodyFault {
    /// It has no bytes.
    Empty = 1,
    /// It has more bytes than its place has room for.
    TooLarge = 2,
    /// Its signature has not the length of the data key's algorithm.
    SigSize = 3,
    /// Its signature is not one of its bytes.
    Refused = 4,
}

/// Which of the objects handed in failed. It is answered only where the count of faults of that very object rose.
#[derive(Clone, Copy, Debug, PartialEq, Eq)]
pub enum Failure {
    /// The store that is read: the flash, or the disk.
    Store,
    /// The hook.
    Hook,
}
