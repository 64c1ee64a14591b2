// What can be wrong with a key or a keyblock.

/// What is wrong with a key.
#[derive(Clone, Copy, Debug, PartialEq, Eq)]
pub enum KeyFault {
    /// The number of the algorithm is over 17.
    Algorithm,
    /// The algorithm's hash is SHA-1.
    Sha1,
    /// The key has not the length of its algorithm.
    Size,
}

/// What is wrong with a keyblock, numbered by the lines of the keyblock table. The fault of a keyblock is the first line
/// whose test holds.
#[derive(Clone, Copy, Debug, PartialEq, Eq)]
pub enum KeyblockFault {
    /// Fewer bytes are there than the structure has.
    TooSmall = 1,
    /// It does not begin with the magic text.
    Magic = 2,
    /// The major version is not 2.
    Version = 3,
    /// Its size is less than the structure's, or over the bytes that are there.
    Size = 4,
    /// The seal's bytes do not lie behind the seal's structure and inside the keyblock.
    SealOutside = 5,
    /// What is signed is less than the structure.
    SignedTooLittle = 6,
    /// What is signed is more than the keyblock.
    SignedTooMuch = 7,
    /// The data key's bytes do not lie behind the packed key and inside what is signed.
    KeyOutside = 8,
    /// The number of the signing key's algorithm is over 17.
    SignerAlgorithm = 9,
    /// The signing key's hash is SHA-1.
    SignerSha1 = 10,
    /// The signing key has not the length of its algorithm.
    SignerSize = 11,
    /// The seal has not the length of its algorithm.
    SealSize = 12,
    /// The seal is not one of what is signed.
    Refused = 13,
    /// The number of the data key's algorithm is over 17.
    KeyAlgorithm = 14,
    /// The data key's hash is SHA-1.
    KeySha1 = 15,
    /// The data key has not the length of its algorithm.
    KeySize = 16,
    /// The data key's version does not fit 16 bits.
    KeyRange = 17,
    /// The data key's version is older than the stored one.
    KeyRollback = 18,
    /// The keyblock is not for this developer mode.
    DeveloperFlag = 19,
    /// The keyblock is not for this recovery mode.
    RecoveryFlag = 20,
}
