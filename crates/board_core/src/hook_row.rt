// A row of a hook: one accepted signature, by its digests. The calls of a hook are in `hook`.
ghost use Rattle.std.specs.Prelude.{◌≡◌, ◌-◌, drop, replicate, IsTrue};
ghost use Rattle.board_core.specs.HookRow.{is_digest_size};

/// An accepted signature. It names a key, a message and a signature by their digests (FIPS 180-4).
#[derive(Clone, Copy, Debug, PartialEq, Eq)]
pub struct HookRow {
    /// The number of the signature algorithm.
    pub algorithm: u32,
    /// The SHA-256 of the key's bytes.
    pub key: [u8; 32],
    /// The length of the message's digest in bytes: 32 or 64.
    pub digest_len: u8,
    /// The message's digest by the algorithm's hash, and zeros after it.
    pub digest: [u8; 64],
    /// The SHA-256 of the signature's bytes.
    pub signature: [u8; 32],
    ghost digest_size: { IsTrue (is_digest_size digest_len) },
    ghost zeros_after: { drop digest_len digest ≡ replicate (64 - digest_len) 0 },
}
