// Hashing a message by the hash of an algorithm, in pieces, and asking a hook for its signature.
ghost use Rattle.std.specs.Prelude.{◌≡◌, ℕ, ◌≤◌, ◌++◌, List, [], length};
ghost use Rattle.chain_core.specs.Hashing.{HoldsMessage};
ghost use Rattle.chain_core.specs.Accepted.{key_of, AsksFor};

use crate::key_bytes::key_bytes;
use board_core::{Failed, Hook};
use key_core::{LARGEST_KEY, PackedKey};
use sha2::{Digest, Sha256, Sha512};

/// The hash of an algorithm, with the message that it has taken in.
#[derive(Drop)]
pub enum Hasher {
    Sha256(Sha256),
    Sha512(Sha512),
}

impl Hasher {
    /// A hasher of the empty message, by the hash of this algorithm, which is not one of SHA-1.
    pub fn new(algorithm: u32) -> Hasher
        ensures { HoldsMessage algorithm result [] }
    {
        if algorithm % 3 == 1 {
            Hasher::Sha256(Sha256::new())
        } else {
            Hasher::Sha512(Sha512::new())
        }
    }

    /// Adds a piece to the message.
    pub fn update(&mut self, piece: &[u8])
        ensures { (algorithm : ℕ) (message : List ℕ) → HoldsMessage algorithm self.old message →
            HoldsMessage algorithm self.new (message ++ piece.now) }
    {
        match self {
            Hasher::Sha256(hasher) => hasher.update(piece),
            Hasher::Sha512(hasher) => hasher.update(piece),
        }
    }

    /// Asks the hook whether this signature of the message by this key is enrolled. The hasher is of the key's algorithm.
    ///
    /// `Failed`: the hook failed, and its count of faults rose.
    pub fn verify<H: Hook>(
        self,
        hook: &mut H,
        key: &PackedKey,
        signature: &[u8],
    ) -> Result<bool, Failed>
        requires { key.now.size ≤ LARGEST_KEY }
        ensures meets { (message : List ℕ) → HoldsMessage key.now.algorithm self message →
            AsksFor (key_of key.now) message signature.now (H.state hook.old) (H.state hook.new) result }
        ensures key { length (key_of key.now).bytes ≡ key.now.size }
    {
        let bytes = key_bytes(key);
        match self {
            Hasher::Sha256(hasher) => hook.verify(
                key.algorithm,
                bytes,
                &hasher.finalize(),
                signature,
            ),
            Hasher::Sha512(hasher) => hook.verify(
                key.algorithm,
                bytes,
                &hasher.finalize(),
                signature,
            ),
        }
    }
}

/// Asks the hook whether this signature of a message by a key is enrolled. The message is hashed by the hash of the key's
/// algorithm, which is not one of SHA-1. The hook keeps its rows.
///
/// `Failed`: the hook failed, and its count of faults rose.
pub fn is_signed<H: Hook>(
    hook: &mut H,
    key: &PackedKey,
    message: &[u8],
    signature: &[u8],
) -> Result<bool, Failed>
    requires { key.now.size ≤ LARGEST_KEY }
    ensures meets { AsksFor (key_of key.now) message.now signature.now (H.state hook.old) (H.state hook.new) result }
    ensures key { length (key_of key.now).bytes ≡ key.now.size }
{
    let mut hasher = Hasher::new(key.algorithm);
    hasher.update(message);
    hasher.verify(hook, key, signature)
}
