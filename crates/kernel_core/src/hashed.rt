// A keyblock that a hash vouches for.
ghost use Rattle.std.specs.Prelude.{◌≡◌, Some, None, IfOk, IfErr, OnOk, length, false};
ghost use Rattle.wire_core.specs.FirstFault.{first_fault};
ghost use Rattle.key_core.specs.Keyblocks.{keyblock_in, KeyblockFits};
ghost use Rattle.key_core.specs.declared.keyblock.Seal.TheVariants.{Hash};
ghost use Rattle.chain_core.specs.Tables.{data_key_lines};
ghost use Rattle.chain_core.specs.Checking.{view_question};
ghost use Rattle.kernel_core.specs.KernelTables.{HashQuestion, hash_lines, hashed_table};

use chain_core::data_key_fault;
use key_core::{KeyblockFault, KeyblockView, Seal};
use sha2::{Digest, Sha512};

// The size of a SHA-512 digest, in bytes.
const DIGEST: usize = 64;

// What is wrong with the hash of a keyblock.
fn hash_fault(hash: &[u8], signed: &[u8]) -> Option<KeyblockFault>
    ensures { let question : HashQuestion = record { size = length hash.now; hash = hash.now; signed = signed.now } in
        result ≡ first_fault hash_lines question }
{
    if hash.len() != DIGEST {
        return Some(KeyblockFault::SealSize);
    }
    let digest = Sha512::digest(signed);
    if hash != &digest[..] {
        return Some(KeyblockFault::Refused);
    }
    None
}

/// The keyblock that the bytes begin with, read by its hash, which anybody can make.
///
/// An error is the first line of the keyblock table with the hash as seal whose test holds: lines 1 to 8, lines 12 and 13,
/// and lines 14 to 17.
pub fn check_hashed(bytes: &[u8]) -> Result<KeyblockView<'_>, KeyblockFault>
    ensures fault { IfErr result (λ fault. first_fault hashed_table bytes.now ≡ Some fault) }
    ensures none { OnOk result (first_fault hashed_table bytes.now ≡ None) }
    ensures parts { IfOk result (λ keyblock. keyblock ≡ keyblock_in Hash bytes.now) }
    ensures fits { IfOk result (KeyblockFits Hash bytes.now) }
    ensures key { IfOk result (λ keyblock. first_fault data_key_lines (view_question keyblock.data_key 0 false) ≡ None) }
{
    let keyblock = match KeyblockView::check(bytes, Seal::Hash) {
        Ok(keyblock) => keyblock,
        Err(fault) => return Err(fault),
    };
    if let Some(fault) = hash_fault(keyblock.seal_bytes(), keyblock.signed()) {
        return Err(fault);
    }
    if let Some(fault) = data_key_fault(&keyblock.data_key(), 0, false) {
        return Err(fault);
    }
    Ok(keyblock)
}
