// The check of a keyblock by the key that is to have signed it.
ghost use Rattle.std.specs.Prelude.{◌≡◌, ℕ, length};
ghost use Rattle.wire_core.specs.FirstFault.{first_fault};
ghost use Rattle.key_core.specs.Algorithms.{KeyQuestion};
ghost use Rattle.chain_core.specs.Tables.{signer_lines, data_key_lines};
ghost use Rattle.chain_core.specs.Checking.{view_question, ChecksKeyblock};

use crate::hasher::is_signed;
use board_core::{Failed, Hook};
use key_core::{
    KeyFault, KeyView, KeyblockFault, KeyblockView, PackedKey, Seal, key_fault, signature_length,
};

/// The largest version of a key or of a firmware that can be stored.
pub const LARGEST_VERSION: u32 = 0xffff;

// The first of lines 9 to 11 of the keyblock table whose test holds: what is wrong with the key that is to have signed it.
fn signer_fault(signer: &PackedKey) -> Option<KeyblockFault>
    ensures { let key : KeyQuestion = record { algorithm = signer.now.algorithm; size = signer.now.size } in
        result ≡ first_fault signer_lines key }
{
    match key_fault(signer.algorithm, signer.size)? {
        KeyFault::Algorithm => Some(KeyblockFault::SignerAlgorithm),
        KeyFault::Sha1 => Some(KeyblockFault::SignerSha1),
        KeyFault::Size => Some(KeyblockFault::SignerSize),
    }
}

/// What is wrong with a keyblock's data key: the first of lines 14 to 18 of the keyblock table whose test holds. `stored` is
/// the stored version word, and is looked at only where `rollback` says so.
pub fn data_key_fault(key: &KeyView<'_>, stored: u32, rollback: bool) -> Option<KeyblockFault>
    ensures { result ≡ first_fault data_key_lines (view_question key.now stored rollback) }
{
    let fault = key_fault(key.algorithm(), key.bytes().len() as u32);
    match fault {
        Some(KeyFault::Algorithm) => Some(KeyblockFault::KeyAlgorithm),
        Some(KeyFault::Sha1) => Some(KeyblockFault::KeySha1),
        Some(KeyFault::Size) => Some(KeyblockFault::KeySize),
        None if key.version() > LARGEST_VERSION => Some(KeyblockFault::KeyRange),
        None if rollback && key.version() < stored / 0x1_0000 => Some(KeyblockFault::KeyRollback),
        None => None,
    }
}

/// The keyblock that the bytes begin with, read by its signature, which is to be one of `signer`. `stored` is the stored
/// version word, with the version of the key in its upper 16 bits, and is looked at only where `rollback` says so. The hook
/// keeps its rows.
///
/// A `KeyblockFault` is the first of lines 1 to 18 of the keyblock table whose test holds. `Failed`: the hook failed, and its
/// count of faults rose.
pub fn verify_keyblock<'a, H: Hook>(
    hook: &mut H,
    signer: &PackedKey,
    bytes: &'a [u8],
    stored: u32,
    rollback: bool,
) -> Result<Result<KeyblockView<'a>, KeyblockFault>, Failed>
    ensures meets { ChecksKeyblock bytes.now signer.now stored rollback (H.state hook.old) (H.state hook.new) result }
{
    let keyblock = match KeyblockView::check(bytes, Seal::Signature) {
        Ok(keyblock) => keyblock,
        Err(fault) => return Ok(Err(fault)),
    };
    if let Some(fault) = signer_fault(signer) {
        return Ok(Err(fault));
    }
    if keyblock.seal_bytes().len() != signature_length(signer.algorithm) as usize {
        return Ok(Err(KeyblockFault::SealSize));
    }
    if !is_signed(hook, signer, keyblock.signed(), keyblock.seal_bytes())? {
        return Ok(Err(KeyblockFault::Refused));
    }
    if let Some(fault) = data_key_fault(&keyblock.data_key(), stored, rollback) {
        return Ok(Err(fault));
    }
    Ok(Ok(keyblock))
}
