// The check of a kernel's keyblock.
ghost use Rattle.std.specs.Prelude.{◌≡◌, ◌&&◌, nat_le};
ghost use Rattle.chain_core.specs.SlotNumbers.{keyblock_number};
ghost use Rattle.kernel_core.specs.Rules.{hash_is_enough};
ghost use Rattle.kernel_core.specs.HeadChecks.{ChecksKernelKeyblock};

use crate::flags::flag_fault;
use crate::hashed::check_hashed;
use crate::rules::KernelRules;
use board_core::{Failed, Hook};
use chain_core::verify_keyblock;
use key_core::{KeyblockFault, KeyblockView, PackedKey};

// The last line of the keyblock table that asks for the seal.
const LAST_SEAL_LINE: u8 = 13;

// Whether a fault that was found with the signature as seal is dropped: it is of the seal, and a matching hash is enough.
fn is_dropped(fault: KeyblockFault, rules: &KernelRules) -> bool
    ensures { result ≡ (hash_is_enough rules.now && nat_le (keyblock_number fault) LAST_SEAL_LINE) }
{
    rules.hash_is_enough() && fault as u8 <= LAST_SEAL_LINE
}

/// The keyblock that the bytes begin with. Its signature is to be one of `signer`, and its flags are to fit the mode; where a
/// matching hash is enough, it is read by its hash if its signature is not good, and its flags may be any. Versions are
/// checked in each mode but recovery. The hook keeps its rows.
///
/// A `KeyblockFault` is the first line of the keyblock table whose test holds; where a matching hash is enough and the first
/// of lines 1 to 13 is found with the signature as seal, it is the first with the hash as seal. `Failed`: the hook failed,
/// and its count of faults rose.
pub fn verify_kernel_keyblock<'a, H: Hook>(
    hook: &mut H,
    signer: &PackedKey,
    bytes: &'a [u8],
    rules: &KernelRules,
) -> Result<Result<KeyblockView<'a>, KeyblockFault>, Failed>
    ensures meets { ChecksKernelKeyblock bytes.now signer.now rules.now (H.state hook.old) (H.state hook.new) result }
{
    let checked = rules.versions_are_checked();
    let keyblock = match verify_keyblock(hook, signer, bytes, rules.stored, checked) {
        Ok(Ok(keyblock)) => keyblock,
        Ok(Err(fault)) => {
            if is_dropped(fault, rules) {
                return Ok(check_hashed(bytes));
            }
            return Ok(Err(fault));
        }
        Err(failed) => return Err(failed),
    };
    match flag_fault(keyblock.flags(), rules) {
        Some(fault) => Ok(Err(fault)),
        None => Ok(Ok(keyblock)),
    }
}
