// The check of a kernel preamble by the data key of its keyblock.
ghost use Rattle.std.specs.Prelude.{◌≡◌, ◌≤◌};
ghost use Rattle.chain_core.specs.Checking.{ChecksPreamble};
ghost use Rattle.kernel_core.specs.KernelTables.{kernel_preamble};

use board_core::{Failed, Hook};
use chain_core::{LARGEST_VERSION, signature_fault};
use key_core::{LARGEST_KEY, LAST_ALGORITHM, PackedKey};
use preamble_core::{KernelPreambleFault, KernelPreambleView};

/// The kernel preamble that the bytes begin with, of which the signature is to be one of the data key `key`. `stored` is the
/// stored version word, and is looked at only where `rollback` says so. The hook keeps its rows.
///
/// A `KernelPreambleFault` is the first line of the kernel preamble table whose test holds. `Failed`: the hook failed, and its
/// count of faults rose.
pub fn verify_kernel_preamble<'a, H: Hook>(
    hook: &mut H,
    key: &PackedKey,
    bytes: &'a [u8],
    stored: u32,
    rollback: bool,
) -> Result<Result<KernelPreambleView<'a>, KernelPreambleFault>, Failed>
    requires algorithm { key.now.algorithm ≤ LAST_ALGORITHM }
    requires size { key.now.size ≤ LARGEST_KEY }
    requires version { key.now.version ≤ LARGEST_VERSION }
    ensures meets { ChecksPreamble kernel_preamble bytes.now key.now stored rollback (H.state hook.old) (H.state hook.new) result }
{
    let preamble = match KernelPreambleView::check(bytes) {
        Ok(preamble) => preamble,
        Err(fault) => return Ok(Err(fault)),
    };
    let found = signature_fault(hook, key, &preamble.common(), stored, rollback)?;
    match found {
        Some(fault) => Ok(Err(fault)),
        None => Ok(Ok(preamble)),
    }
}
