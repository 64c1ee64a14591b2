// The check of a preamble by the data key of its keyblock: what both kinds share, and that of a firmware preamble.
ghost use Rattle.std.specs.Prelude.{◌≤◌, ◌≡◌};
ghost use Rattle.chain_core.specs.Checking.{signature_question, ChecksSignature, ChecksPreamble};
ghost use Rattle.chain_core.specs.Tables.{combined_version, firmware_preamble};

use crate::hasher::is_signed;
use crate::keyblock::LARGEST_VERSION;
use board_core::{Failed, Hook};
use key_core::{LARGEST_KEY, LAST_ALGORITHM, PackedKey, signature_length};
use preamble_core::{
    CommonView, FwPreambleFault, FwPreambleView, KernelPreambleFault, firmware_line,
};

/// The version word of a slot: the key's version in the upper 16 bits, and the firmware's in the lower 16.
pub fn combined_version(key: u32, firmware: u32) -> u32
    requires key { key ≤ LARGEST_VERSION }
    requires firmware { firmware ≤ LARGEST_VERSION }
    ensures { result ≡ combined_version key firmware }
{
    key * 0x1_0000 + firmware
}

/// What is wrong with the signature of a preamble, which is to be one of the data key `key`, or with the version that it
/// signs. `stored` is the stored version word, and is looked at only where `rollback` says so. The hook keeps its rows.
///
/// The answer is the first of the last four lines of the kernel preamble table whose test holds, which a firmware preamble
/// has too. `Failed`: the hook failed, and its count of faults rose.
pub fn signature_fault<H: Hook>(
    hook: &mut H,
    key: &PackedKey,
    preamble: &CommonView<'_>,
    stored: u32,
    rollback: bool,
) -> Result<Option<KernelPreambleFault>, Failed>
    requires algorithm { key.now.algorithm ≤ LAST_ALGORITHM }
    requires size { key.now.size ≤ LARGEST_KEY }
    requires key_version { key.now.version ≤ LARGEST_VERSION }
    ensures meets { ChecksSignature (signature_question preamble.now key.now stored rollback (H.state hook.old))
        (H.state hook.old) (H.state hook.new) result }
{
    if preamble.signature().len() != signature_length(key.algorithm) as usize {
        return Ok(Some(KernelPreambleFault::SigSize));
    }
    if !is_signed(hook, key, preamble.signed(), preamble.signature())? {
        return Ok(Some(KernelPreambleFault::Refused));
    }
    let version = preamble.version();
    if version > LARGEST_VERSION {
        return Ok(Some(KernelPreambleFault::VersionRange));
    }
    if rollback && combined_version(key.version, version) < stored {
        return Ok(Some(KernelPreambleFault::Rollback));
    }
    Ok(None)
}

/// The firmware preamble that the bytes begin with, of which the signature is to be one of the data key `key`. `stored` is
/// the stored version word, and is looked at only where `rollback` says so. The hook keeps its rows.
///
/// A `FwPreambleFault` is the first line of the firmware preamble table whose test holds. `Failed`: the hook failed, and its
/// count of faults rose.
pub fn verify_preamble<'a, H: Hook>(
    hook: &mut H,
    key: &PackedKey,
    bytes: &'a [u8],
    stored: u32,
    rollback: bool,
) -> Result<Result<FwPreambleView<'a>, FwPreambleFault>, Failed>
    requires algorithm { key.now.algorithm ≤ LAST_ALGORITHM }
    requires size { key.now.size ≤ LARGEST_KEY }
    requires version { key.now.version ≤ LARGEST_VERSION }
    ensures meets { ChecksPreamble firmware_preamble bytes.now key.now stored rollback (H.state hook.old) (H.state hook.new)
        result }
{
    let preamble = match FwPreambleView::check(bytes) {
        Ok(preamble) => preamble,
        Err(fault) => return Ok(Err(fault)),
    };
    let found = signature_fault(hook, key, &preamble.common(), stored, rollback)?;
    match found {
        Some(fault) => Ok(Err(firmware_line(fault))),
        None => Ok(Ok(preamble)),
    }
}
