// The check of a kernel's head.
ghost use Rattle.std.specs.Prelude.{◌≡◌, ◌+◌, ◌*◌, ◌≤◌, IsTrue, OnOk, is_err, drop, length};
ghost use Rattle.board_core.specs.Flash.{range};
ghost use Rattle.kernel_core.specs.KernelBodies.{LooksAtDisk};
ghost use Rattle.kernel_core.specs.HeadChecks.{head_question, VerifiesHead};

use crate::head_fault::{HeadFault, HeadOk};
use crate::keyblock::verify_kernel_keyblock;
use crate::preamble::verify_kernel_preamble;
use crate::rules::KernelRequest;
use board_core::{Disk, Failed, Hook};
use chain_core::combined_version;
use key_core::pack;

/// The number of bytes at the start of a partition in which keyblock and preamble lie.
pub const HEAD_SIZE: usize = 65536;

// The bytes from a place on.
pub(crate) fn behind(bytes: &[u8], at: u32) -> &[u8]
    requires { at ≤ length bytes.now }
    ensures { result.now ≡ drop at bytes.now }
{
    &bytes[at as usize..]
}

/// Reads the head of the kernel of which the partition begins at the sector `first`. The disk keeps its content.
///
/// `Failed`: the disk failed, and its count of faults rose; then `vblock` holds any bytes.
pub fn read_head<D: Disk>(disk: &mut D, first: u64, vblock: &mut [u8]) -> Result<(), Failed>
    requires size { length vblock.old ≡ HEAD_SIZE }
    requires inside { first + 128 ≤ (D.state disk.old).medium.sectors }
    ensures looks { LooksAtDisk 128 (D.state disk.old) (D.state disk.new) (is_err result) }
    ensures filled { IsTrue (D.state disk.new).medium.told → OnOk result (vblock.new ≡ range (D.state disk.new).medium.bytes
        (first * 512) HEAD_SIZE) }
{
    disk.read(first, vblock)
}

/// Verifies the head of a kernel in the first 65,536 bytes of its partition: the key that is asked for is to have signed the
/// keyblock, unless the rules say that a matching hash is enough, and the keyblock's data key the preamble. The hook keeps its
/// rows.
///
/// A `HeadFault` is the fault of the keyblock, or else the first line of the kernel preamble table whose test holds.
/// `Failed`: the hook failed, and its count of faults rose; then nothing else was decided.
pub fn verify_head<H: Hook>(
    hook: &mut H,
    vblock: &[u8],
    request: &KernelRequest,
) -> Result<Result<HeadOk, HeadFault>, Failed>
    requires { length vblock.now ≡ HEAD_SIZE }
    ensures meets { VerifiesHead (head_question vblock.now request.now.key request.now.rules (H.state hook.old)) (H.state hook.old)
        (H.state hook.new) result }
{
    let rules = &request.rules;
    let keyblock = match verify_kernel_keyblock(hook, &request.key, vblock, rules) {
        Ok(Ok(keyblock)) => keyblock,
        Ok(Err(fault)) => return Ok(Err(HeadFault::Keyblock(fault))),
        Err(failed) => return Err(failed),
    };
    let data_key = pack(&keyblock.data_key());
    let rest = behind(vblock, keyblock.size());
    let checked = rules.versions_are_checked();
    let preamble = match verify_kernel_preamble(hook, &data_key, rest, rules.stored, checked) {
        Ok(Ok(preamble)) => preamble,
        Ok(Err(fault)) => return Ok(Err(HeadFault::Preamble(fault))),
        Err(failed) => return Err(failed),
    };
    let common = preamble.common();
    Ok(Ok(HeadOk {
        version: combined_version(data_key.version, common.version()),
        load_address: preamble.load_address(),
        body_at: keyblock.size() + common.size(),
        body_len: common.body_len(),
    }))
}
