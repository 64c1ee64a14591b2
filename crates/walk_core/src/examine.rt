// The kernel in one partition.
ghost use Rattle.std.specs.Prelude.{◌≡◌, ◌+◌, ◌≤◌, length};
ghost use Rattle.walk_core.specs.Kernels.{walk_question};
ghost use Rattle.walk_core.specs.Examined.{ExaminesHead, ExaminesKernel};

use board_core::{Disk, Failed, Hook};
use chain_core::Failure;
use kernel_core::{
    BodyRoom, HEAD_SIZE, HeadOk, KernelRequest, Partition, read_head, verify_body, verify_head,
};

// How many sectors a head is. A partition of fewer is too short for one, and nothing of it is read.
const HEAD_SECTORS: u64 = 128;

/// Examines the head of the kernel in a partition, and answers it where it is good:
/// where the partition has 128 sectors or more, and the tables of keyblock and preamble find no fault. Then `vblock` holds
/// the bytes that it begins with. Disk and hook keep their content, and at most 128 sectors are read.
///
/// `Failure`: the disk or the hook failed, and its count of faults rose; then nothing else was decided, and `vblock` holds
/// any bytes.
pub fn examine_head<D: Disk, H: Hook>(
    disk: &mut D,
    hook: &mut H,
    partition: Partition,
    vblock: &mut [u8],
    request: &KernelRequest,
) -> Result<Option<HeadOk>, Failure>
    requires size { length vblock.old ≡ HEAD_SIZE }
    requires inside { partition.first + partition.sectors ≤ (D.state disk.old).medium.sectors }
    ensures meets { ExaminesHead
        (walk_question (D.state disk.old) (H.state hook.old) request.now)
        partition.first partition.sectors (D.state disk.new) (H.state hook.new) vblock.new result }
{
    if partition.sectors < HEAD_SECTORS {
        return Ok(None);
    }
    if read_head(disk, partition.first, vblock).is_err() {
        return Err(Failure::Store);
    }
    match verify_head(hook, vblock, request) {
        Ok(Ok(head)) => Ok(Some(head)),
        Ok(Err(_)) => Ok(None),
        Err(Failed) => Err(Failure::Hook),
    }
}

/// Examines the kernel in a partition, and answers its head where it is good: where
/// its head is good, and the body table finds no fault. Then the room hands out its body. Disk and hook keep their content;
/// at most 128 sectors are read, and where its head is good those that the body touches past them. No memory is taken.
///
/// `Failure`: the disk or the hook failed, and its count of faults rose; then nothing else was decided.
pub fn examine_kernel<D: Disk, H: Hook>(
    disk: &mut D,
    hook: &mut H,
    partition: Partition,
    vblock: &mut [u8],
    body: &mut BodyRoom,
    request: &KernelRequest,
) -> Result<Option<HeadOk>, Failure>
    requires size { length vblock.old ≡ HEAD_SIZE }
    requires inside { partition.first + partition.sectors ≤ (D.state disk.old).medium.sectors }
    ensures meets { ExaminesKernel
        (walk_question (D.state disk.old) (H.state hook.old) request.now)
        partition.first partition.sectors (D.state disk.new) (H.state hook.new) body.new result }
{
    let head = match examine_head(disk, hook, partition, vblock, request) {
        Ok(Some(head)) => head,
        Ok(None) => return Ok(None),
        Err(failure) => return Err(failure),
    };
    match verify_body(disk, hook, partition, vblock, &head, body) {
        Ok(None) => Ok(Some(head)),
        Ok(Some(_)) => Ok(None),
        Err(failure) => Err(failure),
    }
}
