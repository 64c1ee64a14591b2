// A hook, which says of a signature whether it is accepted, and how rows are added to it.
ghost use Rattle.board_core.specs.Hook.{HookState, Verifies, Enrolls};

use crate::device::Failed;
use crate::hook_row::HookRow;

/// Why a row was not enrolled. The list of rows is unchanged after each.
#[derive(Clone, Copy, Debug, PartialEq, Eq)]
pub enum EnrollFault {
    /// The hook failed. Its count of faults rose.
    Failed,
    /// 4,096 rows stand, and this one is not among them.
    Full,
    /// There was no memory for one more row.
    Memory,
}

/// A list of accepted signatures, which stands for the arithmetic of signatures. This is the project's own model of a
/// device; the digests are those of FIPS 180-4. It has a count of faults, and no stop.
pub trait Hook {
    ghost state: { Self → HookState };

    /// Whether the row of this algorithm, the SHA-256 of the key, the digest, and the SHA-256 of the signature is in the
    /// list. The digest is that of a message by the algorithm's hash, of 32 or 64 bytes: for one of any other length the
    /// answer is no.
    ///
    /// `Failed`: the hook failed, and its count of faults rose. The rows stay, whatever the answer.
    fn verify(
        &mut self,
        algorithm: u32,
        key: &[u8],
        digest: &[u8],
        signature: &[u8],
    ) -> Result<bool, Failed>
        ensures meets { Verifies algorithm key.now digest.now signature.now (state self.old) (state self.new) result };

    /// Appends the row, unless the list has it already.
    ///
    /// Each `EnrollFault` leaves the list as it was: `Failed` where the hook failed, `Full` where 4,096 other rows stand,
    /// `Memory` where there is none for one more row.
    fn enroll(&mut self, row: &HookRow) -> Result<(), EnrollFault>
        ensures meets { Enrolls row.now (state self.old) (state self.new) result };
}
