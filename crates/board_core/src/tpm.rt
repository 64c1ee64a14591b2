// A TPM: two spaces of at most 64 bytes, each of which can be locked.
ghost use Rattle.std.specs.Prelude.{◌≡◌, ℕ, ◌≤◌, length, false, IsTrue};
ghost use Rattle.board_core.specs.declared.counters.FuseState.TheVariants.{Armed};
ghost use Rattle.board_core.specs.Tpm.{TpmState, StartsUp, ReadsSpace, WritesSpace, LocksSpace, is_locked, AreWithinSize};

use crate::device::{Failed, Space};

/// Two spaces of at most 64 bytes, which keep their bytes over a restart, and a lock for each, which holds until the next
/// startup. This is the project's own model of a device. `write` is its only changing call.
///
/// Each call that answers `Failed` raises the count of faults, and a failed write raises the number of failed changes
/// too.
pub trait Tpm {
    ghost state: { Self → TpmState };

    /// Unlocks both spaces. Their bytes stay.
    ///
    /// `Failed`: both locks are as they were.
    fn startup(&mut self) -> Result<(), Failed>
        ensures meets { StartsUp (state self.old) (state self.new) result };

    /// Puts the space's bytes first in `buf`, and answers how many there are, at most 64. Spaces and locks stay.
    ///
    /// `Failed`: `buf` holds any bytes.
    fn read(&mut self, space: Space, buf: &mut [u8; 64]) -> Result<usize, Failed>
        ensures meets { ReadsSpace space buf.new (state self.old) (state self.new) result };

    /// Replaces the whole space, which is not locked, by at most 64 bytes. The other space and both locks stay.
    ///
    /// `Failed`: the space holds its old bytes or the new ones.
    fn write(&mut self, space: Space, bytes: &[u8]) -> Result<(), Failed>
        requires unlocked { is_locked space (state self.old).locks ≡ false }
        requires fits { length bytes.now ≤ 64 }
        ensures meets { WritesSpace space bytes.now (state self.old) (state self.new) result };

    /// Locks the space until the next startup. Both spaces and the other lock stay.
    ///
    /// `Failed`: the space is locked or not.
    fn lock(&mut self, space: Space) -> Result<(), Failed>
        ensures meets { LocksSpace space (state self.old) (state self.new) result };

    /// An armed stop has a call to go.
    ghost armed: { (tpm : Self) (left keep : ℕ) → (state tpm).counters.stop ≡ Armed left keep → 1 ≤ left };

    /// Each space that is told has at most 64 bytes.
    ghost told_size: { (tpm : Self) → IsTrue (state tpm).told → AreWithinSize (state tpm).spaces };
}
