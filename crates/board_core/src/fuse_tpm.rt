// A fuse over a TPM. Its calls are in `fuse_tpm_calls`: the struct's file names nothing of specs/ that names the struct.
ghost use Rattle.std.specs.Prelude.{◌≡◌, ℕ, ◌≤◌};
ghost use Rattle.board_core.specs.declared.counters.FuseState.TheVariants.{Armed};

use crate::counters::Counters;

/// A TPM that is stopped at a chosen write. It meets the TPM's trait, and an unarmed one is its TPM. This is the project's
/// own model of a loss of power.
#[derive(Drop)]
pub struct FuseTpm<T> {
    pub(crate) inner: T,
    pub(crate) counters: Counters,
    ghost to_go: { (left keep : ℕ) → counters.stop ≡ Armed left keep → 1 ≤ left },
}
