// A fuse over a flash. Its calls are in `fuse_calls`: the struct's file names nothing of specs/ that names the struct.
ghost use Rattle.std.specs.Prelude.{◌≡◌, ℕ, ◌+◌, ◌≤◌, vec_len, vec_capacity};
ghost use Rattle.board_core.specs.declared.counters.FuseState.TheVariants.{Armed};

use crate::counters::Counters;
use crate::torn::Torn;

/// A flash that is stopped at a chosen changing call. It meets the flash's trait, and an unarmed one is its flash. This is
/// the project's own model of a loss of power. While it is armed it has memory for the records of one torn page.
#[derive(Drop)]
pub struct Fuse<F> {
    pub(crate) inner: F,
    pub(crate) counters: Counters,
    pub(crate) torn: Vec<Torn>,
    ghost to_go: { (left keep : ℕ) → counters.stop ≡ Armed left keep → 1 ≤ left },
    ghost room: { (left keep : ℕ) → counters.stop ≡ Armed left keep → vec_len torn + 8 ≤ vec_capacity torn },
}
