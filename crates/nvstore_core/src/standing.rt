// Whether a record stands.
ghost use Rattle.std.specs.Prelude.{◌≡◌};
ghost use Rattle.nvstore_core.specs.Pages.{is_standing, record_change};

use crate::state::NvState;
use record_core::Nv;

impl NvState {
    /// Whether a good record stands and it is this one.
    pub fn holds(&self, nv: &Nv) -> bool
        ensures { result ≡ is_standing self.now nv.now }
    {
        self.stands && self.nv.as_slice() == nv.as_slice()
    }

    /// The record, unless it stands already.
    pub fn change_to(&self, nv: &Nv) -> Option<Nv>
        ensures { result ≡ record_change self.now nv.now }
    {
        if self.holds(nv) { None } else { Some(*nv) }
    }
}
