// What the store knows of its two pages.
use record_core::{Nv, NvForm};

/// What the two pages of nvdata were found to hold, or what a save left in them.
#[derive(Clone, Copy, Debug)]
pub struct NvState {
    /// The number of the current page, 0 or 1. `None`: no page counts.
    pub page: Option<u8>,
    /// The form of the current page. It is V1 where no page counts.
    pub form: NvForm,
    /// The generation of the current page, 0 to 2. It is 0 where no page counts.
    pub generation: u8,
    /// The index of the first cell of the current page's erased tail: 255 in form V1 and 63 in form V2 where no cell is erased, and
    /// 255 where no page counts.
    pub next: u16,
    /// The record that stands, or the blank one where none stands.
    pub nv: Nv,
    /// Whether a good record stands in the current page.
    pub stands: bool,
}
