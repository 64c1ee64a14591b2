// An area of the flash.
ghost use Rattle.std.specs.Prelude.{◌≡◌, ◌+◌, ◌≤◌, not};
ghost use Rattle.std.specs.List.{list_any};
ghost use Rattle.rom_core.specs.Map.{is_outside, first_page, end_page, share_page, any_share};

use crate::layout::PAGE_SIZE;

/// So many bytes of the flash, from a place on.
#[derive(Clone, Copy, Debug, PartialEq, Eq)]
pub struct Area {
    /// The place of the first byte, in bytes.
    pub at: u32,
    /// The number of bytes.
    pub size: u32,
}

impl Area {
    // Whether it has a byte, and all of its bytes lie in a flash of this size.
    pub(crate) fn is_in(&self, size: u32) -> bool
        ensures { result ≡ not (is_outside size self.now) }
    {
        self.size != 0 && u64::from(self.at) + u64::from(self.size) <= u64::from(size)
    }

    fn first_page(&self) -> u32
        ensures { result ≡ first_page self.now }
    {
        self.at / PAGE_SIZE
    }

    // The first page behind it.
    fn end_page(&self) -> u32
        ensures { result ≡ end_page self.now }
    {
        let end = u64::from(self.at) + u64::from(self.size);
        end.div_ceil(u64::from(PAGE_SIZE)) as u32
    }

    // Whether there is a page in which both have bytes.
    fn shares_page(&self, other: &Area) -> bool
        ensures { result ≡ share_page self.now other.now }
    {
        self.first_page() < other.end_page() && other.first_page() < self.end_page()
    }

    // Whether it shares a page with one of these.
    pub(crate) fn shares_with(&self, others: &[Area]) -> bool
        ensures { result ≡ list_any (share_page self.now) others.now }
    {
        others.iter().any(|other| self.shares_page(other))
    }
}

// Whether two of these share a page.
pub(crate) fn any_share(areas: &[Area]) -> bool
    ensures { result ≡ any_share areas.now }
{
    match areas {
        [] => false,
        [first, others @ ..] => first.shares_with(others) || any_share(others),
    }
}
