// A record is stored: in the next cell of the current page, or else in a fresh page.
ghost use Rattle.std.specs.Prelude.{◌≡◌, ◌+◌, ◌*◌, ◌%◌, ◌≤◌, ◌<◌, IsTrue, OnOk, OnErr};
ghost use Rattle.record_core.specs.declared.nv.NvForm.{NvForm};
ghost use Rattle.record_core.specs.Nv.{IsGoodRecord, form_of};
ghost use Rattle.board_core.specs.Flash.{FlashState};
ghost use Rattle.nvstore_core.specs.Pages.{IsStateOf, InRange, has_room, other_page, next_generation, state_with_record};
ghost use Rattle.nvstore_core.specs.Saving.{Saves};
ghost use Rattle.nvstore_core.specs.Steps.{WritesPage};

use crate::page::{PAGE_SIZE, cell_size, cells, page_head};
use crate::state::NvState;
use board_core::{Failed, Flash};
use record_core::{Nv, NvForm};

impl NvState {
    // Whether the current page takes a record of this form: it counts, has the form, and has an erased cell.
    fn has_room(&self, form: NvForm) -> bool
        ensures { result ≡ has_room self.now form }
    {
        self.page.is_some() && self.form == form && self.next < cells(form)
    }

    // The page to be written where there is no room.
    fn other_page(&self) -> u8
        requires { InRange self.now }
        ensures page { result ≡ other_page self.now.page }
        ensures within { result ≤ 1 }
    {
        match self.page {
            Some(page) => 1 - page,
            None => 0,
        }
    }

    // The generation of that page.
    fn next_generation(&self) -> u8
        requires { InRange self.now }
        ensures generation { result ≡ next_generation self.now }
        ensures within { result ≤ 2 }
    {
        match self.page {
            Some(_) => (self.generation + 1) % 3,
            None => 0,
        }
    }

    // The state after this record was stored.
    #[tactic(auto, unfolding(crate::specs::Pages::state_with_record))]
    fn with_record(&self, nv: &Nv) -> NvState
        requires { InRange self.now }
        ensures state { result ≡ state_with_record self.now nv.now }
        ensures within { InRange result }
    {
        if self.has_room(nv.form()) {
            NvState {
                page: self.page,
                form: self.form,
                generation: self.generation,
                next: self.next + 1,
                nv: *nv,
                stands: true,
            }
        } else {
            NvState {
                page: Some(self.other_page()),
                form: nv.form(),
                generation: self.next_generation(),
                next: 1,
                nv: *nv,
                stands: true,
            }
        }
    }
}

/// Makes `nv` the stored record of the two pages at `area`, a place in bytes. `state` is what `load` or the last `save`
/// answered, and is the state of the pages again afterwards.
///
/// It programs the next cell of the current page, which is one changing call. Where that page has another form than the record, or
/// no erased cell, or no page counts, it erases the other page, programs its cell 0 and programs its head last, with the record's
/// form, which are three. So there is always room.
///
/// `Failed`: a changing call of the flash failed. All that was written in the current page stays, `state` is as it was,
/// and the pages are to be loaded again. Where the torn bytes do not pass their checks the pages stand for the record of
/// before or for `nv`.
pub fn save<F: Flash>(flash: &mut F, area: u32, state: &mut NvState, nv: &Nv) -> Result<(), Failed>
    requires multiple { area % 4096 ≡ 0 }
    requires inside { area + 8192 ≤ (F.state flash.old).medium.size }
    requires state { IsTrue (F.state flash.old).medium.told → IsStateOf area (F.state flash.old).medium.bytes state.old }
    requires within { InRange state.old }
    ensures meets { Saves area state.old nv.now (F.state flash.old) (F.state flash.new) result }
    ensures state { OnOk result (state.new ≡ state_with_record state.old nv.now) }
    ensures unchanged { OnErr result (state.new ≡ state.old) }
    ensures within { InRange state.new }
{
    write_record(flash, area, state, nv)?;
    *state = state.with_record(nv);
    Ok(())
}

// Programs the next cell of the current page, or else writes the other page.
fn write_record<F: Flash>(flash: &mut F, area: u32, state: &NvState, nv: &Nv) -> Result<(), Failed>
    requires multiple { area % 4096 ≡ 0 }
    requires inside { area + 8192 ≤ (F.state flash.old).medium.size }
    requires state { IsTrue (F.state flash.old).medium.told → IsStateOf area (F.state flash.old).medium.bytes state.now }
    requires within { InRange state.now }
    ensures meets { Saves area state.now nv.now (F.state flash.old) (F.state flash.new) result }
{
    let _size = flash.size();
    let bytes = nv.as_slice();
    if state.has_room(nv.form()) {
        let page = state.page.unwrap_or(0) as u32;
        let size = cell_size(nv.form());
        let cell = size + size * state.next as u32;
        flash.program(area + PAGE_SIZE * page + cell, bytes)
    } else {
        let page = area / PAGE_SIZE + state.other_page() as u32;
        write_page(flash, page, state.next_generation(), nv)
    }
}

// Erases the page of this number in the flash, programs its cell 0, and last its head, which makes the page count.
fn write_page<F: Flash>(flash: &mut F, page: u32, generation: u8, nv: &Nv) -> Result<(), Failed>
    requires inside { 4096 * page + 4096 ≤ (F.state flash.old).medium.size }
    ensures meets { WritesPage (4096 * page) generation nv.now (F.state flash.old) (F.state flash.new) result }
{
    let _size = flash.size();
    let place = PAGE_SIZE * page;
    flash.erase(page)?;
    flash.program(place + cell_size(nv.form()), nv.as_slice())?;
    flash.program(place, &page_head(nv.form(), generation))
}
