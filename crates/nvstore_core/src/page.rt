// One page of nvdata: its head, its cells, and what they stand for. A cell has as many bytes as a record of the page's form, and
// cell 0 stands behind as many bytes from the start.
ghost use Rattle.std.specs.Prelude.{◌≡◌, ◌+◌, ◌*◌, ◌≤◌, ◌<◌, take, IfSome};
ghost use Rattle.record_core.specs.declared.nv.NvForm.{NvForm};
ghost use Rattle.record_core.specs.Nv.{record_size};
ghost use Rattle.nvstore_core.specs.Pages.{cells_in, form_byte, head_of, is_head, head_in_form, page_head, cell_of, is_erased};
ghost use Rattle.nvstore_core.specs.Pages.{last_good, tail_start, next_cell, page_record};

use record_core::{Nv, NvForm};
use wire_core::{crc8, put_u32};

/// The bytes of a page.
pub const PAGE_SIZE: u32 = 4096;

const MAGIC: [u8; 4] = *b"NVPG";

const GENERATION_AT: usize = 4;

const FORM_AT: usize = 8;

const HEAD_CRC_AT: usize = 15;

const HEAD_SIZE: usize = 16;

/// The bytes of a cell in a page of this form.
pub fn cell_size(form: NvForm) -> u32
    ensures size { result ≡ record_size form }
    ensures few { result ≤ 64 }
{
    match form {
        NvForm::V1 => 16,
        NvForm::V2 => 64,
    }
}

/// The cells of a page of this form.
pub fn cells(form: NvForm) -> u16
    ensures cells { result ≡ cells_in form }
    ensures few { result ≤ 255 }
{
    match form {
        NvForm::V1 => 255,
        NvForm::V2 => 63,
    }
}

fn byte_of_form(form: NvForm) -> u8
    ensures { result ≡ form_byte form }
{
    match form {
        NvForm::V1 => 0,
        NvForm::V2 => 2,
    }
}

/// What the head of a page tells.
#[derive(Clone, Copy, Debug)]
pub struct PageHead {
    /// The form of the page's cells.
    pub form: NvForm,
    /// The generation, 0 to 2.
    pub generation: u8,
}

/// The head of a page of this form and generation.
pub fn page_head(form: NvForm, generation: u8) -> [u8; 16]
    ensures { result ≡ head_of form generation }
{
    let mut head = [0; HEAD_SIZE];
    head[..GENERATION_AT].copy_from_slice(&MAGIC);
    put_u32(&mut head, GENERATION_AT, generation as u32);
    head[FORM_AT] = byte_of_form(form);
    head[HEAD_CRC_AT] = crc8(&head[..HEAD_CRC_AT]);
    head
}

fn is_head(head: &[u8], form: NvForm, generation: u8) -> bool
    ensures { result ≡ is_head head.now form generation }
{
    head == page_head(form, generation).as_slice()
}

fn head_in_form(head: &[u8], form: NvForm) -> Option<PageHead>
    ensures { result ≡ head_in_form head.now form }
{
    if is_head(head, form, 0) {
        Some(PageHead {
            form,
            generation: 0,
        })
    } else if is_head(head, form, 1) {
        Some(PageHead {
            form,
            generation: 1,
        })
    } else if is_head(head, form, 2) {
        Some(PageHead {
            form,
            generation: 2,
        })
    } else {
        None
    }
}

/// What the head of a page tells, where it is whole.
#[tactic(auto, unfolding(crate::specs::Pages::head_in))]
pub fn head_of_page(page: &[u8; 4096]) -> Option<PageHead>
    ensures head { result ≡ page_head page.now }
    ensures within { IfSome result (λ head. head.generation ≤ 2) }
{
    let head = &page[..HEAD_SIZE];
    match head_in_form(head, NvForm::V1) {
        Some(found) => Some(found),
        None => head_in_form(head, NvForm::V2),
    }
}

fn cell_at(form: NvForm, page: &[u8; 4096], index: u16) -> &[u8]
    requires { index < cells_in form }
    ensures { result.now ≡ cell_of form page.now index }
{
    let size = cell_size(form) as usize;
    let at = size + size * index as usize;
    &page[at..at + size]
}

fn is_erased_cell(cell: &[u8]) -> bool
    ensures { result ≡ is_erased cell.now }
{
    cell.iter().all(|byte| *byte == 0xff)
}

/// The good record of highest index in a page of this form.
#[tactic(auto, unfolding(crate::specs::Pages::page_record))]
pub fn last_good_record(form: NvForm, page: &[u8; 4096]) -> Option<Nv>
    ensures { result ≡ page_record form page.now }
{
    let mut end = cells(form);
    while end > 0 {
        end -= 1;
        let found = Nv::from_bytes(cell_at(form, page, end));
        if found.is_some() {
            return found;
        }
    }
    None
}

/// The first cell of the erased tail of a page of this form; the number of cells where no cell is erased.
#[tactic(auto, unfolding(crate::specs::Pages::next_cell))]
pub fn first_of_tail(form: NvForm, page: &[u8; 4096]) -> u16
    ensures first { result ≡ next_cell form page.now }
    ensures within { result ≤ cells_in form }
{
    let mut next = cells(form);
    while next > 0 && is_erased_cell(cell_at(form, page, next - 1)) {
        next -= 1;
    }
    next
}
