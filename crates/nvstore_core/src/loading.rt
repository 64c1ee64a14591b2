// The state of the two pages.
ghost use Rattle.std.specs.Prelude.{◌≡◌, ◌+◌, ◌*◌, ◌%◌, ◌≤◌, length, IfSome, unwrap_or, is_some};
ghost use Rattle.record_core.specs.Nv.{blank_record};
ghost use Rattle.board_core.specs.Flash.{FlashState};
ghost use Rattle.nvstore_core.specs.Pages.{current_page, page_state, state_of_pages, InRange, generation_by, form_by};
ghost use Rattle.nvstore_core.specs.Saving.{Loads};

use crate::page::{PAGE_SIZE, PageHead, cells, first_of_tail, head_of_page, last_good_record};
use crate::state::NvState;
use board_core::{Failed, Flash};
use record_core::{Nv, NvForm};

// The number of the current page, from the generations of both.
fn current_of(first: Option<u8>, second: Option<u8>) -> Option<u8>
    requires { IfSome first (λ generation. generation ≤ 2) }
    ensures { result ≡ current_page first second }
{
    match (first, second) {
        (None, None) => None,
        (Some(_), None) => Some(0),
        (None, Some(_)) => Some(1),
        (Some(first), Some(second)) => {
            if second == (first + 1) % 3 {
                Some(1)
            } else {
                Some(0)
            }
        }
    }
}

fn generation_of(head: Option<PageHead>) -> Option<u8>
    requires { IfSome head (λ head. head.generation ≤ 2) }
    ensures generation { result ≡ generation_by head }
    ensures within { IfSome result (λ generation. generation ≤ 2) }
{
    match head {
        None => None,
        Some(head) => Some(head.generation),
    }
}

fn form_of(head: Option<PageHead>) -> NvForm
    ensures { result ≡ form_by head }
{
    match head {
        None => NvForm::V1,
        Some(head) => head.form,
    }
}

// What a page stands for that is current.
#[tactic(auto, unfolding(crate::specs::Pages::page_state))]
fn state_of_page(number: u8, page: &[u8; 4096]) -> NvState
    requires { number ≤ 1 }
    ensures state { result ≡ page_state number page.now }
    ensures within { InRange result }
{
    let head = head_of_page(page);
    let form = form_of(head);
    let record = last_good_record(form, page);
    NvState {
        page: Some(number),
        form,
        generation: generation_of(head).unwrap_or(0),
        next: first_of_tail(form, page),
        nv: record.unwrap_or(Nv::blank()),
        stands: record.is_some(),
    }
}

// What two pages stand for.
fn state_of(first: &[u8; 4096], second: &[u8; 4096]) -> NvState
    ensures state { result ≡ state_of_pages first.now second.now }
    ensures within { InRange result }
{
    let first_generation = generation_of(head_of_page(first));
    let second_generation = generation_of(head_of_page(second));
    match current_of(first_generation, second_generation) {
        None => NvState {
            page: None,
            form: NvForm::V1,
            generation: 0,
            next: cells(NvForm::V1),
            nv: Nv::blank(),
            stands: false,
        },
        Some(0) => state_of_page(0, first),
        Some(_) => state_of_page(1, second),
    }
}

/// Reads the two pages of nvdata at `area`, a place in bytes, each with one call. It changes nothing, and any bytes are a
/// state.
///
/// `Failed`: a call of the flash failed. The flash is as it was.
#[tactic(auto, unfolding(crate::specs::Pages::state_in, crate::specs::Pages::page_in))]
pub fn load<F: Flash>(flash: &mut F, area: u32) -> Result<NvState, Failed>
    requires multiple { area % 4096 ≡ 0 }
    requires inside { area + 8192 ≤ (F.state flash.old).medium.size }
    ensures meets { Loads area (F.state flash.old) (F.state flash.new) result }
{
    let _size = flash.size();
    let mut first = [0; PAGE_SIZE as usize];
    let mut second = [0; PAGE_SIZE as usize];
    flash.read(area, &mut first)?;
    flash.read(area + PAGE_SIZE, &mut second)?;
    Ok(state_of(&first, &second))
}
