// The store over a flash in memory: it is stopped in the middle of a call, and it stores many records one after another; and the
// premise on what a failed call leaves is met by such a flash.
ghost use Rattle.std.specs.Prelude.{◌≡◌, ◌+◌, ◌*◌, ◌%◌, ◌≤◌, Some};
ghost use Rattle.board_mem.specs.declared.fails.Remains.TheVariants.{Old, New, Fill};
ghost use Rattle.board_mem.specs.Fails.{next_failure};
ghost use Rattle.board_mem.specs.MemFlash.{mem_flash_state, mem_flash_plan};
ghost use Rattle.board_core.specs.Torn.{added};
ghost use Rattle.nvstore_core.specs.Fair.{IsFairFlash};

use board_core::{Failed, Flash, Fuse};
use board_mem::MemFlash;
use nvstore_core::{page_head, *};
use record_core::{Nv, NvField, NvForm};
use std::alloc::{AllocError, Global};
use std::test::Fail;

const AREA: u32 = 4096;

const NO_HEAD: [u8; 16] = [0xff; 16];

// A blank record of this form with this count of tries.
fn record_of(form: NvForm, tries: u8) -> Nv
    requires { tries ≤ 15 }
{
    let mut nv = Nv::blank();
    nv.set(NvField::TryCount, tries);
    if form == NvForm::V2 {
        nv.up();
    }
    nv
}

// Appends a page with this head, and with this record in its first cells.
fn put_page(
    content: &mut Vec<u8>,
    head: &[u8; 16],
    used: usize,
    nv: &Nv,
) -> Result<(), AllocError> {
    let (cells, pieces) = match nv.form() {
        NvForm::V1 => (255, 1),
        NvForm::V2 => (63, 4),
    };
    content.extend_from_slice(head)?;
    for _ in 1..pieces {
        content.extend_from_slice(&NO_HEAD)?;
    }
    for cell in 0..cells {
        if cell < used {
            content.extend_from_slice(nv.as_slice())?;
        } else {
            for _ in 0..pieces {
                content.extend_from_slice(&NO_HEAD)?;
            }
        }
    }
    Ok(())
}

// A flash whose two pages lie behind an erased one. Page 0 holds the record of 1 try, and page 1 that of 2.
fn flash_of(
    alloc: Global,
    form: NvForm,
    first: (&[u8; 16], usize),
    second: (&[u8; 16], usize),
) -> Result<Vec<u8>, AllocError> {
    let mut content = Vec::new(alloc);
    put_page(&mut content, &NO_HEAD, 0, &Nv::blank())?;
    put_page(&mut content, first.0, first.1, &record_of(form, 1))?;
    put_page(&mut content, second.0, second.1, &record_of(form, 2))?;
    Ok(content)
}

// The premise on remains is met by a flash in memory: a program of whole cells of either form that fails leaves fair remains, where
// the list names the old bytes, the new ones or zeros.
fn program_fairly(flash: &mut MemFlash, at: u32, bytes: &[u8; 64]) -> Result<(), Failed>
    requires piece { at % 64 ≡ 0 }
    requires inside { at + 64 ≤ (mem_flash_state flash.old).medium.size }
    ensures old { next_failure (mem_flash_plan flash.old) ≡ Some Old
        → IsFairFlash 4096 (mem_flash_state flash.old).medium.bytes
        (added (mem_flash_state flash.old).medium.torn (mem_flash_state flash.new).medium.torn) }
    ensures new { next_failure (mem_flash_plan flash.old) ≡ Some New
        → IsFairFlash 4096 (mem_flash_state flash.old).medium.bytes
        (added (mem_flash_state flash.old).medium.torn (mem_flash_state flash.new).medium.torn) }
    ensures zeros { next_failure (mem_flash_plan flash.old) ≡ Some (Fill 0)
        → IsFairFlash 4096 (mem_flash_state flash.old).medium.bytes
        (added (mem_flash_state flash.old).medium.torn (mem_flash_state flash.new).medium.torn) }
{
    flash.program(at, bytes)
}

// And so does an erase of a page that fails.
fn erase_fairly(flash: &mut MemFlash, page: u32) -> Result<(), Failed>
    requires inside { page * 4096 + 4096 ≤ (mem_flash_state flash.old).medium.size }
    ensures old { next_failure (mem_flash_plan flash.old) ≡ Some Old
        → IsFairFlash 4096 (mem_flash_state flash.old).medium.bytes
        (added (mem_flash_state flash.old).medium.torn (mem_flash_state flash.new).medium.torn) }
    ensures new { next_failure (mem_flash_plan flash.old) ≡ Some New
        → IsFairFlash 4096 (mem_flash_state flash.old).medium.bytes
        (added (mem_flash_state flash.old).medium.torn (mem_flash_state flash.new).medium.torn) }
    ensures zeros { next_failure (mem_flash_plan flash.old) ≡ Some (Fill 0)
        → IsFairFlash 4096 (mem_flash_state flash.old).medium.bytes
        (added (mem_flash_state flash.old).medium.torn (mem_flash_state flash.new).medium.torn) }
{
    flash.erase(page)
}

// Each row has the form of the full page, the form of the record that is saved, how many calls are whole, how many bytes of
// the next one happen, and the tries of the record that stands then.
#[test]
fn a_switch_is_stopped_at_each_call(rt: HostRuntime) -> Result<(), Fail> {
    let alloc = rt.alloc();
    let (v1, v2) = (NvForm::V1, NvForm::V2);
    let rows = [
        (v1, v1, 0u8, 0, 1),
        (v1, v1, 0, 4096, 1),
        (v1, v1, 1, 8, 1),
        (v1, v1, 2, 15, 1),
        (v1, v1, 2, 16, 3),
        (v1, v2, 0, 4096, 1),
        (v1, v2, 1, 48, 1),
        (v1, v2, 2, 15, 1),
        (v1, v2, 2, 16, 3),
        (v2, v1, 1, 16, 1),
        (v2, v1, 2, 16, 3),
        (v2, v2, 1, 64, 1),
        (v2, v2, 2, 16, 3),
    ];
    for (from, to, whole, keep, tries) in rows {
        let full = match from {
            NvForm::V1 => 255,
            NvForm::V2 => 63,
        };
        let content = flash_of(alloc, from, (&page_head(from, 0), full), (&NO_HEAD, 0))?;
        assert_eq!(rt; content.len(), 12288);
        let mut fuse = Fuse::new(alloc, MemFlash::new(alloc, &content, &[])?);
        fuse.arm(whole as u32 + 1, keep)?;
        assert_eq!(rt; fuse.size(), 12288);
        let mut state = load(&mut fuse, AREA)?;
        assert_eq!(rt; state.nv.get(NvField::TryCount), 1);
        assert_eq!(rt;
            save(&mut fuse, AREA, &mut state, &record_of(to, 3)),
            Err(Failed)
        );
        fuse.revive();
        assert_eq!(rt; fuse.size(), 12288);
        let found = load(&mut fuse, AREA)?;
        assert!(rt; found.stands);
        assert_eq!(rt; found.nv.get(NvField::TryCount), tries);
        assert_eq!(rt; found.form, if tries == 3 { to } else { from });
    }
    Ok(())
}

#[test]
fn saves_follow_one_another(rt: HostRuntime) -> Result<(), Fail> {
    let alloc = rt.alloc();
    let content = flash_of(alloc, NvForm::V1, (&NO_HEAD, 0), (&NO_HEAD, 0))?;
    assert_eq!(rt; content.len(), 12288);
    let mut flash = MemFlash::new(alloc, &content, &[])?;
    assert_eq!(rt; flash.size(), 12288);
    let mut state = load(&mut flash, AREA)?;
    assert!(rt; !state.stands && state.nv == Nv::blank());
    for count in 0..800u16 {
        let nv = record_of(NvForm::V1, (count % 16) as u8);
        save(&mut flash, AREA, &mut state, &nv)?;
        assert!(rt; load(&mut flash, AREA)?.holds(&nv));
    }
    // Three pages are full, and the fourth has the other 35.
    assert_eq!(rt;
        (state.page, state.generation, state.next),
        (Some(1), 0, 35)
    );
    Ok(())
}
