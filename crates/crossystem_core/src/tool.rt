// The tool.
ghost use Rattle.std.specs.Prelude.{◌≡◌, map};
ghost use Rattle.std.specs.String.{string_bytes};
ghost use Rattle.crossystem_core.specs.Reading.{HasPages};
ghost use Rattle.crossystem_core.specs.Crossing as spec;
ghost use Rattle.crossystem_core.specs.Crossing.{Stores, Crosses};

use crate::fault::CrossFault;
use crate::putting::put_lines;
use crate::reading::view;
use crate::running::{Ends, work_words};
use crate::showing::CrossView;
use crate::words::{Refusal, first_refusal};
use board_core::{Device, Failed, Flash, Sink, Tpm};
use nvstore_core::save;
use record_core::Nv;

/// Works the words on a machine whose map stands at `map_at`, in bytes. A word is the name of a key, which shows its value; a name,
/// `=` and a text, which sets it; or a name, `?` and a text, which checks it. The first sign splits a word. Without words all keys
/// are shown.
///
/// All words are looked at before anything is read, and one that is refused changes and puts nothing. Then the flash is read, and then
/// the TPM, which is not started: both locks stay. Then the words are worked in order, each after the sets before it. The first check
/// that differs ends that, and the sets and the lines before it count. The record is stored once, before anything is put, and not at
/// all where no set was worked or where it stands already. No memory is taken.
///
/// `Refused`, `BadFlash` and `Differs`: exactly where the words and what the machine keeps say so, in this order, unless a device
/// failed. `Device`: the flash or the TPM failed, and counted it. Nothing was put, and the record that stands is the one of before or
/// the one to be stored, where what is left is fair. `Write`: the sink failed, and counted it. The record was stored, and a beginning of
/// the lines was put.
pub fn crossystem<F: Flash, T: Tpm, O: Sink>(
    flash: &mut F,
    tpm: &mut T,
    map_at: u32,
    words: &[String],
    out: &mut O,
) -> Result<(), CrossFault>
    ensures { Crosses map_at (map string_bytes words.now) (F.state flash.old) (F.state flash.new) (T.state tpm.old) (T.state tpm.new) (O.state out.old) (O.state out.new) result }
{
    if let Some(Refusal { word, code }) = first_refusal(words) {
        return Err(CrossFault::Refused { word, code });
    }
    let seen = match view(flash, tpm, map_at) {
        Ok(Ok(seen)) => seen,
        Ok(Err(fault)) => return Err(CrossFault::BadFlash(fault)),
        Err(device) => return Err(CrossFault::Device(device)),
    };
    let ends = work_words(&seen, words);
    let Ok(()) = store(flash, &seen, &ends) else {
        return Err(CrossFault::Device(Device::Flash));
    };
    let Ok(()) = put_lines(out, &seen, words) else {
        return Err(CrossFault::Write);
    };
    match ends.differs {
        Some(word) => Err(CrossFault::Differs { word }),
        None => Ok(()),
    }
}

// The record that the words leave, where one of them set a key and it does not stand already.
fn change_of(view: &CrossView, ends: &Ends) -> Option<Nv>
    ensures { result ≡ spec.change_of view.now ends.now }
{
    if !ends.set {
        return None;
    }
    view.state.change_to(&ends.view.state.nv)
}

// Stores that record.
fn store<F: Flash>(flash: &mut F, view: &CrossView, ends: &Ends) -> Result<(), Failed>
    requires { HasPages (F.state flash.old).medium view.now }
    ensures { Stores view.now (spec.change_of view.now ends.now) (F.state flash.old) (F.state flash.new) result }
{
    let Some(nv) = change_of(view, ends) else {
        return Ok(());
    };
    let mut state = view.state;
    save(flash, view.nvram, &mut state, &nv)
}
