// The entries that have what is looked for.
ghost use Rattle.std.specs.Prelude.{◌≡◌, ◌≤◌, ◌<◌, ◌++◌, decimal};
ghost use Rattle.gpt_core.specs.Entries.{all_below};
ghost use Rattle.gpt_core.specs.Format.{IsValidTable};
ghost use Rattle.cgpt_core.specs.Plans as spec;
ghost use Rattle.cgpt_core.specs.Plans.{agrees_with};
ghost use Rattle.board_core.specs.Streams.{PutsText};
ghost use Rattle.cgpt_core.specs.Text.{lines_below};
ghost use Rattle.text_core.specs.Shown.{line_end};

use crate::call::{CgptCall, Label};
use crate::putting::used_entry;
use board_core::{Failed, Sink};
use gpt_core::{Entry, GptRoom};
use text_core::Text;

// Whether no used entry has all that is given.
pub(crate) fn is_none_found(call: &CgptCall, room: &GptRoom) -> bool
    requires known { 1 ≤ room.now.sectors }
    requires valid { IsValidTable room.now.sectors room.now.table }
    ensures { result ≡ spec.is_none_found call.now room.now.table.entries 128 }
{
    for k in 0..128 {
        if is_found(call, room, k) {
            return false;
        }
    }
    true
}

// Puts the index of each used entry that has all that is given.
pub(crate) fn put_found<O: Sink>(out: &mut O, call: &CgptCall, room: &GptRoom) -> Result<(), Failed>
    requires known { 1 ≤ room.now.sectors }
    requires valid { IsValidTable room.now.sectors room.now.table }
    ensures { PutsText (lines_below 128 (spec.found_line call.now room.now.table.entries)) (O.state out.old) (O.state out.new) result }
{
    for k in 0..128 {
        put_if_found(out, call, room, k)?;
    }
    Ok(())
}

// Puts the index of entry `k`, from 0, where it is used and has all that is given.
fn put_if_found<O: Sink>(out: &mut O, call: &CgptCall, room: &GptRoom, k: u32) -> Result<(), Failed>
    requires known { 1 ≤ room.now.sectors }
    requires valid { IsValidTable room.now.sectors room.now.table }
    requires place { k < 128 }
    ensures { PutsText (spec.found_line call.now room.now.table.entries k) (O.state out.old) (O.state out.new) result }
{
    if !is_found(call, room, k) {
        return Ok(());
    }
    let line = line_of_index(k + 1);
    out.put(line.as_slice())
}

fn line_of_index(index: u32) -> Text
    ensures { result ≡ decimal index ++ line_end }
{
    let mut line = Text::new();
    line.push_decimal(u64::from(index));
    line.push(b"\n");
    line
}

// Whether entry `k`, from 0, is used and has all that is given.
fn is_found(call: &CgptCall, room: &GptRoom, k: u32) -> bool
    requires known { 1 ≤ room.now.sectors }
    requires valid { IsValidTable room.now.sectors room.now.table }
    requires place { k < 128 }
    ensures { result ≡ spec.is_found call.now room.now.table.entries k }
{
    match used_entry(room, k) {
        Some(entry) => has_all(call, &entry),
        None => false,
    }
}

fn has_all(call: &CgptCall, entry: &Entry) -> bool
    ensures { result ≡ spec.has_all call.now entry.now }
{
    has_guid(call.kind, entry.kind)
        && has_guid(call.unique, entry.unique)
        && has_label(call.label, entry.name)
}

// Whether a GUID is the one that is given, if one is.
fn has_guid(wanted: Option<[u8; 16]>, guid: [u8; 16]) -> bool
    ensures { result ≡ agrees_with wanted guid }
{
    match wanted {
        Some(given) => given == guid,
        None => true,
    }
}

// Whether a name is the one that is given, if one is.
fn has_label(wanted: Option<Label>, name: [u16; 36]) -> bool
    ensures { result ≡ agrees_with wanted name }
{
    match wanted {
        Some(given) => given.units() == name,
        None => true,
    }
}
