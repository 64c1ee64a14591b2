// The text of a table, put line by line.
ghost use Rattle.std.specs.Prelude.{◌≡◌, ◌+◌, ◌<◌, ◌≤◌, ◌^◌, true, false, IfSome, IfNone};
ghost use Rattle.gpt_core.specs.Entries.{is_used, entry_in};
ghost use Rattle.gpt_core.specs.Format.{IsValidTable};
ghost use Rattle.cgpt_core.specs.Text.{table_text, lines_below, entry_line};
ghost use Rattle.board_core.specs.Streams.{PutsText};

use crate::lines::{text_of_head, text_of_part};
use crate::opening::Opened;
use board_core::{Drive, Failed, Sink};
use gpt_core::{Entry, GptRoom};

// Puts the table of a drive with so many sectors.
pub(crate) fn put_table<O: Sink>(
    out: &mut O,
    drive: Drive,
    sectors: u64,
    opened: Opened,
    room: &GptRoom,
) -> Result<(), Failed>
    requires known { 1 ≤ room.now.sectors }
    requires valid { IsValidTable room.now.sectors room.now.table }
    ensures { PutsText (table_text drive sectors opened.side opened.agree room.now.table) (O.state out.old) (O.state out.new) result }
{
    let head = text_of_head(drive, sectors, opened.side, opened.agree, room);
    out.put(head.as_slice())?;
    put_parts(out, room)
}

// Puts the lines of all used entries.
fn put_parts<O: Sink>(out: &mut O, room: &GptRoom) -> Result<(), Failed>
    requires known { 1 ≤ room.now.sectors }
    requires valid { IsValidTable room.now.sectors room.now.table }
    ensures { PutsText (lines_below 128 (entry_line room.now.table.entries)) (O.state out.old) (O.state out.new) result }
{
    for k in 0..128 {
        put_part(out, room, k)?;
    }
    Ok(())
}

// Puts the line of entry `k`, from 0, where it is used.
fn put_part<O: Sink>(out: &mut O, room: &GptRoom, k: u32) -> Result<(), Failed>
    requires known { 1 ≤ room.now.sectors }
    requires valid { IsValidTable room.now.sectors room.now.table }
    requires place { k < 128 }
    ensures { PutsText (entry_line room.now.table.entries k) (O.state out.old) (O.state out.new) result }
{
    let Some(entry) = used_entry(room, k) else {
        return Ok(());
    };
    let line = text_of_part(k + 1, &entry);
    out.put(line.as_slice())
}

// Entry `k`, from 0, where it is used.
pub(crate) fn used_entry(room: &GptRoom, k: u32) -> Option<Entry>
    requires known { 1 ≤ room.now.sectors }
    requires valid { IsValidTable room.now.sectors room.now.table }
    requires place { k < 128 }
    ensures used { IfSome result (λ entry. is_used room.now.table.entries k ≡ true) }
    ensures entry { IfSome result (λ entry. entry ≡ entry_in room.now.table.entries k) }
    ensures ordered { IfSome result (λ entry. entry.first ≤ entry.last) }
    ensures small { IfSome result (λ entry. entry.last < 2 ^ 32) }
    ensures unused { IfNone result (is_used room.now.table.entries k ≡ false) }
{
    let entry = room.entry(k + 1);
    if entry.kind == [0; 16] {
        return None;
    }
    Some(entry)
}
