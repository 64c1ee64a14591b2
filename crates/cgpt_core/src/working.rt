// The commands.
ghost use Rattle.std.specs.Prelude.{◌≡◌, ◌≤◌, ℕ, List, true};
ghost use Rattle.uuid.specs.Parts.{swap_fields};
ghost use Rattle.gpt_core.specs.Format.{IsValidTable};
ghost use Rattle.cgpt_core.specs.Adding.{Edits};
ghost use Rattle.cgpt_core.specs.Plans.{edit_by, is_editor};
ghost use Rattle.cgpt_core.specs.Tables.{PutsWord, Works};

use crate::adding::add;
use crate::call::{CgptCall, CgptCommand};
use crate::fault::CgptFault;
use crate::finding::{is_none_found, put_found};
use crate::opening::open_table;
use crate::putting::put_table;
use crate::ranking::prioritize;
use crate::saving::save;
use board_core::{Disk, Failed, Sink};
use gpt_core::{GptRoom, commit};
use uuid::Uuid;

/// Works one command on the disk of the drive that the call names, with `fresh` as the GUID that it may give to a disk or to an
/// entry. The room holds the table that was read, or an empty one where none was. No memory is taken.
///
/// Each command comes to its plan, a function of the table that stands on the disk, of the call and of the GUID: the answer, the
/// lines that are put, and the table that is written into both copies, or none. A table is written by 6 changing calls, and is
/// not written where it stands already in both copies. No byte outside both copies changes.
///
/// - `Show` puts the table: the copy from which it is taken, and whether both agree, the GUID of the disk, the usable sectors,
///   and a line for each used entry. It writes nothing.
/// - `Find` puts the index of each used entry that has all that is given: the type, the unique GUID, the label. It writes nothing.
/// - `Repair` writes the table where the copies do not agree, and puts `repaired`, or else `agree`.
/// - `Create` makes an empty table with the GUID, in which all that both copies leave is usable.
/// - `Add` works on the entry of `index`, or else on the unused one of lowest index. Of a used entry what is given changes; an
///   unused one needs `begin`, `size` and `kind`, and has the GUID where `unique` is not given. Of the attributes `raw` is set
///   first, and then `successful`, `tries` and `priority`. The type of all zeros makes the bytes of the entry 0.
/// - `Prioritize` gives the kernels of a priority over 0 new ones: the entry of `index`, with `friends` all of its priority, is
///   a group of its own at the top, and the groups of equal priority below it keep their order. The top has `priority`, or else
///   as many as there are groups, 15 at most, and each group one less than the one above it, but none under 1.
///
/// Source: the manual page cgpt(1) of ChromiumOS.
///
/// After each of these nothing is changed or put, and each yields to a disk that failed. `DiskTooSmall`: exactly where `Create`
/// is given a disk of under 69 or over 4,294,967,296 sectors. `NoTable`: exactly where neither copy is good, for all other
/// commands. `BadValue`: of `Add` and `Prioritize`, where a value is out of its range, which none is that `words` read; where an
/// unused entry lacks what it needs; where an entry is to be made unused and no index is given; where the entry of `Prioritize`
/// is no kernel. `NoFreeEntry`: no index is given and all entries are used. `NoEntry`: the entry is unused that is to be made
/// unused or to be moved, or `Find` finds none. `Outside`, `Overlap`, `DuplicateUnique`: the first of these that holds of an
/// entry that is put: it has no sector or one outside the usable ones, it shares one with another used entry, or another used
/// entry has its unique GUID.
///
/// `Device`: the disk failed, and counted it; after a commit that failed its table is the one that it was or the planned one,
/// where what is left is fair, and a table that differs stands only where the disk counted a failed change. `Write`: the sink
/// failed, and counted it; a beginning of the lines was put, and the disk is as planned.
pub fn cgpt<D: Disk, O: Sink>(
    disk: &mut D,
    room: &mut GptRoom,
    call: &CgptCall,
    fresh: Uuid,
    out: &mut O,
) -> Result<(), CgptFault>
    requires settled { (D.state disk.old).medium.pending ≡ 0 }
    ensures settled { (D.state disk.new).medium.pending ≡ 0 }
    ensures works { Works call.now (swap_fields fresh) (D.state disk.old) (D.state disk.new) (O.state out.old) (O.state out.new) result }
{
    match call.command {
        CgptCommand::Show => show(disk, room, call, out),
        CgptCommand::Find => find(disk, room, call, out),
        CgptCommand::Repair => repair(disk, room, call, out),
        CgptCommand::Create => create(disk, room, call, fresh.to_bytes_le(), out),
        _ => edit(disk, room, call, fresh.to_bytes_le(), out),
    }
}

fn show<D: Disk, O: Sink>(
    disk: &mut D,
    room: &mut GptRoom,
    call: &CgptCall,
    out: &mut O,
) -> Result<(), CgptFault>
    requires settled { (D.state disk.old).medium.pending ≡ 0 }
    requires command { call.now.command ≡ CgptCommand.Show }
    ensures { (guid : List ℕ) → Works call.now guid (D.state disk.old) (D.state disk.new) (O.state out.old) (O.state out.new) result }
{
    let opened = match open_table(disk, room) {
        Ok(Some(opened)) => opened,
        Ok(None) => return Err(CgptFault::NoTable),
        Err(Failed) => return Err(CgptFault::Device),
    };
    let sectors = disk.sectors();
    let Ok(()) = put_table(out, call.drive, sectors, opened, room) else {
        return Err(CgptFault::Write);
    };
    Ok(())
}

fn find<D: Disk, O: Sink>(
    disk: &mut D,
    room: &mut GptRoom,
    call: &CgptCall,
    out: &mut O,
) -> Result<(), CgptFault>
    requires settled { (D.state disk.old).medium.pending ≡ 0 }
    requires command { call.now.command ≡ CgptCommand.Find }
    ensures { (guid : List ℕ) → Works call.now guid (D.state disk.old) (D.state disk.new) (O.state out.old) (O.state out.new) result }
{
    let _opened = match open_table(disk, room) {
        Ok(Some(opened)) => opened,
        Ok(None) => return Err(CgptFault::NoTable),
        Err(Failed) => return Err(CgptFault::Device),
    };
    if is_none_found(call, room) {
        return Err(CgptFault::NoEntry);
    }
    let Ok(()) = put_found(out, call, room) else {
        return Err(CgptFault::Write);
    };
    Ok(())
}

fn repair<D: Disk, O: Sink>(
    disk: &mut D,
    room: &mut GptRoom,
    call: &CgptCall,
    out: &mut O,
) -> Result<(), CgptFault>
    requires settled { (D.state disk.old).medium.pending ≡ 0 }
    requires command { call.now.command ≡ CgptCommand.Repair }
    ensures { (guid : List ℕ) → Works call.now guid (D.state disk.old) (D.state disk.new) (O.state out.old) (O.state out.new) result }
{
    let opened = match open_table(disk, room) {
        Ok(Some(opened)) => opened,
        Ok(None) => return Err(CgptFault::NoTable),
        Err(Failed) => return Err(CgptFault::Device),
    };
    if opened.agree {
        return put_word(out, b"agree\n");
    }
    let Ok(()) = commit(disk, room) else {
        return Err(CgptFault::Device);
    };
    put_word(out, b"repaired\n")
}

fn create<D: Disk, O: Sink>(
    disk: &mut D,
    room: &mut GptRoom,
    call: &CgptCall,
    guid: [u8; 16],
    out: &mut O,
) -> Result<(), CgptFault>
    requires settled { (D.state disk.old).medium.pending ≡ 0 }
    requires command { call.now.command ≡ CgptCommand.Create }
    ensures { Works call.now guid (D.state disk.old) (D.state disk.new) (O.state out.old) (O.state out.new) result }
{
    let Ok(_opened) = open_table(disk, room) else {
        return Err(CgptFault::Device);
    };
    if !room.start(disk, guid) {
        return Err(CgptFault::DiskTooSmall);
    }
    let Ok(()) = save(disk, room) else {
        return Err(CgptFault::Device);
    };
    Ok(())
}

// Changes the table that stands.
fn edit<D: Disk, O: Sink>(
    disk: &mut D,
    room: &mut GptRoom,
    call: &CgptCall,
    guid: [u8; 16],
    out: &mut O,
) -> Result<(), CgptFault>
    requires settled { (D.state disk.old).medium.pending ≡ 0 }
    requires command { is_editor call.now.command ≡ true }
    ensures { Works call.now guid (D.state disk.old) (D.state disk.new) (O.state out.old) (O.state out.new) result }
{
    let _opened = match open_table(disk, room) {
        Ok(Some(opened)) => opened,
        Ok(None) => return Err(CgptFault::NoTable),
        Err(Failed) => return Err(CgptFault::Device),
    };
    if let Err(why) = edit_table(room, call, guid) {
        return Err(why);
    }
    let Ok(()) = save(disk, room) else {
        return Err(CgptFault::Device);
    };
    Ok(())
}

fn edit_table(room: &mut GptRoom, call: &CgptCall, guid: [u8; 16]) -> Result<(), CgptFault>
    requires known { 1 ≤ room.old.sectors }
    requires valid { IsValidTable room.old.sectors room.old.table }
    requires command { is_editor call.now.command ≡ true }
    ensures { Edits (edit_by call.now.command call.now guid room.old.table) room.old room.new result }
{
    if call.command == CgptCommand::Add {
        return add(room, call, guid);
    }
    prioritize(room, call)
}

// Puts a line.
fn put_word<O: Sink>(out: &mut O, word: &[u8]) -> Result<(), CgptFault>
    ensures { PutsWord word.now (O.state out.old) (O.state out.new) result }
{
    let Ok(()) = out.put(word) else {
        return Err(CgptFault::Write);
    };
    Ok(())
}
