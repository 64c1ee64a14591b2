// An entry that is added, changed or taken out, in the table of a room.
ghost use Rattle.std.specs.Prelude.{◌≡◌, ◌+◌, ◌<◌, ◌≤◌, ◌^◌, true, false, nat_eq, nat_le, replicate, IfSome, IsTrue};
ghost use Rattle.std.specs.Cmp.Lexicographic.{pointwise};
ghost use Rattle.std.specs.Option.{option_map_or};
ghost use Rattle.gpt_core.specs.Format.{IsValidTable};
ghost use Rattle.gpt_core.specs.Placing as placing;
ghost use Rattle.cgpt_core.specs.Adding as spec;
ghost use Rattle.cgpt_core.specs.Adding.{Edits};

use crate::call::{CgptCall, Label};
use crate::fault::CgptFault;
use crate::putting::used_entry;
use gpt_core::{Entry, GptRoom, with_highest, with_priority, with_successful, with_tries};

// Adds an entry to the table of the room, or changes one, or takes one out.
pub(crate) fn add(room: &mut GptRoom, call: &CgptCall, guid: [u8; 16]) -> Result<(), CgptFault>
    requires known { 1 ≤ room.old.sectors }
    requires valid { IsValidTable room.old.sectors room.old.table }
    ensures { Edits (spec.added call.now guid room.old.table) room.old room.new result }
{
    if !is_in_range(call) {
        return Err(CgptFault::BadValue);
    }
    let Some(k) = entry_asked(call, room) else {
        return Err(CgptFault::NoFreeEntry);
    };
    if is_erasing(call.kind) {
        return erase(room, call, k);
    }
    enter(room, call, k, guid)
}

// Whether the values that are given lie in their ranges.
pub(crate) fn is_in_range(call: &CgptCall) -> bool
    ensures { result ≡ spec.is_in_range call.now }
{
    let index = match call.index {
        Some(index) => 1 <= index && index <= 128,
        None => true,
    };
    index
        && is_at_most(call.successful, 1)
        && is_at_most(call.tries, 15)
        && is_at_most(call.priority, 15)
}

fn is_at_most(given: Option<u8>, most: u8) -> bool
    ensures { result ≡ spec.passes (λ value. nat_le value most) given }
{
    match given {
        Some(value) => value <= most,
        None => true,
    }
}

// Whether the type is that of an unused entry.
fn is_erasing(kind: Option<[u8; 16]>) -> bool
    ensures { result ≡ option_map_or (λ kind. pointwise nat_eq kind (replicate 16 0)) kind false }
{
    match kind {
        Some(kind) => kind == [0; 16],
        None => false,
    }
}

// The entry that is given, from 0, or else the unused one of lowest index.
fn entry_asked(call: &CgptCall, room: &GptRoom) -> Option<u32>
    requires known { 1 ≤ room.now.sectors }
    requires valid { IsValidTable room.now.sectors room.now.table }
    requires range { spec.is_in_range call.now ≡ true }
    ensures asked { result ≡ spec.entry_asked call.now.index room.now.table.entries }
    ensures below { IfSome result (λ k. k < 128) }
{
    match call.index {
        Some(index) => Some(index - 1),
        None => first_unused(room),
    }
}

// The unused entry of lowest index, from 0.
fn first_unused(room: &GptRoom) -> Option<u32>
    requires known { 1 ≤ room.now.sectors }
    requires valid { IsValidTable room.now.sectors room.now.table }
    ensures first { result ≡ spec.first_unused room.now.table.entries }
    ensures below { IfSome result (λ k. k < 128) }
{
    for k in 0..128 {
        if used_entry(room, k).is_none() {
            return Some(k);
        }
    }
    None
}

// Takes entry `k` out, where its index is given.
fn erase(room: &mut GptRoom, call: &CgptCall, k: u32) -> Result<(), CgptFault>
    requires known { 1 ≤ room.old.sectors }
    requires valid { IsValidTable room.old.sectors room.old.table }
    requires place { k < 128 }
    ensures { Edits (spec.erased call.now room.old.table k) room.old room.new result }
{
    if call.index.is_none() {
        return Err(CgptFault::BadValue);
    }
    if used_entry(room, k).is_none() {
        return Err(CgptFault::NoEntry);
    }
    room.erase_entry(k + 1);
    Ok(())
}

// Makes entry `k` what is given of it, and else what it was.
fn enter(room: &mut GptRoom, call: &CgptCall, k: u32, guid: [u8; 16]) -> Result<(), CgptFault>
    requires known { 1 ≤ room.old.sectors }
    requires valid { IsValidTable room.old.sectors room.old.table }
    requires place { k < 128 }
    requires range { spec.is_in_range call.now ≡ true }
    ensures { Edits (spec.entered call.now room.old.table k guid) room.old room.new result }
{
    if used_entry(room, k).is_none() && !is_complete(call) {
        return Err(CgptFault::BadValue);
    }
    let before = entry_before(room, k, guid);
    place_after(room, call, k, &before)
}

// Whether all is given that an unused entry needs.
fn is_complete(call: &CgptCall) -> bool
    ensures { result ≡ spec.is_complete call.now }
{
    call.begin.is_some() && call.size.is_some() && call.kind.is_some()
}

// Entry `k` as it is, or an unused one with this GUID.
fn entry_before(room: &GptRoom, k: u32, guid: [u8; 16]) -> Entry
    requires known { 1 ≤ room.now.sectors }
    requires valid { IsValidTable room.now.sectors room.now.table }
    requires place { k < 128 }
    ensures entry { result ≡ spec.entry_before room.now.table.entries k guid }
    ensures ordered { result.first ≤ result.last }
    ensures small { result.last < 2 ^ 32 }
{
    match used_entry(room, k) {
        Some(entry) => entry,
        None => Entry {
            unique: guid,
            ..Entry::unused()
        },
    }
}

// Puts what is given of an entry in place `k`, where it may stand there.
fn place_after(room: &mut GptRoom, call: &CgptCall, k: u32, before: &Entry) -> Result<(), CgptFault>
    requires known { 1 ≤ room.old.sectors }
    requires place { k < 128 }
    requires range { spec.is_in_range call.now ≡ true }
    requires ordered { before.now.first ≤ before.now.last }
    requires small { before.now.last < 2 ^ 32 }
    ensures { Edits (spec.placed_after call.now room.old.table k before.now) room.old room.new result }
{
    let begin = sectors_or(call.begin, before.first);
    let size = sectors_or(call.size, before.last - before.first + 1);
    let (first, last) = room.usable();
    if !is_inside(first, last, begin, size) {
        return Err(CgptFault::Outside);
    }
    let entry = entry_after(call, before, begin, begin + (size - 1));
    if !room.is_free(k + 1, entry.first, entry.last) {
        return Err(CgptFault::Overlap);
    }
    if !room.is_unique(k + 1, &entry.unique) {
        return Err(CgptFault::DuplicateUnique);
    }
    room.place_entry(k + 1, &entry);
    Ok(())
}

fn sectors_or(given: Option<u64>, sectors: u64) -> u64
    ensures { result ≡ spec.given_or given sectors }
{
    match given {
        Some(given) => given,
        None => sectors,
    }
}

// Whether so many sectors are some, and lie in the usable ones.
fn is_inside(first: u64, last: u64, begin: u64, size: u64) -> bool
    ensures { result ≡ placing.is_inside first last begin size }
{
    1 <= size && first <= begin && begin <= last && size - 1 <= last - begin
}

// The entry with all that is given, from the first sector to the last.
fn entry_after(call: &CgptCall, before: &Entry, first: u64, last: u64) -> Entry
    requires range { spec.is_in_range call.now ≡ true }
    ensures kind { result.kind ≡ spec.given_or call.now.kind before.now.kind }
    ensures unique { result.unique ≡ spec.given_or call.now.unique before.now.unique }
    ensures first { result.first ≡ first }
    ensures last { result.last ≡ last }
    ensures attributes { result.attributes ≡ spec.attributes_after call.now before.now.attributes }
    ensures name { result.name ≡ spec.given_or call.now.label before.now.name }
{
    Entry {
        kind: guid_or(call.kind, before.kind),
        unique: guid_or(call.unique, before.unique),
        first,
        last,
        attributes: attributes_after(call, before.attributes),
        name: name_or(call.label, before.name),
    }
}

fn guid_or(given: Option<[u8; 16]>, guid: [u8; 16]) -> [u8; 16]
    ensures { result ≡ spec.given_or given guid }
{
    match given {
        Some(given) => given,
        None => guid,
    }
}

fn name_or(given: Option<Label>, name: [u16; 36]) -> [u16; 36]
    ensures { result ≡ spec.given_or given name }
{
    match given {
        Some(given) => given.units(),
        None => name,
    }
}

// The attributes with what is given: the highest 16 bits first, and then single fields of them.
fn attributes_after(call: &CgptCall, attributes: u64) -> u64
    requires { spec.is_in_range call.now ≡ true }
    ensures { result ≡ spec.attributes_after call.now attributes }
{
    let raw = match call.raw {
        Some(bits) => with_highest(attributes, bits),
        None => attributes,
    };
    let successful = match call.successful {
        Some(successful) => with_successful(raw, successful),
        None => raw,
    };
    let tries = match call.tries {
        Some(tries) => with_tries(successful, tries),
        None => successful,
    };
    match call.priority {
        Some(priority) => with_priority(tries, priority),
        None => tries,
    }
}
