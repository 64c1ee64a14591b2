// The lines of a table's text. A function that appends asks for room for the most that it appends, rounded up.
ghost use Rattle.std.specs.Prelude.{◌≡◌, ◌+◌, ◌≤◌, ◌<◌, ◌==◌, ◌^◌, ◌++◌, length, decimal, position, map};
ghost use Rattle.std.specs.List.{before_first};
ghost use Rattle.cgpt_core.specs.Text as spec;

use board_core::Drive;
use gpt_core::{Entry, GptRoom, Side, priority_of, successful_of, tries_of};
use text_core::Text;
use uuid::Uuid;

// The lines before those of the entries.
#[tactic(auto, unfolding(crate::specs::Text::head_lines))]
pub(crate) fn text_of_head(
    drive: Drive,
    sectors: u64,
    side: Side,
    agree: bool,
    room: &GptRoom,
) -> Text
    requires { 1 ≤ room.now.sectors }
    ensures { result ≡ spec.head_lines drive sectors side agree room.now.table }
{
    let (first, last) = room.usable();
    let mut text = Text::new();
    push_drive_line(&mut text, drive, sectors, side, agree);
    text.push(b"guid ");
    push_guid(&mut text, room.guid());
    text.push(b"\n");
    push_number(&mut text, b"usable ", first);
    push_number(&mut text, b" ", last);
    text.push(b"\n");
    text
}

fn push_drive_line(text: &mut Text, drive: Drive, sectors: u64, side: Side, agree: bool)
    requires { length text.old + 100 ≤ 2048 }
    ensures text { text.new ≡ text.old ++ spec.drive_line drive sectors side agree }
    ensures size { length text.new ≤ length text.old + 100 }
{
    text.push(b"drive ");
    text.push(drive_name(drive));
    push_number(text, b" sectors ", sectors);
    text.push(b" table ");
    text.push(copy_name(side));
    text.push(b" ");
    text.push(agree_word(agree));
    text.push(b"\n");
}

// The line of entry `index`.
#[tactic(auto, unfolding(crate::specs::Text::part_line))]
pub(crate) fn text_of_part(index: u32, entry: &Entry) -> Text
    requires ordered { entry.now.first ≤ entry.now.last }
    requires small { entry.now.last < 2 ^ 32 }
    ensures { result ≡ spec.part_line index entry.now }
{
    let mut text = Text::new();
    push_place(&mut text, index, entry);
    let attributes = entry.attributes;
    push_kernel(
        &mut text,
        priority_of(attributes),
        tries_of(attributes),
        successful_of(attributes),
    );
    text.push(b" label");
    push_name(&mut text, &entry.name);
    text.push(b"\n");
    text
}

// Where an entry lies, and of which type it is.
fn push_place(text: &mut Text, index: u32, entry: &Entry)
    requires ordered { entry.now.first ≤ entry.now.last }
    requires small { entry.now.last < 2 ^ 32 }
    requires room { length text.old + 200 ≤ 2048 }
    ensures text { text.new ≡ text.old ++ spec.place_text index entry.now }
    ensures size { length text.new ≤ length text.old + 200 }
{
    push_number(text, b"part ", u64::from(index));
    push_number(text, b" begin ", entry.first);
    push_number(text, b" size ", entry.last - entry.first + 1);
    text.push(b" type ");
    push_type(text, entry.kind);
    text.push(b" unique ");
    push_guid(text, entry.unique);
}

// How an entry is tried as a kernel.
fn push_kernel(text: &mut Text, priority: u64, tries: u64, successful: u64)
    requires { length text.old + 100 ≤ 2048 }
    ensures text { text.new ≡ text.old ++ spec.kernel_text priority tries successful }
    ensures size { length text.new ≤ length text.old + 100 }
{
    push_number(text, b" priority ", priority);
    push_number(text, b" tries ", tries);
    push_number(text, b" successful ", successful);
}

// ---- names of entries

// The name with a space before it, or nothing where it is empty.
fn push_name(text: &mut Text, name: &[u16; 36])
    requires { length text.old + 40 ≤ 2048 }
    ensures text { text.new ≡ text.old ++ spec.spaced (spec.name_text name.now) }
    ensures size { length text.new ≤ length text.old + 40 }
{
    let units = before_zero(name);
    if units.is_empty() {
        return;
    }
    text.push(b" ");
    push_units(text, units);
}

// The place of the first 0.
fn first_zero(name: &[u16]) -> Option<usize>
    ensures { result ≡ position (λ unit. unit == 0) name.now }
{
    name.iter().position(|unit| *unit == 0)
}

// The units before the first 0, or all where there is none.
fn before_zero(name: &[u16]) -> &[u16]
    ensures name { result.now ≡ before_first (λ unit. unit == 0) name.now }
    ensures size { length result.now ≤ length name.now }
{
    match first_zero(name) {
        Some(end) => &name[..end],
        None => name,
    }
}

fn push_units(text: &mut Text, units: &[u16])
    requires { length text.old + length units.now ≤ 2048 }
    ensures text { text.new ≡ text.old ++ map spec.shown_unit units.now }
    ensures size { length text.new ≡ length text.old + length units.now }
{
    for unit in units {
        text.push(&[shown_unit(*unit)]);
    }
}

// A unit, or `?` in the place of one that is no printable character of ASCII.
fn shown_unit(unit: u16) -> u8
    ensures { result ≡ spec.shown_unit unit }
{
    if (0x20..=0x7e).contains(&unit) {
        unit as u8
    } else {
        b'?'
    }
}

// ---- GUIDs

// The type of an entry by its name, or by its GUID where it has none.
fn push_type(text: &mut Text, kind: [u8; 16])
    requires { length text.old + 36 ≤ 2048 }
    ensures text { text.new ≡ text.old ++ spec.type_text kind }
    ensures size { length text.new ≤ length text.old + 36 }
{
    let mut buffer = [0; 36];
    let guid = guid_text(kind, &mut buffer);
    text.push(type_name(guid).as_bytes());
}

fn push_guid(text: &mut Text, guid: [u8; 16])
    requires { length text.old + 36 ≤ 2048 }
    ensures text { text.new ≡ text.old ++ spec.guid_text guid }
    ensures size { length text.new ≡ length text.old + 36 }
{
    let mut buffer = [0; 36];
    text.push(guid_text(guid, &mut buffer).as_bytes());
}

// The text of a GUID that is stored as on a disk.
fn guid_text(guid: [u8; 16], buffer: &mut [u8; 36]) -> &str
    ensures text { result.now ≡ spec.guid_text guid }
    ensures size { length result.now ≡ 36 }
{
    Uuid::from_bytes_le(guid).hyphenated().encode_lower(buffer)
}

// The name of a type, or its text where it has none.
fn type_name(text: &str) -> &str
    requires { length text.now ≡ 36 }
    ensures name { result.now ≡ spec.type_name text.now }
    ensures size { length result.now ≤ 36 }
{
    match text {
        "fe3a2a5d-4f32-41a7-b725-accc3285a309" => "kernel",
        "3cb8e202-3b7e-47dd-8a3c-7ff2a13cfcec" => "rootfs",
        "c12a7328-f81f-11d2-ba4b-00a0c93ec93b" => "efi",
        "ebd0a0a2-b9e5-4433-87c0-68b6b72699c7" => "data",
        other => other,
    }
}

// ---- words

// Words, and a number behind them.
fn push_number(text: &mut Text, words: &[u8], number: u64)
    requires { length text.old + length words.now + 20 ≤ 2048 }
    ensures text { text.new ≡ text.old ++ words.now ++ decimal number }
    ensures size { length text.new ≤ length text.old + length words.now + 20 }
{
    text.push(words);
    text.push_decimal(number);
}

fn drive_name(drive: Drive) -> &'static [u8]
    ensures name { result.now ≡ spec.drive_name drive }
    ensures size { length result.now ≤ 5 }
{
    match drive {
        Drive::Disk => b"disk",
        Drive::Stick => b"stick",
    }
}

fn copy_name(side: Side) -> &'static [u8]
    ensures name { result.now ≡ spec.copy_name side }
    ensures size { length result.now ≤ 7 }
{
    match side {
        Side::Primary => b"primary",
        Side::Backup => b"backup",
    }
}

fn agree_word(agree: bool) -> &'static [u8]
    ensures word { result.now ≡ spec.agree_word agree }
    ensures size { length result.now ≤ 6 }
{
    if agree { b"agree" } else { b"differ" }
}
