// The values of a command, out of what `clap` read.
ghost use Rattle.std.specs.Prelude.{◌≡◌, ◌≤◌, ◌-◌, ◌^◌, IfSome, codes, option_map};
ghost use Rattle.clap.specs.Walk.{first_of, rows_of};
ghost use Rattle.clap.specs.Words.{found_of};
ghost use Rattle.cgpt_core.specs.Values as value;
ghost use Rattle.cgpt_core.specs.Words as spec;
ghost use Rattle.cgpt_core.specs.Words.{given};

use crate::call::{CgptCall, CgptCommand, Label};
use crate::values::{guid_of, label_of, number_from, type_of, used_guid};
use board_core::Drive;
use clap::ArgMatches;

// The call of a command, where each of its values can be read.
#[tactic(auto, unfolding(crate::specs::Words::call_in))]
pub(crate) fn call_in(command: CgptCommand, matches: &ArgMatches) -> Option<CgptCall>
    ensures { result ≡ spec.call_in command (rows_of (found_of matches.now)) }
{
    let drive = drive_in(matches)?;
    let plain = CgptCall::plain(command, drive);
    let Some(placed) = with_place(&plain, matches) else {
        return None;
    };
    let Some(named) = with_names(&placed, matches) else {
        return None;
    };
    with_attributes(&named, matches)
}

#[tactic(auto, unfolding(crate::specs::Words::with_place))]
fn with_place(call: &CgptCall, matches: &ArgMatches) -> Option<CgptCall>
    ensures { result ≡ spec.with_place (rows_of (found_of matches.now)) call.now }
{
    let index = index_in(matches)?;
    let begin = sectors_in(matches, "begin")?;
    let size = sectors_in(matches, "size")?;
    Some(CgptCall {
        index,
        begin,
        size,
        ..*call
    })
}

#[tactic(auto, unfolding(crate::specs::Words::with_names))]
fn with_names(call: &CgptCall, matches: &ArgMatches) -> Option<CgptCall>
    ensures { result ≡ spec.with_names (rows_of (found_of matches.now)) call.now }
{
    let kind = kind_in(call.command, matches)?;
    let unique = unique_in(matches)?;
    let label = label_in(matches)?;
    Some(CgptCall {
        kind,
        unique,
        label,
        ..*call
    })
}

#[tactic(auto, unfolding(crate::specs::Words::with_attributes))]
fn with_attributes(call: &CgptCall, matches: &ArgMatches) -> Option<CgptCall>
    ensures { result ≡ spec.with_attributes (rows_of (found_of matches.now)) call.now }
{
    let successful = byte_in(matches, "successful", 0, 1)?;
    let tries = byte_in(matches, "tries", 0, 15)?;
    let priority = byte_in(matches, "priority", least_priority(call.command), 15)?;
    let raw = raw_in(matches)?;
    let friends = is_given(matches, "friends");
    Some(CgptCall {
        successful,
        tries,
        priority,
        raw,
        friends,
        ..*call
    })
}

fn least_priority(command: CgptCommand) -> u8
    ensures { result ≡ spec.least_priority command }
{
    match command {
        CgptCommand::Prioritize => 1,
        _ => 0,
    }
}

// ---- single values

// The text of a value, where it is given.
fn text_in<'a>(matches: &ArgMatches<'a>, id: &str) -> Option<&'a str>
    ensures { option_map (λ text. text.now) result ≡ first_of id.now (rows_of (found_of matches.now)) }
{
    matches.get_str(id)
}

fn drive_in(matches: &ArgMatches) -> Option<Drive>
    ensures { result ≡ spec.drive_in (rows_of (found_of matches.now)) }
{
    match text_in(matches, "drive")? {
        "disk" => Some(Drive::Disk),
        "stick" => Some(Drive::Stick),
        _ => None,
    }
}

// A number from the least to the most, or none where it is not given.
fn number_in(matches: &ArgMatches, id: &str, least: u64, most: u64) -> Option<Option<u64>>
    ensures number { result ≡ given (value.number_from least most) (first_of id.now (rows_of (found_of matches.now))) }
    ensures most { IfSome result (λ given. IfSome given (λ number. number ≤ most)) }
{
    match text_in(matches, id) {
        Some(word) => Some(Some(number_from(word, least, most)?)),
        None => Some(None),
    }
}

// A place or a number of sectors: any number that fits.
fn sectors_in(matches: &ArgMatches, id: &str) -> Option<Option<u64>>
    ensures { result ≡ given (value.number_from 0 (2 ^ 64 - 1)) (first_of id.now (rows_of (found_of matches.now))) }
{
    number_in(matches, id, 0, u64::MAX)
}

fn index_in(matches: &ArgMatches) -> Option<Option<u32>>
    ensures { result ≡ given (value.number_from 1 128) (first_of (codes "index") (rows_of (found_of matches.now))) }
{
    match number_in(matches, "index", 1, 128)? {
        Some(index) => Some(Some(index as u32)),
        None => Some(None),
    }
}

fn byte_in(matches: &ArgMatches, id: &str, least: u8, most: u8) -> Option<Option<u8>>
    ensures { result ≡ given (value.number_from least most) (first_of id.now (rows_of (found_of matches.now))) }
{
    match number_in(matches, id, u64::from(least), u64::from(most))? {
        Some(number) => Some(Some(number as u8)),
        None => Some(None),
    }
}

fn raw_in(matches: &ArgMatches) -> Option<Option<u16>>
    ensures { result ≡ given (value.number_from 0 65535) (first_of (codes "attributes") (rows_of (found_of matches.now))) }
{
    match number_in(matches, "attributes", 0, 65535)? {
        Some(raw) => Some(Some(raw as u16)),
        None => Some(None),
    }
}

fn kind_in(command: CgptCommand, matches: &ArgMatches) -> Option<Option<[u8; 16]>>
    ensures { result ≡ given (spec.kind_in command) (first_of (codes "type") (rows_of (found_of matches.now))) }
{
    match text_in(matches, "type") {
        Some(word) => Some(Some(kind_of(command, word)?)),
        None => Some(None),
    }
}

// The type that a text stands for; for an entry that is looked for, one that a used entry may have.
fn kind_of(command: CgptCommand, word: &str) -> Option<[u8; 16]>
    ensures { result ≡ spec.kind_in command word.now }
{
    let kind = type_of(word)?;
    match command {
        CgptCommand::Find => used_guid(kind),
        _ => Some(kind),
    }
}

fn unique_in(matches: &ArgMatches) -> Option<Option<[u8; 16]>>
    ensures { result ≡ given value.used_guid_in (first_of (codes "unique") (rows_of (found_of matches.now))) }
{
    match text_in(matches, "unique") {
        Some(word) => Some(Some(used_guid(guid_of(word)?)?)),
        None => Some(None),
    }
}

fn label_in(matches: &ArgMatches) -> Option<Option<Label>>
    ensures { result ≡ given value.label_in (first_of (codes "label") (rows_of (found_of matches.now))) }
{
    match text_in(matches, "label") {
        Some(word) => Some(Some(label_of(word)?)),
        None => Some(None),
    }
}

// Whether a flag is given.
fn is_given(matches: &ArgMatches, id: &str) -> bool
    ensures { result ≡ spec.is_given (first_of id.now (rows_of (found_of matches.now))) }
{
    match text_in(matches, id) {
        Some("true") => true,
        _ => false,
    }
}
