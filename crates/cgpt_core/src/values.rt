// What the texts of values mean.
ghost use Rattle.std.specs.Prelude.{◌≡◌, ◌≤◌, ◌<◌, ◌^◌, ◌+◌, ◌++◌, Some, IfSome, IfNone, length, take, drop};
ghost use Rattle.cgpt_core.specs.Values as spec;
ghost use Rattle.cgpt_core.specs.Values.{number_in};

use crate::call::Label;
use text_core::Text;
use uuid::Uuid;

// ---- numbers

// The number that a text writes, where it fits.
fn number_of(word: &str) -> Option<u64>
    ensures some { IfSome result (λ number. number_in word.now ≡ Some number) }
    ensures none { IfNone result (IfSome (number_in word.now) (λ number. 2 ^ 64 ≤ number)) }
{
    let Ok(number) = word.parse::<u64>() else {
        return None;
    };
    let mut text = Text::new();
    text.push_decimal(number);
    if text.as_slice() == word.as_bytes() {
        Some(number)
    } else {
        None
    }
}

// The number that a text writes, from the least to the most.
pub(crate) fn number_from(word: &str, least: u64, most: u64) -> Option<u64>
    ensures number { result ≡ spec.number_from least most word.now }
    ensures most { IfSome result (λ number. number ≤ most) }
{
    let number = number_of(word)?;
    if least <= number && number <= most {
        Some(number)
    } else {
        None
    }
}

// ---- GUIDs

// The GUID that a text writes, as a disk stores it.
#[tactic(auto, unfolding(crate::specs::Values::guid_in))]
pub(crate) fn guid_of(word: &str) -> Option<[u8; 16]>
    ensures { result ≡ spec.guid_in word.now }
{
    match Uuid::parse_str(word) {
        Ok(guid) => Some(guid.to_bytes_le()),
        Err(_) => None,
    }
}

// The GUID, where it is not that of all zeros.
pub(crate) fn used_guid(guid: [u8; 16]) -> Option<[u8; 16]>
    ensures { result ≡ spec.used_guid guid }
{
    if guid == [0; 16] { None } else { Some(guid) }
}

// The text of the GUID of a type that has a name, or the text itself.
fn named_guid(name: &str) -> &str
    ensures { result.now ≡ spec.named_guid name.now }
{
    match name {
        "kernel" => "fe3a2a5d-4f32-41a7-b725-accc3285a309",
        "rootfs" => "3cb8e202-3b7e-47dd-8a3c-7ff2a13cfcec",
        "efi" => "c12a7328-f81f-11d2-ba4b-00a0c93ec93b",
        "data" => "ebd0a0a2-b9e5-4433-87c0-68b6b72699c7",
        "unused" => "00000000-0000-0000-0000-000000000000",
        other => other,
    }
}

// The type that a name or a GUID stands for.
pub(crate) fn type_of(word: &str) -> Option<[u8; 16]>
    ensures { result ≡ spec.type_in word.now }
{
    guid_of(named_guid(word))
}

// ---- labels

// The label of a text of at most 36 units.
pub(crate) fn label_of(word: &str) -> Option<Label>
    ensures { result ≡ spec.label_in word.now }
{
    let mut units = [0; 36];
    let mut len = 0;
    for character in word.chars() {
        let mut pair = [0; 2];
        len = put_units(&mut units, len, character.encode_utf16(&mut pair))?;
    }
    Some(Label::new(units))
}

// Puts more units behind the first `len`, and answers how many there are then, or none where they have no room.
fn put_units(units: &mut [u16; 36], len: usize, more: &[u16]) -> Option<usize>
    requires { len ≤ 36 }
    ensures len { IfSome result (λ end. end ≡ len + length more.now) }
    ensures units { IfSome result (λ end. units.new ≡ take len units.old ++ more.now ++ drop (len + length more.now) units.old) }
    ensures room { IfSome result (λ end. end ≤ 36) }
    ensures full { IfNone result (36 < len + length more.now) }
{
    if more.len() > units.len() - len {
        return None;
    }
    let end = len + more.len();
    units[len..end].copy_from_slice(more);
    Some(end)
}
