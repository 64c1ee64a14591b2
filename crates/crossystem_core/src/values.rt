// The texts of values. A function that appends asks for room for the most that it appends.
ghost use Rattle.std.specs.Prelude.{◌≡◌, ◌+◌, ◌≤◌, ◌<◌, ◌++◌, length, bytes_eq, IfSome};
ghost use Rattle.crossystem_core.specs.Values as spec;

use crate::key::Form;
use std::marker::Model;
use text_core::Text;

/// The text of a value, at most 256 bytes, seen as the list of them.
#[derive(Drop)]
pub struct ValueText {
    text: Text,
}

impl Model for ValueText {
    ghost use Rattle.std.specs.Prelude.{List, ℕ, ◌≤◌, length};

    ghost Value = { List ℕ };

    ghost view = { λ value. value.text };

    ghost invariant = { λ value. length value.text ≤ 256 };
}

impl ValueText {
    pub(crate) fn new(text: Text) -> ValueText
        requires { length text ≤ 256 }
        ensures { result ≡ text }
    {
        ValueText { text }
    }

    /// The bytes of the text.
    pub fn as_slice(&self) -> &[u8]
        ensures same { result.now ≡ self.now }
        ensures short { length self.now ≤ 256 }
    {
        self.text.as_slice()
    }
}

// ---- fields

// Appends the text of a field's value.
#[tactic(auto, unfolding(crate::specs::Values::value_text))]
pub(crate) fn push_value(text: &mut Text, form: Form, value: u8)
    requires { length text.old + 20 ≤ 2048 }
    ensures text { text.new ≡ text.old ++ spec.value_text form value }
    ensures size { length text.new ≤ length text.old + 20 }
{
    match form {
        Form::Number => text.push_decimal(u64::from(value)),
        Form::Outcome => text.push(outcome_word(value)),
        Form::Slot => text.push(slot_letter(value)),
        Form::Drive => push_drive(text, value),
    }
}

fn outcome_word(value: u8) -> &'static [u8]
    ensures word { result.now ≡ spec.outcome_word value }
    ensures size { length result.now ≤ 7 }
{
    match value {
        0 => b"unknown",
        1 => b"trying",
        2 => b"success",
        _ => b"failure",
    }
}

fn slot_letter(value: u8) -> &'static [u8]
    ensures letter { result.now ≡ spec.slot_letter value }
    ensures size { length result.now ≤ 1 }
{
    match value {
        0 => b"A",
        _ => b"B",
    }
}

fn push_drive(text: &mut Text, value: u8)
    requires { length text.old + 20 ≤ 2048 }
    ensures text { text.new ≡ text.old ++ spec.drive_word value }
    ensures size { length text.new ≤ length text.old + 20 }
{
    match value {
        0 => text.push(b"disk"),
        1 => text.push(b"usb"),
        _ => text.push_decimal(u64::from(value)),
    }
}

// The least value under `count` whose text this is.
pub(crate) fn value_of(form: Form, count: u16, text: &[u8]) -> Option<u8>
    requires { count ≤ 256 }
    ensures value { result ≡ spec.value_below form count text.now }
    ensures below { IfSome result (λ value. value < count) }
{
    for value in 0..count {
        if is_text_of(form, value as u8, text) {
            return Some(value as u8);
        }
    }
    None
}

fn is_text_of(form: Form, value: u8, text: &[u8]) -> bool
    ensures { result ≡ bytes_eq (spec.value_text form value) text.now }
{
    let mut own = Text::new();
    push_value(&mut own, form, value);
    own.as_slice() == text
}

// ---- versions

// Appends a stored version, or that there is none.
pub(crate) fn push_version(text: &mut Text, version: Option<u32>)
    requires { length text.old + 10 ≤ 2048 }
    ensures text { text.new ≡ text.old ++ spec.version_text version }
    ensures size { length text.new ≤ length text.old + 10 }
{
    match version {
        Some(version) => text.push_hex(version),
        None => text.push(b"(error)"),
    }
}

// The version that a text writes.
pub(crate) fn version_of(text: &[u8]) -> Option<u32>
    ensures { result ≡ spec.version_in text.now }
{
    if text.len() != 10 {
        return None;
    }
    let mut bytes = [0; 4];
    match hex::decode_to_slice(&text[2..], &mut bytes) {
        Ok(()) => whose_text(u32::from_be_bytes(bytes), text),
        Err(_) => None,
    }
}

// A version, where this is its text.
fn whose_text(version: u32, text: &[u8]) -> Option<u32>
    ensures { result ≡ spec.whose_text version text.now }
{
    let mut own = Text::new();
    own.push_hex(version);
    if own.as_slice() == text {
        Some(version)
    } else {
        None
    }
}
