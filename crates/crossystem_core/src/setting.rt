// What a set does to a record.
ghost use Rattle.std.specs.Prelude.{◌≡◌, ◌≤◌, ◌+◌, IfOk, OnOk, Some};
ghost use Rattle.record_core.specs.Field.{greatest_value};
ghost use Rattle.crossystem_core.specs.Keys.{IsFitting, row_of};
ghost use Rattle.crossystem_core.specs.Views.{record_text};
ghost use Rattle.crossystem_core.specs.Settings as spec;

use crate::fault::SetFault;
use crate::key::{Form, Key, Reads};
use crate::values::{value_of, version_of};
use record_core::{Ceiling, Nv, NvField};

/// What a set does: a field or a ceiling gets this value.
#[derive(Clone, Copy, Debug, PartialEq, Eq)]
pub(crate) enum Setting {
    // A field of the record.
    Field(NvField, u8),
    // A ceiling, a version word.
    Ceiling(Ceiling, u32),
}

impl Setting {
    // Sets it in a record. A ceiling brings the record into form V2 first.
    pub(crate) fn apply(self, nv: &mut Nv)
        requires { spec.FitsField self }
        ensures record { nv.new ≡ spec.with_setting nv.old self }
        ensures has { spec.Has nv.new self }
    {
        match self {
            Setting::Field(field, value) => nv.set(field, value),
            Setting::Ceiling(which, value) => {
                nv.up();
                nv.set_ceiling(which, value);
            }
        }
    }
}

// What setting a key to a text does.
#[tactic(auto, unfolding(crate::specs::Settings::setting_in))]
pub(crate) fn setting_of(key: Key, text: &[u8]) -> Result<Setting, SetFault>
    ensures setting { result ≡ spec.setting_in key text.now }
    ensures fits { IfOk result spec.FitsField }
{
    setting_by(key.row().reads, text)
}

// What setting a key does that reads this.
fn setting_by(reads: Reads, text: &[u8]) -> Result<Setting, SetFault>
    requires { IsFitting reads }
    ensures setting { result ≡ spec.setting_by reads text.now }
    ensures fits { IfOk result spec.FitsField }
{
    match reads {
        Reads::Field(field, form, Some(count)) => setting_in_field(field, form, count, text),
        Reads::Ceiling(which) => match version_of(text) {
            Some(version) => Ok(Setting::Ceiling(which, version)),
            None => Err(SetFault::BadValue),
        },
        _ => Err(SetFault::ReadOnly),
    }
}

// What setting a field does, which takes its first `count` values.
fn setting_in_field(
    field: NvField,
    form: Form,
    count: u16,
    text: &[u8],
) -> Result<Setting, SetFault>
    requires { count ≤ greatest_value field + 1 }
    ensures setting { result ≡ spec.setting_by (Reads.Field field form (Some count)) text.now }
    ensures fits { IfOk result spec.FitsField }
{
    match value_of(form, count, text) {
        Some(value) => Ok(Setting::Field(field, value)),
        None => Err(SetFault::BadValue),
    }
}

/// Sets a key in a record to what a text says. A ceiling brings the record into form V2 first. The key shows that very text then.
///
/// `ReadOnly`: exactly where the key is read only. `BadValue`: exactly where it is not, and the text is none of those that it
/// takes. The record is as it was then.
pub fn set(nv: &mut Nv, key: Key, text: &str) -> Result<(), SetFault>
    ensures answer { result ≡ spec.set_answer (spec.setting_in key text.now) }
    ensures record { nv.new ≡ spec.set_record nv.old (spec.setting_in key text.now) }
    ensures shown { OnOk result (record_text nv.new (row_of key).reads ≡ text.now) }
{
    match setting_of(key, text.as_bytes()) {
        Ok(setting) => {
            setting.apply(nv);
            Ok(())
        }
        Err(fault) => Err(fault),
    }
}
