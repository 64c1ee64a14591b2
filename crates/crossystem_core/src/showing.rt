// What a machine keeps, and the values of its keys.
ghost use Rattle.std.specs.Prelude.{◌≡◌, ◌+◌, ◌≤◌, ◌++◌, bytes_eq, length};
ghost use Rattle.crossystem_core.specs.Views as spec;

use crate::key::{Key, Reads};
use crate::values::{ValueText, push_value, push_version};
use nvstore_core::NvState;
use rom_core::before_nul;
use std::marker::Model;
use text_core::Text;

/// The HWID of a machine, seen as its bytes, and zeros after them up to 256.
#[derive(Clone, Copy, Debug, PartialEq, Eq)]
pub struct Hwid {
    bytes: [u8; 256],
}

impl Model for Hwid {
    ghost use Rattle.std.specs.Prelude.{List, ℕ};

    ghost Value = { List ℕ };

    ghost view = { λ hwid. hwid.bytes };

    ghost inverse = { λ bytes. record { bytes = bytes } };
}

impl Hwid {
    pub(crate) fn new(bytes: [u8; 256]) -> Hwid
        ensures { result ≡ bytes }
    {
        Hwid { bytes }
    }

    /// The bytes of the HWID, and zeros after them.
    pub fn as_slice(&self) -> &[u8]
        ensures same { result.now ≡ self.now }
        ensures size { length self.now ≡ 256 }
    {
        &self.bytes
    }
}

/// What a machine keeps of which the keys tell.
#[derive(Clone, Copy, Debug)]
pub struct CrossView {
    /// The two pages of nvdata, and the record that stands.
    pub state: NvState,
    /// The place of the pages in the flash, in bytes.
    pub nvram: u32,
    /// The stored version of the firmware. `None`: its space has a fault.
    pub firmware: Option<u32>,
    /// The stored version of the kernel. `None`: its space has a fault.
    pub kernel: Option<u32>,
    /// The HWID. `None`: the GBB has a fault.
    pub hwid: Option<Hwid>,
}

/// The text of a key's value.
pub fn get(view: &CrossView, key: Key) -> ValueText
    ensures { result ≡ spec.key_text view.now key }
{
    let mut text = Text::new();
    push_key(&mut text, view, key);
    ValueText::new(text)
}

/// Whether a text is that of a key's value.
pub fn check(view: &CrossView, key: Key, text: &str) -> bool
    ensures { result ≡ bytes_eq (spec.key_text view.now key) text.now }
{
    is_text(view, key, text.as_bytes())
}

// Whether these bytes are the text of a key's value.
pub(crate) fn is_text(view: &CrossView, key: Key, text: &[u8]) -> bool
    ensures { result ≡ bytes_eq (spec.key_text view.now key) text.now }
{
    let own = get(view, key);
    own.as_slice() == text
}

// Appends the text of a key's value.
#[tactic(auto, unfolding(crate::specs::Views::key_text))]
pub(crate) fn push_key(text: &mut Text, view: &CrossView, key: Key)
    requires { length text.old + 256 ≤ 2048 }
    ensures text { text.new ≡ text.old ++ spec.key_text view.now key }
    ensures size { length text.new ≤ length text.old + 256 }
{
    push_read(text, view, key.row().reads);
}

// Appends the text of what a key reads.
fn push_read(text: &mut Text, view: &CrossView, reads: Reads)
    requires { length text.old + 256 ≤ 2048 }
    ensures text { text.new ≡ text.old ++ spec.text_by view.now reads }
    ensures size { length text.new ≤ length text.old + 256 }
{
    match reads {
        Reads::Field(field, form, _) => push_value(text, form, view.state.nv.get(field)),
        Reads::Ceiling(which) => text.push_hex(view.state.nv.ceiling(which)),
        Reads::FirmwareVersion => push_version(text, view.firmware),
        Reads::KernelVersion => push_version(text, view.kernel),
        Reads::Hwid => push_hwid(text, &view.hwid),
    }
}

// Appends a HWID, or that there is none.
fn push_hwid(text: &mut Text, hwid: &Option<Hwid>)
    requires { length text.old + 256 ≤ 2048 }
    ensures text { text.new ≡ text.old ++ spec.hwid_text hwid.now }
    ensures size { length text.new ≤ length text.old + 256 }
{
    match hwid {
        Some(hwid) => text.push_shown(before_nul(hwid.as_slice())),
        None => text.push(b"(error)"),
    }
}
