// The keys: one row each, with the name, what the key reads and what a set takes.
ghost use Rattle.std.specs.Prelude.{◌≡◌, ◌≤◌, length, Some};
ghost use Rattle.std.specs.List.{find};
ghost use Rattle.crossystem_core.specs.Keys.{row_of, all_keys, is_named, key_named, IsFitting};

use record_core::{Ceiling, NvField};

/// A key of the tool. Source: the manual page crossystem(1) of ChromiumOS, and host/lib/crossystem.c of vboot_reference, of whose
/// keys these are some. The ceilings, and the texts of all values, are this project's own.
#[derive(Clone, Copy, Debug, PartialEq, Eq)]
pub enum Key {
    /// `dev_boot_signed_only`
    DevBootSignedOnly,
    /// `dev_boot_usb`
    DevBootUsb,
    /// `dev_default_boot`
    DevDefaultBoot,
    /// `disable_dev_request`
    DisableDevRequest,
    /// `fw_ceiling`
    FwCeiling,
    /// `fw_prev_result`
    FwPrevResult,
    /// `fw_prev_tried`
    FwPrevTried,
    /// `fw_result`
    FwResult,
    /// `fw_tried`
    FwTried,
    /// `fw_try_count`
    FwTryCount,
    /// `fw_try_next`
    FwTryNext,
    /// `hwid`
    Hwid,
    /// `kernel_ceiling`
    KernelCeiling,
    /// `loc_idx`
    LocIdx,
    /// `nvram_cleared`
    NvramCleared,
    /// `recovery_request`
    RecoveryRequest,
    /// `recovery_subcode`
    RecoverySubcode,
    /// `tpm_fwver`
    TpmFwver,
    /// `tpm_kernver`
    TpmKernver,
}

/// How the value of a field is shown.
#[derive(Clone, Copy, Debug, PartialEq, Eq)]
pub(crate) enum Form {
    // Decimal digits.
    Number,
    // `unknown`, `trying`, `success` or `failure`.
    Outcome,
    // `A` or `B`.
    Slot,
    // `disk`, `usb`, and the number of another drive.
    Drive,
}

/// What a key reads.
#[derive(Clone, Copy, Debug, PartialEq, Eq)]
pub(crate) enum Reads {
    // A field of the record, in a form. A set takes the texts of the first so many values; with none the key is read only.
    Field(NvField, Form, Option<u16>),
    // A ceiling of the record. A set takes a version.
    Ceiling(Ceiling),
    // The stored version of the firmware, which is read only.
    FirmwareVersion,
    // That of the kernel.
    KernelVersion,
    // The HWID, which is read only.
    Hwid,
}

// A row of the table.
#[derive(Clone, Copy)]
pub(crate) struct Row {
    pub(crate) name: &'static str,
    pub(crate) reads: Reads,
}

fn named(name: &'static str, reads: Reads) -> Row
    requires { length name.now ≤ 20 }
    ensures name { result.name.now ≡ name.now }
    ensures short { length result.name.now ≤ 20 }
    ensures reads { result.reads ≡ reads }
{
    Row { name, reads }
}

// A field that is shown in digits, of which a set takes the first so many values.
fn number(field: NvField, count: u16) -> Reads
    ensures { result ≡ Reads.Field field Form.Number (Some count) }
{
    Reads::Field(field, Form::Number, Some(count))
}

impl Key {
    /// All keys, in the order in which they are listed.
    pub fn all() -> [Key; 19]
        ensures { result ≡ all_keys }
    {
        [
            Key::DevBootSignedOnly,
            Key::DevBootUsb,
            Key::DevDefaultBoot,
            Key::DisableDevRequest,
            Key::FwCeiling,
            Key::FwPrevResult,
            Key::FwPrevTried,
            Key::FwResult,
            Key::FwTried,
            Key::FwTryCount,
            Key::FwTryNext,
            Key::Hwid,
            Key::KernelCeiling,
            Key::LocIdx,
            Key::NvramCleared,
            Key::RecoveryRequest,
            Key::RecoverySubcode,
            Key::TpmFwver,
            Key::TpmKernver,
        ]
    }

    fn is_named(self, name: &[u8]) -> bool
        ensures { result ≡ is_named name.now self }
    {
        self.row().name.as_bytes() == name
    }

    // The row of the key.
    pub(crate) fn row(self) -> Row
        ensures name { result.name.now ≡ (row_of self).name }
        ensures reads { result.reads ≡ (row_of self).reads }
        ensures fits { IsFitting result.reads }
        ensures short { length result.name.now ≤ 20 }
    {
        use Form::{Drive, Outcome, Slot};
        use NvField as Nv;
        use Reads::Field;
        match self {
            Key::DevBootSignedOnly => named("dev_boot_signed_only", number(Nv::SignedOnly, 2)),
            Key::DevBootUsb => named("dev_boot_usb", number(Nv::ExternalBoot, 2)),
            Key::DevDefaultBoot => named(
                "dev_default_boot",
                Field(Nv::DefaultBoot, Drive, Some(2)),
            ),
            Key::DisableDevRequest => named("disable_dev_request", number(Nv::DisableDev, 2)),
            Key::FwCeiling => named("fw_ceiling", Reads::Ceiling(Ceiling::Firmware)),
            Key::FwPrevResult => named("fw_prev_result", Field(Nv::PrevResult, Outcome, None)),
            Key::FwPrevTried => named("fw_prev_tried", Field(Nv::PrevTried, Slot, None)),
            Key::FwResult => named("fw_result", Field(Nv::Result, Outcome, Some(4))),
            Key::FwTried => named("fw_tried", Field(Nv::Tried, Slot, None)),
            Key::FwTryCount => named("fw_try_count", number(Nv::TryCount, 16)),
            Key::FwTryNext => named("fw_try_next", Field(Nv::TryNext, Slot, Some(2))),
            Key::Hwid => named("hwid", Reads::Hwid),
            Key::KernelCeiling => named("kernel_ceiling", Reads::Ceiling(Ceiling::Kernel)),
            Key::LocIdx => named("loc_idx", number(Nv::Localization, 256)),
            Key::NvramCleared => named("nvram_cleared", number(Nv::KernelReset, 1)),
            Key::RecoveryRequest => named("recovery_request", number(Nv::RecoveryRequest, 256)),
            Key::RecoverySubcode => named("recovery_subcode", number(Nv::RecoverySubcode, 256)),
            Key::TpmFwver => named("tpm_fwver", Reads::FirmwareVersion),
            Key::TpmKernver => named("tpm_kernver", Reads::KernelVersion),
        }
    }
}

/// The key of this name. `None`: exactly where no key has it.
pub fn find_key(name: &str) -> Option<Key>
    ensures { result ≡ key_named name.now }
{
    find_named(name.as_bytes())
}

// The key whose name these bytes are.
#[tactic(auto, unfolding(crate::specs::Keys::key_named))]
pub(crate) fn find_named(name: &[u8]) -> Option<Key>
    ensures { result ≡ key_named name.now }
{
    find_in(&Key::all(), name)
}

fn find_in(keys: &[Key], name: &[u8]) -> Option<Key>
    ensures { result ≡ find (is_named name.now) keys.now }
{
    for key in keys {
        if key.is_named(name) {
            return Some(*key);
        }
    }
    None
}
