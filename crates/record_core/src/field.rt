// The fields of the nvdata record: the table of their places, and which values fit.
ghost use Rattle.std.specs.Prelude.{◌≡◌, ◌≤◌, ◌<◌, ◌↔◌, IsTrue};
ghost use Rattle.record_core.specs.Field.{place_of, greatest_value};

/// A field of the nvdata record, version 1. Each is some bits of one byte.
/// Source: `vb2_nv_param` of vboot_reference (firmware/2lib/include/2nvstorage.h); the places of the developer bits in
/// byte 4 are this project's own.
#[derive(Clone, Copy, Debug, PartialEq, Eq)]
pub enum NvField {
    /// The kernel's settings were reset (1 bit).
    KernelReset,
    /// The firmware's settings were reset (1 bit).
    FirmwareReset,
    /// How many times the slot `TryNext` is still to be tried (0 to 15).
    TryCount,
    /// Developer mode is to be switched off at the next boot (1 bit).
    DisableDev,
    /// The reason for which the next boot is to be a recovery boot, 0 for none.
    RecoveryRequest,
    /// The index of the localization on the firmware's screens.
    Localization,
    /// A developer may boot from an external drive (1 bit).
    ExternalBoot,
    /// A developer boots signed kernels only (1 bit).
    SignedOnly,
    /// The drive that a developer boot takes by default (0 to 3): 0 the disk, 1 the stick.
    DefaultBoot,
    /// More on the reason in `RecoveryRequest`.
    RecoverySubcode,
    /// What became of the last boot of the slot `Tried`: 0 unknown, 1 trying, 2 success, 3 failure.
    Result,
    /// The slot of the last boot: 0 is A, 1 is B.
    Tried,
    /// The slot to try next: 0 is A, 1 is B.
    TryNext,
    /// `Result` as it was before the last boot.
    PrevResult,
    /// `Tried` as it was before the last boot.
    PrevTried,
}

/// Where a field stands: the byte, the bits in it, and how far the lowest of them stands above bit 0.
#[derive(Clone, Copy, Debug)]
pub(crate) struct Place {
    pub(crate) byte: usize,
    pub(crate) mask: u8,
    pub(crate) shift: u32,
}

impl NvField {
    /// The table of places.
    pub(crate) fn place(self) -> Place
        ensures place { result ≡ place_of self }
        ensures before_crc { result.byte < 15 }
        ensures in_byte { result.shift < 8 }
    {
        let (byte, mask, shift) = match self {
            NvField::KernelReset => (0, 0x10, 4),
            NvField::FirmwareReset => (0, 0x20, 5),
            NvField::TryCount => (1, 0x0f, 0),
            NvField::DisableDev => (1, 0x40, 6),
            NvField::RecoveryRequest => (2, 0xff, 0),
            NvField::Localization => (3, 0xff, 0),
            NvField::ExternalBoot => (4, 0x01, 0),
            NvField::SignedOnly => (4, 0x02, 1),
            NvField::DefaultBoot => (4, 0x30, 4),
            NvField::RecoverySubcode => (6, 0xff, 0),
            NvField::Result => (7, 0x03, 0),
            NvField::Tried => (7, 0x04, 2),
            NvField::TryNext => (7, 0x08, 3),
            NvField::PrevResult => (7, 0x30, 4),
            NvField::PrevTried => (7, 0x40, 6),
        };
        Place { byte, mask, shift }
    }
}

/// Whether a value fits into the bits of a field.
pub fn fits(field: NvField, value: u8) -> bool
    ensures { IsTrue result ↔ (value ≤ greatest_value field) }
{
    let place = field.place();
    value <= place.mask >> place.shift
}
