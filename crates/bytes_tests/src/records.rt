// Each field of a record, in bytes that were written by hand.
use record_core::{Nv, NvField, fits};
use std::test::Fail;

// The bytes with another one at a place, and another checksum.
fn with_byte(bytes: &[u8; 16], (at, byte, crc): (usize, u8, u8)) -> [u8; 16] {
    let mut changed = *bytes;
    if at < 15 {
        changed[at] = byte;
    }
    changed[15] = crc;
    changed
}

// The record with a field set, where the value fits.
fn set_in(record: &Nv, field: NvField, value: u8) -> Nv {
    let mut changed = *record;
    if fits(field, value) {
        changed.set(field, value);
    }
    changed
}

// Each row has a field, its value in the record, and another value; then the place of the byte that holds the field, and
// what this byte and the checksum are once the field has the other value.
#[test]
fn fields_of_a_record(rt: HostRuntime) -> Result<(), Fail> {
    let rows = [
        (NvField::KernelReset, 1, 0, (0, 0x40, 0x11)),
        (NvField::FirmwareReset, 0, 1, (0, 0x70, 0xb2)),
        (NvField::TryCount, 5, 10, (1, 0x4a, 0xf8)),
        (NvField::DisableDev, 1, 0, (1, 0x05, 0x9f)),
        (NvField::RecoveryRequest, 0x81, 0x7e, (2, 0x7e, 0xa2)),
        (NvField::Localization, 0x42, 0xbd, (3, 0xbd, 0x37)),
        (NvField::ExternalBoot, 1, 0, (4, 0x20, 0x6f)),
        (NvField::SignedOnly, 0, 1, (4, 0x23, 0x4e)),
        (NvField::DefaultBoot, 2, 1, (4, 0x11, 0x6e)),
        (NvField::RecoverySubcode, 0x93, 0x6c, (6, 0x6c, 0x7f)),
        (NvField::Result, 2, 1, (7, 0x35, 0x45)),
        (NvField::Tried, 1, 0, (7, 0x32, 0x3c)),
        (NvField::TryNext, 0, 1, (7, 0x3e, 0xe8)),
        (NvField::PrevResult, 3, 0, (7, 0x06, 0x29)),
        (NvField::PrevTried, 0, 1, (7, 0x76, 0xac)),
    ];
    let bytes = *b"\x50\x45\x81\x42\x21\0\x93\x36\0\0\0\0\0\0\0\x70";
    let record = Nv::from_bytes(&bytes).ok_or("a good record")?;
    for (field, was, value, after) in rows {
        assert_eq!(rt; record.get(field), was, "{field:?}");
        assert_eq!(rt;
            set_in(&record, field, value).as_slice(),
            with_byte(&bytes, after).as_slice(),
            "{field:?}"
        );
    }
    Ok(())
}
