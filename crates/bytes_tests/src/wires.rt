// Checksums and fields of known bytes.
use wire_core::*;

// The check value of the catalogues of checksums, no bytes, the heads of nvdata pages at generations 0, 1 and 2, and
// two nvdata records.
#[test]
fn crc8_of_known_bytes(rt: HostRuntime) {
    let known: [(&[u8], u8); 7] = [
        (b"123456789", 0xf4),
        (b"", 0),
        (b"NVPG\0\0\0\0\0\0\0\0\0\0\0", 0x77),
        (b"NVPG\x01\0\0\0\0\0\0\0\0\0\0", 0x68),
        (b"NVPG\x02\0\0\0\0\0\0\0\0\0\0", 0x49),
        (b"\x70\0\0\0\0\0\0\0\0\0\0\0\0\0\0", 0x20),
        (b"\x40\x02\0\0\0\0\0\x02\0\0\0\0\0\0\0", 0x68),
    ];
    for (bytes, crc) in known {
        assert_eq!(rt; crc8(bytes), crc, "of {bytes:?}");
    }
}

// The check value of the catalogues of checksums, no bytes, four zero bytes, what the header of a partition
// table begins with, and a sentence that many references give: each as Python's `zlib.crc32` gives it.
#[test]
fn crc32_of_known_bytes(rt: HostRuntime) {
    let known: [(&[u8], u32); 5] = [
        (b"123456789", 0xcbf4_3926),
        (b"", 0),
        (b"\0\0\0\0", 0x2144_df1c),
        (b"EFI PART\0\0\x01\0\x5c\0\0\0", 0xff69_35e1),
        (b"The quick brown fox jumps over the lazy dog", 0x414f_a339),
    ];
    for (bytes, crc) in known {
        assert_eq!(rt; crc32(bytes), crc, "of {bytes:?}");
    }
}

// Each field is written between other bytes, which stay, and reads back.
#[test]
fn fields_between_other_bytes(rt: HostRuntime) {
    let mut bytes = [0xee_u8; 18];
    put_u16(&mut bytes, 1, 0x1234);
    put_u32(&mut bytes, 4, 0x1234_5678);
    put_u64(&mut bytes, 9, 0x1234_5678_9abc_def0);
    let whole = [
        0xee, 0x34, 0x12, 0xee, 0x78, 0x56, 0x34, 0x12, 0xee, 0xf0, 0xde, 0xbc, 0x9a, 0x78, 0x56,
        0x34, 0x12, 0xee,
    ];
    assert_eq!(rt; bytes, whole);
    assert_eq!(rt; u16_at(&whole, 1), 0x1234);
    assert_eq!(rt; u32_at(&whole, 4), 0x1234_5678);
    assert_eq!(rt; u64_at(&whole, 9), 0x1234_5678_9abc_def0);
}
