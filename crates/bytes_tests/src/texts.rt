// Texts of several parts.
use text_core::*;

#[test]
fn parts(rt: HostRuntime) {
    let mut text = Text::new();
    assert_eq!(rt; text.as_slice(), b"".as_slice());
    text.push(b"a ");
    text.push_decimal(0);
    text.push(b" ");
    text.push_decimal(u64::MAX);
    text.push(b" ");
    text.push_hex(0);
    text.push(b" ");
    text.push_hex(0x12_ab_cd_ef);
    text.push(b" ");
    text.push_long_hex(0x1_23_ab_cd_ef);
    text.push(b"");
    text.push(b"\n");
    assert_eq!(rt;
        text.as_slice(),
        b"a 0 18446744073709551615 0x00000000 0x12abcdef 0x0000000123abcdef\n".as_slice()
    );
}
