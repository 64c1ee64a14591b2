// The values of the options of an entry, each in its field.
use board_core::Drive;
use cgpt_core::{CgptCall, CgptCommand, Label, words};
use std::process::Abort;
use std::test::Fail;

// The words of a line.
fn list_of(rt: &(impl AllocGlobal + Abort), line: &[&str]) -> Result<Vec<String>, Fail> {
    let mut list = Vec::new(rt.alloc());
    for word in line {
        list.push(word.to_string(rt.alloc())?)?;
    }
    Ok(list)
}

// `KERN-` and U+1F600, in units of UTF-16.
const NAME: [u16; 36] = [
    0x4b, 0x45, 0x52, 0x4e, 0x2d, 0xd83d, 0xde00, 0, 0, 0, 0, 0, 0, 0, 0, 0, 0, 0, 0, 0, 0, 0, 0,
    0, 0, 0, 0, 0, 0, 0, 0, 0, 0, 0, 0, 0,
];

// The GUID of the type `data`, and one of an entry, as sgdisk writes them.
const DATA: [u8; 16] = [
    0xa2, 0xa0, 0xd0, 0xeb, 0xe5, 0xb9, 0x33, 0x44, 0x87, 0xc0, 0x68, 0xb6, 0xb7, 0x26, 0x99, 0xc7,
];

const UNIQUE: [u8; 16] = [
    0xfe, 0xf7, 0xf0, 0xe9, 0x0c, 0x05, 0x1a, 0x43, 0xa1, 0x28, 0x2f, 0x36, 0x3d, 0x44, 0x4b, 0x52,
];

// All options of an entry, each in its field.
#[test]
fn values_of_options(rt: HostRuntime) -> Result<(), Fail> {
    let list = list_of(
        &rt,
        &[
            "add",
            "-i13",
            "-b",
            "1164",
            "-s",
            "10",
            "-t",
            "data",
            "-u",
            "E9F0F7FE-050C-431A-A128-2F363D444B52",
            "-l",
            "KERN-\u{1F600}",
            "-S",
            "1",
            "-T=15",
            "-P",
            "0",
            "-A",
            "65535",
            "stick",
        ],
    )?;
    let call = CgptCall {
        command: CgptCommand::Add,
        drive: Drive::Stick,
        index: Some(13),
        begin: Some(1164),
        size: Some(10),
        kind: Some(DATA),
        unique: Some(UNIQUE),
        label: Some(Label::new(NAME)),
        successful: Some(1),
        tries: Some(15),
        priority: Some(0),
        raw: Some(65535),
        friends: false,
    };
    assert_eq!(rt; words(rt.alloc(), list.as_slice()), Ok(call));
    Ok(())
}
