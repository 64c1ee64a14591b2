// What a command came to, with its text and its status.
ghost use Rattle.std.specs.Prelude.{◌≡◌, ◌≤◌, ◌+◌, ◌++◌, length, decimal};
ghost use Rattle.command_core.specs.Answers.{line_of, mode_name, slot_name, drive_name, version_name, firmware_line, kernel_line, stored_line, hand_text, reboot_line, text_of, status_of, device_name, device_status, refusal_name, code_name, outcome_text, outcome_status, exit_code, answer_of_words};

use board_core::{Device, Drive, Fault};
use board_file::OpenFault;
use boot_core::{Hand, Outcome};
use cgpt_core::WordFault;
use crossystem_core::CrossCode;
use fwsel_core::Slot;
use kernel_core::BootMode;
use record_core::SpaceFault;
use rom_core::MapFault;
use text_core::Text;

/// Why a command on a partition table was refused.
#[derive(Clone, Copy, Debug, PartialEq, Eq)]
pub enum CgptRefusal {
    /// A value is wanting or out of its range.
    BadValue,
    /// Neither copy of the table is good.
    NoTable,
    /// There is no entry of that index, or it is unused, or none is found.
    NoEntry,
    /// The drive is too small for a table, or too large.
    DiskTooSmall,
    /// All entries are used.
    NoFreeEntry,
    /// The entry has no sector, or one outside the usable ones.
    Outside,
    /// The entry would share a sector with another one.
    Overlap,
    /// Another entry has the unique GUID.
    DuplicateUnique,
}

/// What a command came to, before it is printed.
#[derive(Clone, Copy, Debug, PartialEq, Eq)]
pub enum Answer {
    /// The words are no command.
    Usage,
    /// A boot came to this.
    Booted(Outcome),
    /// A call of a device failed in a boot, after so many whole changes.
    Faulted(Fault),
    /// A call of a device failed, before a boot or in another command.
    Failed(Device),
    /// The map of a flash that was to be shown has this fault.
    BadFlash(MapFault),
    /// This device has another size than that of the machine to be made.
    WrongSize(Device),
    /// The list of accepted signatures has no room for those of the machine to be made.
    HookFull,
    /// A command on a partition table was refused.
    RefusedCgpt(CgptRefusal),
    /// A word of the crossystem tool was refused.
    RefusedWord {
        /// Its number, from 1.
        word: u64,
        /// Why.
        code: CrossCode,
    },
    /// A word of the crossystem tool checked a value that is another one.
    Differs {
        /// Its number, from 1.
        word: u64,
    },
    /// The kernel space of the TPM is in its newer form now.
    Migrated,
    /// The kernel space of the TPM was in its newer form already.
    AlreadyMigrated,
    /// The kernel space of the TPM has this fault, and stays.
    RefusedMigrate(SpaceFault),
    /// There was no memory.
    OutOfMemory,
    /// The board was not opened.
    Unopened(OpenFault),
}

/// How a command ended: one for each exit status of the program.
#[derive(Clone, Copy, Debug, PartialEq, Eq)]
pub enum Status {
    /// The command did what it is for; a boot handed over, or switched developer mode on.
    Done,
    /// The words are no command.
    Usage,
    /// A boot ended in a reboot.
    Reboot,
    /// A boot ended at a screen.
    Screen,
    /// A value that was checked is another one.
    Differs,
    /// A call of the flash failed.
    FlashFault,
    /// A call of the TPM failed.
    TpmFault,
    /// A call of the disk or of the stick failed.
    DriveFault,
    /// A call of the hook failed.
    HookFault,
    /// The text could not be put.
    SinkFault,
    /// The map of the flash has a fault.
    BadFlash,
    /// A word of the crossystem tool was refused.
    RefusedWord,
    /// A command on a partition table was refused.
    RefusedCgpt,
    /// There was no memory.
    NoMemory,
    /// A machine was not made.
    RefusedMake,
    /// A file of the board was not opened.
    CannotOpen,
    /// The kernel space of the TPM was not brought into its newer form.
    RefusedMigrate,
}

impl Status {
    /// The number that the program exits with.
    pub fn code(self) -> u8
        ensures { result ≡ exit_code self }
    {
        match self {
            Status::Done => 0,
            Status::Usage => 1,
            Status::Reboot => 2,
            Status::Screen => 3,
            Status::Differs => 4,
            Status::FlashFault => 5,
            Status::TpmFault => 6,
            Status::DriveFault => 7,
            Status::HookFault => 8,
            Status::SinkFault => 9,
            Status::BadFlash => 11,
            Status::RefusedWord => 13,
            Status::RefusedCgpt => 14,
            Status::NoMemory => 15,
            Status::RefusedMake => 16,
            Status::CannotOpen => 17,
            Status::RefusedMigrate => 20,
        }
    }
}

// The name of a device, as it is printed.
fn name_of(device: Device) -> &'static [u8]
    ensures name { result.now ≡ device_name device }
    ensures short { length result.now ≤ 5 }
{
    match device {
        Device::Flash => b"flash",
        Device::Tpm => b"tpm",
        Device::Disk => b"disk",
        Device::Stick => b"stick",
        Device::Hook => b"hook",
    }
}

fn name_of_refusal(refusal: CgptRefusal) -> &'static [u8]
    ensures name { result.now ≡ refusal_name refusal }
    ensures short { length result.now ≤ 15 }
{
    match refusal {
        CgptRefusal::BadValue => b"BadValue",
        CgptRefusal::NoTable => b"NoTable",
        CgptRefusal::NoEntry => b"NoEntry",
        CgptRefusal::DiskTooSmall => b"DiskTooSmall",
        CgptRefusal::NoFreeEntry => b"NoFreeEntry",
        CgptRefusal::Outside => b"Outside",
        CgptRefusal::Overlap => b"Overlap",
        CgptRefusal::DuplicateUnique => b"DuplicateUnique",
    }
}

fn name_of_code(code: CrossCode) -> &'static [u8]
    ensures name { result.now ≡ code_name code }
    ensures short { length result.now ≤ 10 }
{
    match code {
        CrossCode::UnknownKey => b"UnknownKey",
        CrossCode::ReadOnly => b"ReadOnly",
        CrossCode::BadValue => b"BadValue",
    }
}

// The status of a fault of a device.
fn status_of_device(device: Device) -> Status
    ensures { result ≡ device_status device }
{
    match device {
        Device::Flash => Status::FlashFault,
        Device::Tpm => Status::TpmFault,
        Device::Disk | Device::Stick => Status::DriveFault,
        Device::Hook => Status::HookFault,
    }
}

fn status_of_outcome(outcome: Outcome) -> Status
    ensures { result ≡ outcome_status outcome }
{
    match outcome {
        Outcome::HandOver(_) | Outcome::DevEnabled => Status::Done,
        Outcome::Reboot { .. } => Status::Reboot,
        Outcome::Screen { .. } => Status::Screen,
        Outcome::BadFlash(_) => Status::BadFlash,
    }
}

impl Answer {
    /// What words that are refused come to.
    pub fn of_words(fault: WordFault) -> Answer
        ensures { result ≡ answer_of_words fault }
    {
        match fault {
            WordFault::Usage => Answer::Usage,
            WordFault::BadValue => Answer::RefusedCgpt(CgptRefusal::BadValue),
            WordFault::Memory => Answer::OutOfMemory,
        }
    }

    /// The status, where the text could be printed.
    pub fn status(&self) -> Status
        ensures { result ≡ status_of self.now }
    {
        match self {
            Answer::Usage => Status::Usage,
            Answer::Booted(outcome) => status_of_outcome(*outcome),
            Answer::Faulted(fault) => status_of_device(fault.device),
            Answer::Failed(device) => status_of_device(*device),
            Answer::BadFlash(_) => Status::BadFlash,
            Answer::RefusedCgpt(_) => Status::RefusedCgpt,
            Answer::OutOfMemory | Answer::Unopened(OpenFault::Memory) => Status::NoMemory,
            Answer::WrongSize(_) | Answer::HookFull => Status::RefusedMake,
            Answer::Unopened(OpenFault::CannotOpen(_)) => Status::CannotOpen,
            Answer::RefusedWord { .. } => Status::RefusedWord,
            Answer::Differs { .. } => Status::Differs,
            Answer::Migrated | Answer::AlreadyMigrated => Status::Done,
            Answer::RefusedMigrate(_) => Status::RefusedMigrate,
        }
    }

    /// The text, with the ends of its lines.
    pub fn text(&self) -> Text
        ensures { result ≡ text_of self.now }
    {
        match self {
            Answer::Usage => line(b"usage"),
            Answer::Booted(outcome) => text_of_outcome(*outcome),
            Answer::Faulted(fault) => fault_text(fault),
            Answer::Failed(device) => named(b"fault ", name_of(*device)),
            Answer::BadFlash(fault) => bad_flash_text(*fault),
            Answer::WrongSize(device) => named(b"refused make size ", name_of(*device)),
            Answer::HookFull => line(b"refused make hook full"),
            Answer::RefusedCgpt(refusal) => named(b"refused cgpt ", name_of_refusal(*refusal)),
            Answer::RefusedWord { word, code } => refused_word_text(*word, *code),
            Answer::Differs { word } => numbered(b"differs word ", *word),
            Answer::Migrated => line(b"migrated"),
            Answer::AlreadyMigrated => line(b"already v1"),
            Answer::RefusedMigrate(fault) => {
                numbered(b"refused migrate ", u64::from(fault.number()))
            }
            Answer::OutOfMemory | Answer::Unopened(OpenFault::Memory) => line(b"out of memory"),
            Answer::Unopened(OpenFault::CannotOpen(file)) => {
                named(b"cannot open ", file.name().as_bytes())
            }
        }
    }
}

// A line of its own.
fn line(words: &[u8]) -> Text
    requires { length words.now ≤ 64 }
    ensures { result ≡ line_of words.now }
{
    let mut text = Text::new();
    text.push(words);
    text.push(b"\n");
    text
}

// A line that ends in a name.
fn named(words: &[u8], name: &[u8]) -> Text
    requires words { length words.now ≤ 64 }
    requires name { length name.now ≤ 64 }
    ensures { result ≡ line_of (words.now ++ name.now) }
{
    let mut text = Text::new();
    text.push(words);
    text.push(name);
    text.push(b"\n");
    text
}

// A line that ends in a number.
fn numbered(words: &[u8], number: u64) -> Text
    requires { length words.now ≤ 64 }
    ensures { result ≡ line_of (words.now ++ decimal number) }
{
    let mut text = Text::new();
    text.push(words);
    text.push_decimal(number);
    text.push(b"\n");
    text
}

fn refused_word_text(word: u64, code: CrossCode) -> Text
    ensures { result ≡ text_of (Answer.RefusedWord word code) }
{
    let mut text = Text::new();
    text.push(b"refused word ");
    text.push_decimal(word);
    text.push(b" ");
    text.push(name_of_code(code));
    text.push(b"\n");
    text
}

fn text_of_outcome(outcome: Outcome) -> Text
    ensures { result ≡ outcome_text outcome }
{
    match outcome {
        Outcome::HandOver(hand) => hand_text(&hand),
        Outcome::DevEnabled => line(b"developer mode enabled"),
        Outcome::Reboot {
            reason,
            subcode,
            requested,
        } => reboot_text(reason, subcode, requested),
        Outcome::Screen { reason, subcode } => screen_text(reason, subcode),
        Outcome::BadFlash(fault) => bad_flash_text(fault),
    }
}

// What is handed over.
fn hand_text(hand: &Hand) -> Text
    ensures { result ≡ hand_text hand.now }
{
    let mut text = Text::new();
    push_line(&mut text, name_of_mode(hand.mode));
    push_line(&mut text, name_of_slot(hand.slot));
    push_firmware(&mut text, hand.fw_version, hand.fw_len);
    push_kernel(&mut text, hand);
    push_stored(&mut text, hand.stored_fw, hand.stored_kernel);
    push_line(&mut text, b"hand over");
    text
}

fn push_line(text: &mut Text, words: &[u8])
    requires text { length text.old ≤ 1024 }
    requires words { length words.now ≤ 64 }
    ensures text { text.new ≡ text.old ++ line_of words.now }
    ensures size { length text.new ≤ length text.old + 65 }
{
    text.push(words);
    text.push(b"\n");
}

fn push_firmware(text: &mut Text, version: u32, len: u32)
    requires { length text.old ≤ 1024 }
    ensures text { text.new ≡ text.old ++ firmware_line version len }
    ensures size { length text.new ≤ length text.old + 41 }
{
    text.push(b"firmware ");
    text.push_hex(version);
    text.push(b" ");
    text.push_decimal(u64::from(len));
    text.push(b"\n");
}

fn push_kernel(text: &mut Text, hand: &Hand)
    requires { length text.old ≤ 1024 }
    ensures text { text.new ≡ text.old ++ kernel_line hand.now }
    ensures size { length text.new ≤ length text.old + 85 }
{
    text.push(b"kernel ");
    text.push(name_of_drive(hand.drive));
    text.push(b" ");
    text.push_decimal(u64::from(hand.partition));
    text.push(b" ");
    text.push_hex(hand.kernel_version);
    text.push(b" ");
    text.push_decimal(u64::from(hand.kernel_len));
    text.push(b" ");
    text.push_long_hex(hand.load_address);
    text.push(b"\n");
}

fn push_stored(text: &mut Text, firmware: Option<u32>, kernel: Option<u32>)
    requires { length text.old ≤ 1000 }
    ensures text { text.new ≡ text.old ++ stored_line firmware kernel }
    ensures size { length text.new ≤ length text.old + 29 }
{
    text.push(b"stored ");
    push_version(text, firmware);
    text.push(b" ");
    push_version(text, kernel);
    text.push(b"\n");
}

fn name_of_mode(mode: BootMode) -> &'static [u8]
    ensures name { result.now ≡ mode_name mode }
    ensures short { length result.now ≤ 14 }
{
    match mode {
        BootMode::Normal => b"mode normal",
        BootMode::Developer => b"mode developer",
        BootMode::Recovery => b"mode recovery",
    }
}

fn name_of_slot(slot: Option<Slot>) -> &'static [u8]
    ensures name { result.now ≡ slot_name slot }
    ensures short { length result.now ≤ 6 }
{
    match slot {
        None => b"slot -",
        Some(Slot::A) => b"slot A",
        Some(Slot::B) => b"slot B",
    }
}

fn name_of_drive(drive: Drive) -> &'static [u8]
    ensures name { result.now ≡ drive_name drive }
    ensures short { length result.now ≤ 5 }
{
    match drive {
        Drive::Disk => b"disk",
        Drive::Stick => b"stick",
    }
}

// A version that is stored, or none.
fn push_version(text: &mut Text, version: Option<u32>)
    requires { length text.old ≤ 1024 }
    ensures text { text.new ≡ text.old ++ version_name version }
    ensures size { length text.new ≤ length text.old + 10 }
{
    match version {
        Some(version) => text.push_hex(version),
        None => text.push(b"-"),
    }
}

fn reboot_text(reason: u8, subcode: u8, requested: bool) -> Text
    ensures { result ≡ reboot_line reason subcode requested }
{
    let mut text = Text::new();
    text.push(b"reboot reason ");
    text.push_decimal(u64::from(reason));
    text.push(b" subcode ");
    text.push_decimal(u64::from(subcode));
    text.push(b" requested ");
    text.push(if requested { b"1" } else { b"0" });
    text.push(b"\n");
    text
}

fn screen_text(reason: u8, subcode: u8) -> Text
    ensures { result ≡ outcome_text (Outcome.Screen reason subcode) }
{
    let mut text = Text::new();
    text.push(b"screen reason ");
    text.push_decimal(u64::from(reason));
    text.push(b" subcode ");
    text.push_decimal(u64::from(subcode));
    text.push(b"\n");
    text
}

fn bad_flash_text(fault: MapFault) -> Text
    ensures { result ≡ text_of (Answer.BadFlash fault) }
{
    let mut text = Text::new();
    text.push(b"bad flash ");
    text.push_decimal(u64::from(fault.number()));
    text.push(b"\n");
    text
}

fn fault_text(fault: &Fault) -> Text
    ensures { result ≡ text_of (Answer.Faulted fault.now) }
{
    let mut text = Text::new();
    text.push(b"fault ");
    text.push(name_of(fault.device));
    text.push(b" done ");
    text.push_decimal(u64::from(fault.done));
    text.push(b"\n");
    text
}
