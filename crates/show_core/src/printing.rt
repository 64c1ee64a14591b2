// The text of what a flash or a partition holds, one line after the other. A function that appends asks for room for the most that it
// appends, rounded up in places; all lines together stay under the 2,048 bytes of a text.
ghost use Rattle.std.specs.Prelude.{◌≡◌, ◌+◌, ◌≤◌, ◌++◌, length, decimal};
ghost use Rattle.text_core.specs.Numbers.{hex_number};
ghost use Rattle.text_core.specs.Shown.{shown_field};
ghost use Rattle.show_core.specs.Text as spec;
ghost use Rattle.show_core.specs.Text.{facts_text, partition_text};

use crate::facts::{
    FlashFacts, GbbFacts, KernelFacts, KernelPreambleFacts, KeyblockFacts, PartitionFacts,
    PreambleFacts, SlotFacts,
};
use key_core::KeyblockFault;
use preamble_core::{FwPreambleFault, KernelPreambleFault};
use rom_core::{Area, GbbFault, before_nul};
use text_core::Text;

/// The text of what a flash holds: a line for the flash, for each area of its map and for its GBB, and two for each slot,
/// or one that tells the fault of its keyblock. Each line ends with LF.
///
/// The flags of the GBB and of a preamble are printed in hexadecimal, all other numbers in decimal, and a fault by its
/// number. Of the HWID the bytes before the first NUL are printed, and `?` for each of them that is no printable character
/// of ASCII.
pub fn text_of_facts(facts: &FlashFacts) -> Text
    ensures { result ≡ facts_text facts.now }
{
    let mut text = Text::new();
    push_flash_line(&mut text, facts.size, facts.map_at);
    push_area_line(&mut text, b"GBB", &facts.map.gbb);
    push_area_line(&mut text, b"RW_NVRAM", &facts.map.nvram);
    push_area_line(&mut text, b"VBLOCK_A", &facts.map.vblock_a);
    push_area_line(&mut text, b"FW_MAIN_A", &facts.map.main_a);
    push_area_line(&mut text, b"VBLOCK_B", &facts.map.vblock_b);
    push_area_line(&mut text, b"FW_MAIN_B", &facts.map.main_b);
    push_gbb_line(&mut text, &facts.gbb);
    push_slot_lines(&mut text, b"slot A ", &facts.slot_a);
    push_slot_lines(&mut text, b"slot B ", &facts.slot_b);
    text
}

fn push_flash_line(text: &mut Text, size: u32, map_at: u32)
    requires { length text.old + 64 ≤ 2048 }
    ensures text { text.new ≡ text.old ++ spec.flash_line size map_at }
    ensures size { length text.new ≤ length text.old + 64 }
{
    push_field(text, b"flash ", size);
    push_field(text, b" map ", map_at);
    text.push(b"\n");
}

fn push_area_line(text: &mut Text, name: &[u8], area: &Area)
    requires name { length name.now ≤ 9 }
    requires room { length text.old + 64 ≤ 2048 }
    ensures text { text.new ≡ text.old ++ spec.area_line name.now area.now }
    ensures size { length text.new ≤ length text.old + 64 }
{
    text.push(b"area ");
    text.push(name);
    push_field(text, b" ", area.at);
    push_field(text, b" ", area.size);
    text.push(b"\n");
}

// ---- the GBB

fn push_gbb_line(text: &mut Text, gbb: &Result<GbbFacts, GbbFault>)
    requires { length text.old + 384 ≤ 2048 }
    ensures text { text.new ≡ text.old ++ spec.gbb_line gbb.now }
    ensures size { length text.new ≤ length text.old + 384 }
{
    match gbb {
        Ok(gbb) => push_gbb(text, gbb),
        Err(fault) => {
            text.push(b"gbb");
            push_fault_end(text, fault.number());
        }
    }
}

// The line of a GBB without a fault.
fn push_gbb(text: &mut Text, gbb: &GbbFacts)
    requires { length text.old + 384 ≤ 2048 }
    ensures text { text.new ≡ text.old ++ spec.gbb_line (Ok gbb.now) }
    ensures size { length text.new ≤ length text.old + 384 }
{
    push_field(text, b"gbb minor ", u32::from(gbb.minor));
    push_hex_field(text, b" flags ", gbb.flags);
    text.push(b" hwid");
    push_hwid(text, &gbb.hwid);
    text.push(b"\n");
}

// The HWID with a space before it, or nothing where it is empty.
fn push_hwid(text: &mut Text, hwid: &[u8; 256])
    requires { length text.old + 257 ≤ 2048 }
    ensures text { text.new ≡ text.old ++ spec.spaced (shown_field hwid.now) }
    ensures size { length text.new ≤ length text.old + 257 }
{
    let bytes = before_nul(hwid);
    if bytes.is_empty() {
        return;
    }
    text.push(b" ");
    text.push_shown(bytes);
}

// ---- keyblocks and preambles, of slots and of partitions. `front` is what each line begins with.

fn push_slot_lines(text: &mut Text, front: &[u8], slot: &Result<SlotFacts, KeyblockFault>)
    requires front { length front.now ≤ 31 }
    requires room { length text.old + 304 ≤ 2048 }
    ensures text { text.new ≡ text.old ++ spec.slot_lines front.now slot.now }
    ensures size { length text.new ≤ length text.old + 304 }
{
    match slot {
        Ok(slot) => {
            push_keyblock(text, front, &slot.keyblock);
            push_preamble_line(text, front, &slot.preamble);
        }
        Err(fault) => push_keyblock_fault(text, front, *fault),
    }
}

// The line of a keyblock without a fault.
fn push_keyblock(text: &mut Text, front: &[u8], keyblock: &KeyblockFacts)
    requires front { length front.now ≤ 31 }
    requires room { length text.old + 160 ≤ 2048 }
    ensures text { text.new ≡ text.old ++ spec.keyblock_line front.now keyblock.now }
    ensures size { length text.new ≤ length text.old + 160 }
{
    text.push(front);
    push_field(text, b"keyblock ", keyblock.size);
    push_field(text, b" flags ", keyblock.flags);
    push_field(text, b" key ", keyblock.algorithm);
    push_field(text, b" version ", keyblock.version);
    text.push(b"\n");
}

// The line of a keyblock with a fault.
fn push_keyblock_fault(text: &mut Text, front: &[u8], fault: KeyblockFault)
    requires front { length front.now ≤ 31 }
    requires room { length text.old + 96 ≤ 2048 }
    ensures text { text.new ≡ text.old ++ spec.keyblock_fault_line front.now fault }
    ensures size { length text.new ≤ length text.old + 96 }
{
    text.push(front);
    text.push(b"keyblock");
    push_fault_end(text, keyblock_fault_number(fault));
}

fn push_preamble_line(
    text: &mut Text,
    front: &[u8],
    preamble: &Result<PreambleFacts, FwPreambleFault>,
)
    requires front { length front.now ≤ 31 }
    requires room { length text.old + 144 ≤ 2048 }
    ensures text { text.new ≡ text.old ++ spec.preamble_line front.now preamble.now }
    ensures size { length text.new ≤ length text.old + 144 }
{
    match preamble {
        Ok(preamble) => push_preamble(text, front, preamble),
        Err(fault) => {
            text.push(front);
            text.push(b"preamble");
            push_fault_end(text, preamble_fault_number(*fault));
        }
    }
}

// The line of a firmware preamble without a fault.
fn push_preamble(text: &mut Text, front: &[u8], preamble: &PreambleFacts)
    requires front { length front.now ≤ 31 }
    requires room { length text.old + 144 ≤ 2048 }
    ensures text { text.new ≡ text.old ++ spec.preamble_line front.now (Ok preamble.now) }
    ensures size { length text.new ≤ length text.old + 144 }
{
    text.push(front);
    push_field(text, b"preamble ", preamble.size);
    push_field(text, b" version ", preamble.version);
    push_hex_field(text, b" flags ", preamble.flags);
    push_field(text, b" body ", preamble.body_len);
    text.push(b"\n");
}

// ---- a partition

/// The text of partition `index` of a drive: a line for its keyblock and one for its preamble, or one that tells the fault
/// of the keyblock, or that the partition is too short for a kernel. Each line ends with LF.
///
/// The load address is printed in hexadecimal, all other numbers in decimal, and a fault by its number.
pub fn text_of_partition(index: u32, facts: &PartitionFacts) -> Text
    ensures { result ≡ partition_text index facts.now }
{
    let mut front = Text::new();
    push_field(&mut front, b"partition ", index);
    front.push(b" ");
    let mut text = Text::new();
    match facts {
        PartitionFacts::Short => {
            text.push(front.as_slice());
            text.push(b"short\n");
        }
        PartitionFacts::Kernel(kernel) => push_kernel_lines(&mut text, front.as_slice(), kernel),
    }
    text
}

fn push_kernel_lines(text: &mut Text, front: &[u8], kernel: &Result<KernelFacts, KeyblockFault>)
    requires front { length front.now ≤ 31 }
    requires room { length text.old + 512 ≤ 2048 }
    ensures text { text.new ≡ text.old ++ spec.kernel_text front.now kernel.now }
{
    match kernel {
        Ok(kernel) => {
            push_keyblock(text, front, &kernel.keyblock);
            push_kernel_preamble_line(text, front, &kernel.preamble);
        }
        Err(fault) => push_keyblock_fault(text, front, *fault),
    }
}

fn push_kernel_preamble_line(
    text: &mut Text,
    front: &[u8],
    preamble: &Result<KernelPreambleFacts, KernelPreambleFault>,
)
    requires front { length front.now ≤ 31 }
    requires room { length text.old + 256 ≤ 2048 }
    ensures { text.new ≡ text.old ++ spec.kernel_preamble_line front.now preamble.now }
{
    match preamble {
        Ok(preamble) => push_kernel_preamble(text, front, preamble),
        Err(fault) => {
            text.push(front);
            text.push(b"preamble");
            push_fault_end(text, kernel_preamble_fault_number(*fault));
        }
    }
}

// The line of a kernel preamble without a fault.
fn push_kernel_preamble(text: &mut Text, front: &[u8], preamble: &KernelPreambleFacts)
    requires front { length front.now ≤ 31 }
    requires room { length text.old + 256 ≤ 2048 }
    ensures { text.new ≡ text.old ++ spec.kernel_preamble_line front.now (Ok preamble.now) }
{
    text.push(front);
    push_field(text, b"preamble ", preamble.size);
    push_field(text, b" version ", preamble.version);
    text.push(b" load ");
    text.push_long_hex(preamble.load_address);
    push_field(text, b" body ", preamble.body_len);
    text.push(b"\n");
}

// ---- parts of a line

// Words, and a number behind them.
fn push_field(text: &mut Text, words: &[u8], number: u32)
    requires { length text.old + length words.now + 20 ≤ 2048 }
    ensures text { text.new ≡ text.old ++ words.now ++ decimal number }
    ensures size { length text.new ≤ length text.old + length words.now + 20 }
{
    text.push(words);
    text.push_decimal(u64::from(number));
}

// Words, and a number in hexadecimal behind them.
fn push_hex_field(text: &mut Text, words: &[u8], number: u32)
    requires { length text.old + length words.now + 10 ≤ 2048 }
    ensures text { text.new ≡ text.old ++ words.now ++ hex_number 4 number }
    ensures size { length text.new ≡ length text.old + length words.now + 10 }
{
    text.push(words);
    text.push_hex(number);
}

// The number of a fault, and the end of its line.
fn push_fault_end(text: &mut Text, number: u8)
    requires { length text.old + 28 ≤ 2048 }
    ensures text { text.new ≡ text.old ++ spec.fault_end number }
    ensures size { length text.new ≤ length text.old + 28 }
{
    push_field(text, b" fault ", u32::from(number));
    text.push(b"\n");
}

// ---- the numbers of faults

fn keyblock_fault_number(fault: KeyblockFault) -> u8
    ensures { result ≡ spec.keyblock_fault_number fault }
{
    fault as u8
}

fn preamble_fault_number(fault: FwPreambleFault) -> u8
    ensures { result ≡ spec.preamble_fault_number fault }
{
    fault as u8
}

fn kernel_preamble_fault_number(fault: KernelPreambleFault) -> u8
    ensures { result ≡ spec.kernel_preamble_fault_number fault }
{
    fault as u8
}
