//! The bench: it reads a script of cases, runs each over devices in memory, and prints a transcript, which the gate compares.
//!
//! Each line of the script is printed, and below it what it came to. `machine N` makes the machine of a number, without drives,
//! and `erased N` one whose flash has so many erased bytes; `disk N` and `stick N` give it a drive of so many sectors of zeros;
//! `rewrite IMAGE PLACE HEX` and `space firmware HEX` change its images, `row ALGORITHM KEY DIGEST SIGNATURE` enrolls a signature
//! by the digests of its file; `keep` keeps the machine as it is, and `again` is the kept one once more; `each DEVICE WORDS` runs
//! words with each call of a device failing in turn, with each of the remains, and then once more without a failure, and leaves
//! the machine as it was; any other words are run on the machine. A line that begins with `#` is a comment.
#![tactic(auto)]

mod line;
mod machine;
mod running;
mod transcript;

use board_mem::{FailAt, Remains};
use line::{Failing, ImageName, Line, SpaceName, line_of};
use machine::{DriveImage, Machine, SpaceImage};
use running::run_on;
use std::alloc::{AllocError, Global};
use std::io;
use transcript::{print_next, print_run};

/// The most calls of a device that fail in turn.
const MOST_CALLS: u32 = 64;

fn words_of(alloc: Global, line: &str) -> Result<Vec<String>, AllocError> {
    let mut words = Vec::new(alloc);
    for word in line.split(' ') {
        if !word.is_empty() {
            words.push(String::from_str(alloc, word)?)?;
        }
    }
    Ok(words)
}

// Whether the status is that of a fault of a device or of the sink.
fn is_fault(status: u8) -> bool {
    matches!(status, 5 | 6 | 7 | 8 | 9)
}

// Runs words with each call of a device failing in turn, until a run has no fault.
fn run_each<R: Print + AllocGlobal>(
    rt: &R,
    machine: &Machine,
    words: &[String],
    device: Failing,
    remains: Remains,
    name: &str,
) -> io::Result<()> {
    for call in 1..=MOST_CALLS {
        let fail = FailAt { call, remains };
        let ran = run_on(rt.alloc(), machine, words, Some((device, fail)))?;
        if !is_fault(ran.status) {
            return Ok(());
        }
        println!(rt; "  - call {call} {name}")?;
        print_run(rt, machine, &ran)?;
        let next = run_on(rt.alloc(), &ran.after, words, None)?;
        print_next(rt, &next)?;
    }
    Ok(())
}

/// The sectors of the disk of a machine that is made.
const MADE_SECTORS: u32 = 16384;

// Makes the machine of a number, without its drives.
fn make_machine(alloc: Global, number: u32) -> Result<Machine, AllocError> {
    let mut erased = Machine::erased(alloc, 1_048_576)?;
    erased.disk = DriveImage::zeros(alloc, MADE_SECTORS)?;
    let mut words = Vec::new(alloc);
    words.push(String::from_str(alloc, "make")?)?;
    words.push(format!(in alloc; "{number}")?)?;
    let mut made = run_on(alloc, &erased, &words, None)?.after;
    made.disk = DriveImage::zeros(alloc, 0)?;
    Ok(made)
}

// The machine of a number, which is made once where its number is that of the one before.
fn machine_of_number(
    alloc: Global,
    made: &mut Option<(u32, Machine)>,
    number: u32,
) -> Result<Machine, AllocError> {
    if let Some((of, machine)) = made {
        if *of == number {
            return machine.copy(alloc);
        }
    }
    let machine = make_machine(alloc, number)?;
    *made = Some((number, machine.copy(alloc)?));
    Ok(machine)
}

// Puts bytes into an image of a machine, and answers whether they lie inside.
fn rewrite(machine: &mut Machine, image: ImageName, at: usize, bytes: &[u8]) -> bool {
    match image {
        ImageName::Flash => machine.rewrite(at, bytes),
        ImageName::Disk => machine.disk.rewrite(at, bytes),
        ImageName::Stick => machine.stick.rewrite(at, bytes),
    }
}

// Works a line, and answers the machine after it.
fn work<R: Print + AllocGlobal>(
    rt: &R,
    made: &mut Option<(u32, Machine)>,
    kept: &mut Option<Machine>,
    mut machine: Machine,
    words: &[String],
    number: u64,
) -> io::Result<Machine> {
    let alloc = rt.alloc();
    match line_of(alloc, words) {
        None => {
            println!(rt; "  line {number} has no form of a case")?;
            Ok(machine)
        }
        Some(Line::Machine(number)) => Ok(machine_of_number(alloc, made, number)?),
        Some(Line::Erased(size)) => Ok(Machine::erased(alloc, size)?),
        Some(Line::Disk(sectors)) => {
            machine.disk = DriveImage::zeros(alloc, sectors)?;
            Ok(machine)
        }
        Some(Line::Stick(sectors)) => {
            machine.stick = DriveImage::zeros(alloc, sectors)?;
            Ok(machine)
        }
        Some(Line::Rewrite(image, at, bytes)) => {
            if !rewrite(&mut machine, image, at as usize, &bytes) {
                println!(rt; "  line {number} is not inside the image")?;
            }
            Ok(machine)
        }
        Some(Line::Space(SpaceName::Firmware, bytes)) => {
            machine.firmware = SpaceImage::of(&bytes);
            Ok(machine)
        }
        Some(Line::Space(SpaceName::Kernel, bytes)) => {
            machine.kernel = SpaceImage::of(&bytes);
            Ok(machine)
        }
        Some(Line::Accept(rows)) => {
            if !machine.accept(&rows)? {
                println!(rt; "  line {number} has no room for its row")?;
            }
            Ok(machine)
        }
        Some(Line::Keep) => {
            *kept = Some(machine.copy(alloc)?);
            Ok(machine)
        }
        Some(Line::Again) => {
            let Some(before) = kept else {
                println!(rt; "  line {number} has no machine that was kept")?;
                return Ok(machine);
            };
            Ok(before.copy(alloc)?)
        }
        Some(Line::Each(device, from)) => {
            if from <= words.len() {
                let words = &words[from..];
                run_each(rt, &machine, words, device, Remains::Old, "old")?;
                run_each(rt, &machine, words, device, Remains::New, "new")?;
                run_each(rt, &machine, words, device, Remains::Fill(0), "zeros")?;
            }
            Ok(machine)
        }
        Some(Line::Words) => {
            let ran = run_on(alloc, &machine, words, None)?;
            print_run(rt, &machine, &ran)?;
            Ok(ran.after)
        }
    }
}

fn main(rt: HostRuntime) -> io::Result<()> {
    let mut machine = Machine::erased(rt.alloc(), 0)?;
    let mut made = None;
    let mut kept = None;
    let mut number = 0u64;
    for line in rt.lines(rt.alloc()) {
        let line = line?;
        number = number.saturating_add(1);
        let text = line.as_str();
        if text.is_empty() || text.starts_with('#') {
            continue;
        }
        println!(rt; "{text}")?;
        let words = words_of(rt.alloc(), text)?;
        machine = work(&rt, &mut made, &mut kept, machine, &words, number)?;
    }
    Ok(())
}
