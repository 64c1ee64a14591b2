// What is printed of a run: its lines, its status, and the bytes that changed, with their places.
use crate::machine::Machine;
use crate::running::Ran;
use hex::encode;
use std::alloc::Global;
use std::io;

/// The most bytes of one change that are printed in full.
const MOST_SHOWN: usize = 32;

/// The most changes that are printed.
const MOST_CHANGES: usize = 8;

// The end of the changed bytes that begin at a place: up to the next byte that is the same.
fn end_of_change(old: &[u8], new: &[u8], from: usize) -> usize {
    let mut end = from;
    if from > old.len() || from > new.len() {
        return end;
    }
    for (was, is) in old[from..].iter().zip(&new[from..]) {
        if *was == *is {
            break;
        }
        end = end.saturating_add(1);
    }
    end
}

// The first byte from a place on that changed.
fn next_change(old: &[u8], new: &[u8], from: usize) -> Option<usize> {
    if from > old.len() || from > new.len() {
        return None;
    }
    old[from..]
        .iter()
        .zip(&new[from..])
        .position(|(was, is)| *was != *is)
        .map(|ahead| from.saturating_add(ahead))
}

fn print_change<R: Print + AllocGlobal>(
    rt: &R,
    name: &str,
    at: usize,
    was: &[u8],
    is: &[u8],
) -> io::Result<()> {
    let count = is.len();
    if count > MOST_SHOWN {
        return println!(rt; "  {name} {at} {count} bytes");
    }
    let old = encode(rt.alloc(), was)?;
    let new = encode(rt.alloc(), is)?;
    println!(rt; "  {name} {at} {old} {new}")
}

// The bytes of an image that changed.
fn print_changes<R: Print + AllocGlobal>(
    rt: &R,
    name: &str,
    old: &[u8],
    new: &[u8],
) -> io::Result<()> {
    if old.len() != new.len() {
        let was = encode(rt.alloc(), old)?;
        let is = encode(rt.alloc(), new)?;
        return println!(rt; "  {name} {was} {is}");
    }
    let mut from = 0;
    for _ in 0..MOST_CHANGES {
        let Some(at) = next_change(old, new, from) else {
            return Ok(());
        };
        let end = end_of_change(old, new, at);
        if at >= end || end > old.len() || end > new.len() {
            return Ok(());
        }
        print_change(rt, name, at, &old[at..end], &new[at..end])?;
        from = end;
    }
    match next_change(old, new, from) {
        Some(_) => println!(rt; "  {name} and more"),
        None => Ok(()),
    }
}

/// Prints what a run came to.
pub fn print_run<R: Print + AllocGlobal>(rt: &R, before: &Machine, ran: &Ran) -> io::Result<()> {
    let status = ran.status;
    let text = ran.text.to_vec(rt.alloc())?;
    if let Ok(text) = String::from_utf8(text) {
        for line in text.as_str().lines() {
            println!(rt; "  {line}")?;
        }
    }
    println!(rt; "  status {status}")?;
    print_changes(rt, "flash", &before.flash, &ran.after.flash)?;
    let (firmware, kernel) = (before.firmware, before.kernel);
    let (new_firmware, new_kernel) = (ran.after.firmware, ran.after.kernel);
    print_changes(rt, "firmware", firmware.as_slice(), new_firmware.as_slice())?;
    print_changes(rt, "kernel", kernel.as_slice(), new_kernel.as_slice())?;
    let (disk, stick) = (&before.disk, &before.stick);
    print_changes(rt, "disk", disk.as_slice(), ran.after.disk.as_slice())?;
    print_changes(rt, "stick", stick.as_slice(), ran.after.stick.as_slice())?;
    let (rows, new_rows) = (before.rows.len(), ran.after.rows.len());
    if rows == new_rows {
        return Ok(());
    }
    println!(rt; "  rows {rows} {new_rows}")
}

/// Prints in one line what the next run came to, which had no failing call.
pub fn print_next<R: Print + AllocGlobal>(rt: &R, ran: &Ran) -> io::Result<()> {
    let status = ran.status;
    print!(rt; "  then")?;
    let text = ran.text.to_vec(rt.alloc())?;
    if let Ok(text) = String::from_utf8(text) {
        for line in text.as_str().lines() {
            print!(rt; " {line},")?;
        }
    }
    println!(rt; " status {status}")
}
