//! The boot decision as a program: it works on the images of a machine in the current folder.
//!
//! `opening` opens the board over these images. What a command does to it and prints is `command_core`'s.
#![tactic(auto)]

ghost use Rattle.std.specs.Prelude.{◌≡◌, drop, map, string_bytes, IfOk, MatchResult};
ghost use Rattle.std.specs.Vec.Iter.{into_iter_items};
ghost use Rattle.std.specs.IoError.{error_kind};
ghost use Rattle.std.specs.Process.{exit_status};
ghost use Rattle.board_core.specs.World.{world};
ghost use Rattle.command_core.specs.Commands.{IsCommand};
ghost use Rattle.command_core.specs.Prints.{Prints};
ghost use Rattle.vboot_tool.specs.Opening.{IsSettledBoard};
ghost use Rattle.vboot_tool.specs.Starting.{RunsFrom, StartsBy, EndsBy, LacksWords};

mod opening;

use board_core::{Disk, Flash, Hook, Platform, Sink, Tpm};
use board_file::{Folder, Handle, OpenFault, StdSink};
use command_core::{Answer, Status, command_of, print, run};
use opening::open_board;
use std::alloc::{AllocError, Global};
use std::env::Args;
use std::fs::File;
use std::process::ExitCode;
use std::random::RandomSource;
use std::rt::Files;
use std::{env, io};

// The words after the program's name, of the words of a process.
fn words_after_name(alloc: Global, process: Args) -> Result<Vec<String>, AllocError>
    ensures { IfOk result (λ words. words.items ≡ drop 1 (into_iter_items process)) }
{
    let mut words = Vec::new(alloc);
    let mut rest = process;
    let _name = rest.next();
    for word in rest {
        words.push(word)?;
    }
    Ok(words)
}

// A standard stream that was closed leaves its number to the next file that is opened, and what is printed would go into an image.
// So each of the three is taken by the folder, which takes nothing, where it is free. Where one stays free, the folder is not had
// afterwards, and no image is opened.
fn hold_streams<R: Files>(rt: &R) -> [Option<R::File>; 3] {
    [
        File::open(rt, ".").ok(),
        File::open(rt, ".").ok(),
        File::open(rt, ".").ok(),
    ]
}

// 32 random bytes, of which the GUIDs of a run are made. Where the system has none to give, they are as far as it filled them.
fn seed<R: RandomSource>(rt: &R) -> [u8; 32] {
    let mut seed = [0; 32];
    let _ = rt.fill_bytes(&mut seed);
    seed
}

// Runs these words over a board, or tells why it was not opened.
fn run_over<
    F: Flash + Drop,
    T: Tpm + Drop,
    D: Disk + Drop,
    E: Disk + Drop,
    H: Hook + Drop,
    O: Sink,
>(
    alloc: Global,
    words: &[String],
    seed: [u8; 32],
    opened: Result<Platform<F, T, D, E, H>, OpenFault>,
    out: &mut O,
) -> Status
    requires { IfOk opened (λ board. IsSettledBoard board) }
    ensures ends { MatchResult opened
        (λ board. RunsFrom (map string_bytes words.now) (world F.state T.state H.state board) (O.state out.old) (O.state out.new) result)
        (λ fault. Prints (Answer.Unopened fault) (O.state out.old) (O.state out.new) result) }
    ensures starts { IsCommand (map string_bytes words.now)
        → StartsBy (map string_bytes words.now) (O.state out.old) (O.state out.new) result }
{
    match opened {
        Ok(mut board) => run(alloc, words, seed, &mut board, out),
        Err(fault) => print(out, &Answer::Unopened(fault)),
    }
}

// Runs these words over the files of the current folder. Words that are refused do not take it, so they are read before.
fn run_here<R: Files + RandomSource + AllocGlobal, O: Sink>(
    rt: &R,
    words: &[String],
    out: &mut O,
) -> Status
where
    R::File: Handle,
    ensures { StartsBy (map string_bytes words.now) (O.state out.old) (O.state out.new) result }
{
    match command_of(rt.alloc(), words) {
        Ok(_) => run_in_folder(rt, words, out),
        Err(fault) => print(out, &Answer::of_words(fault)),
    }
}

// Runs the words of a command over the current folder, which no other run has meanwhile.
fn run_in_folder<R: Files + RandomSource + AllocGlobal, O: Sink>(
    rt: &R,
    words: &[String],
    out: &mut O,
) -> Status
where
    R::File: Handle,
    requires { IsCommand (map string_bytes words.now) }
    ensures { StartsBy (map string_bytes words.now) (O.state out.old) (O.state out.new) result }
{
    match Folder::take(rt) {
        Ok(folder) => run_over(
            rt.alloc(),
            words,
            seed(rt),
            open_board(rt.alloc(), &folder),
            out,
        ),
        Err(fault) => print(out, &Answer::Unopened(fault)),
    }
}

// Runs the words of a process, of which the first is the program's name, and ends with the status of the command.
fn run_process<R: Files + RandomSource + AllocGlobal, O: Sink>(
    rt: &R,
    process: Args,
    out: &mut O,
) -> ExitCode
where
    R::File: Handle,
    ensures { EndsBy (map string_bytes (drop 1 (into_iter_items process))) (O.state out.old) (O.state out.new) (exit_status result) }
{
    let Ok(words) = words_after_name(rt.alloc(), process) else {
        return ExitCode::from(print(out, &Answer::Unopened(OpenFault::Memory)).code());
    };
    ExitCode::from(run_here(rt, &words, out).code())
}

// The words of the process cannot be had: one is no text, or memory is wanting. Nothing is run.
fn refuse<O: Sink>(error: &io::Error, out: &mut O) -> ExitCode
    ensures { LacksWords (error_kind error.now) (O.state out.old) (O.state out.new) (exit_status result) }
{
    if error.kind() == io::ErrorKind::OutOfMemory {
        return ExitCode::from(print(out, &Answer::Unopened(OpenFault::Memory)).code());
    }
    ExitCode::from(print(out, &Answer::Usage).code())
}

fn main(rt: HostRuntime) -> ExitCode {
    let _held = hold_streams(&rt);
    let mut out = StdSink::new(io::writer(&rt));
    match env::args(&rt) {
        Ok(process) => run_process(&rt, process, &mut out),
        Err(error) => refuse(&error, &mut out),
    }
}
