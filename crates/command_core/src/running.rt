// The top call: a command by its words, and its answer in print.
ghost use Rattle.std.specs.Prelude.{◌≡◌, drop, map, string_bytes, Ok};
ghost use Rattle.board_core.specs.World.{world};
ghost use Rattle.boot_core.specs.Carries.{IsSettled};
ghost use Rattle.command_core.specs.Run.{RunsBy, Runs};

use crate::answer::{Answer, Status};
use crate::booting::run_boot;
use crate::command::{Command, command_of};
use crate::crossing::run_crossystem;
use crate::kernel_showing::run_show_partition;
use crate::making::run_make;
use crate::migrating::run_migrate;
use crate::partitions::run_cgpt;
use crate::printing::print;
use crate::showing::run_show;
use board_core::{Disk, Flash, Hook, Platform, Sink, Tpm};
use cgpt_core::guid_of_run;
use std::alloc::Global;

/// Works the command that these words name, which follow the program's name, on a board on whose disks nothing is pending,
/// prints its answer, and answers the exit status. The GUID that a command may use is made of the seed. Words that are refused
/// leave the board as it is.
pub fn run<F: Flash, T: Tpm, D: Disk, E: Disk, H: Hook, O: Sink>(
    alloc: Global,
    words: &[String],
    seed: [u8; 32],
    p: &mut Platform<F, T, D, E, H>,
    out: &mut O,
) -> Status
    requires { IsSettled (world F.state T.state H.state p.old) }
    ensures { Runs (map string_bytes words.now) seed (world F.state T.state H.state p.old) (world F.state T.state H.state p.new)
        (O.state out.old) (O.state out.new) result }
{
    match command_of(alloc, words) {
        Ok(command) => run_command(alloc, words, command, &seed, p, out),
        Err(fault) => print(out, &Answer::of_words(fault)),
    }
}

// Works the command of these words on a board, and prints its answer.
fn run_command<F: Flash, T: Tpm, D: Disk, E: Disk, H: Hook, O: Sink>(
    alloc: Global,
    words: &[String],
    command: Command,
    seed: &[u8; 32],
    p: &mut Platform<F, T, D, E, H>,
    out: &mut O,
) -> Status
    requires { IsSettled (world F.state T.state H.state p.old) }
    ensures { RunsBy (map string_bytes words.now) seed.now (Ok command) (world F.state T.state H.state p.old) (world F.state T.state H.state p.new) (O.state out.old)
        (O.state out.new) result }
{
    match command {
        Command::Boot(sw) => run_boot(alloc, p, sw, out),
        Command::ShowFlash => run_show(p, out),
        Command::Make(number) => run_make(p, number, out),
        Command::ShowPartition { drive, index } => {
            run_show_partition(alloc, p, drive, index, out)
        }
        Command::Cgpt(call) => run_cgpt(alloc, p, &call, guid_of_run(seed, 0), out),
        Command::Crossystem => run_crossystem(p, words_behind(words), out),
        Command::Migrate => run_migrate(p, out),
    }
}

// The words behind the first one.
fn words_behind(words: &[String]) -> &[String]
    ensures { map string_bytes result.now ≡ drop 1 (map string_bytes words.now) }
{
    match words {
        [_, rest @ ..] => rest,
        [] => words,
    }
}
