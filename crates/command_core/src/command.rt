// The words after the program's name, as the command that they ask for.
ghost use Rattle.std.specs.Prelude.{◌≡◌, ◌≤◌, ◌<◌, ◌^◌, ◌↔◌, ◌∷◌, [], ℕ, List, IsTrue, IfSome, IfNone, IfOk, map, string_bytes, codes, decimal};
ghost use Rattle.board_core.specs.declared.device.Drive.{Drive};
ghost use Rattle.command_core.specs.Commands.{partition_words, AreShowWords, IsRead, IsReadPlain, IsInRange};

use crate::switch_words::switches_behind;
use board_core::Drive;
use boot_core::Switches;
use cgpt_core::{CgptCall, WordFault};
use std::alloc::Global;
use text_core::Text;

/// A command of the program.
#[derive(Clone, Copy, Debug, PartialEq, Eq)]
pub enum Command {
    /// One boot, with these switches.
    Boot(Switches),
    /// The firmware of the flash as text.
    ShowFlash,
    /// The images of the machine of this number.
    Make(u32),
    /// The kernel in a partition of a drive, as text.
    ShowPartition {
        /// The drive.
        drive: Drive,
        /// The index of the partition; entries have those from 1 to 128.
        index: u32,
    },
    /// A command on the partition table of a drive.
    Cgpt(CgptCall),
    /// The crossystem tool, whose words are those behind the first one.
    Crossystem,
    /// The kernel space of the TPM is to be brought into its newer form.
    Migrate,
}

/// The command of these words.
///
/// `Usage`: exactly where they are no command, unless one of their values is out of its range. `BadValue`: exactly where they are
/// those of a command on a partition table but for such a value. `Memory`: there was no memory to read the words of one.
pub fn command_of(alloc: Global, words: &[String]) -> Result<Command, WordFault>
    ensures read { IsRead (map string_bytes words.now) result }
    ensures in_range { IfOk result (λ command. IsInRange command) }
{
    let Some(rest) = behind(words, b"cgpt") else {
        return plain_command(words).ok_or(WordFault::Usage);
    };
    let call = cgpt_core::words(alloc, rest)?;
    Ok(Command::Cgpt(call))
}

/// The words behind the first one, where that is this one.
pub fn behind<'a>(words: &'a [String], first: &[u8]) -> Option<&'a [String]>
    ensures some { IfSome result (λ rest. map string_bytes words.now ≡ first.now ∷ map string_bytes rest.now) }
    ensures none { IfNone result ((rest : List (List ℕ)) → map string_bytes words.now ≡ first.now ∷ rest → ⊥) }
{
    match words {
        [word, rest @ ..] if word.as_bytes() == first => Some(rest),
        _ => None,
    }
}

// The command of these words, where it is none on a partition table.
fn plain_command(words: &[String]) -> Option<Command>
    ensures read { IsReadPlain (map string_bytes words.now) result }
    ensures in_range { IfSome result (λ command. IsInRange command) }
{
    if let Some(sw) = switches_behind(words) {
        Some(Command::Boot(sw))
    } else if are_three(words, b"futility", b"show", b"flash") {
        Some(Command::ShowFlash)
    } else if let Some(number) = number_behind(words, b"make") {
        Some(Command::Make(number))
    } else if let Some(_rest) = behind(words, b"crossystem") {
        Some(Command::Crossystem)
    } else if is_one(words, b"migrate") {
        Some(Command::Migrate)
    } else {
        partition_command(words)
    }
}

/// Whether there is one word, and it is this one.
pub fn is_one(words: &[String], only: &[u8]) -> bool
    ensures { IsTrue result ↔ (map string_bytes words.now ≡ only.now ∷ []) }
{
    match words {
        [word] => word.as_bytes() == only,
        _ => false,
    }
}

fn are_two(words: &[String], first: &[u8], second: &[u8]) -> bool
    ensures { IsTrue result ↔ (map string_bytes words.now ≡ first.now ∷ second.now ∷ []) }
{
    match words {
        [word, others @ ..] => word.as_bytes() == first && is_one(others, second),
        _ => false,
    }
}

fn are_three(words: &[String], first: &[u8], second: &[u8], third: &[u8]) -> bool
    ensures { IsTrue result ↔ (map string_bytes words.now ≡ first.now ∷ second.now ∷ third.now ∷ []) }
{
    match words {
        [word, others @ ..] => word.as_bytes() == first && are_two(others, second, third),
        _ => false,
    }
}

// The command that shows a partition.
fn partition_command(words: &[String]) -> Option<Command>
    ensures some { IfSome result (AreShowWords (map string_bytes words.now)) }
    ensures none { IfNone result ((drive : Drive) → (index : ℕ) → index < 2 ^ 32
        → map string_bytes words.now ≡ partition_words drive index → ⊥) }
{
    let show = behind(words, b"futility")?;
    let drive = behind(show, b"show")?;
    if let Some(index) = number_behind(drive, b"disk") {
        return Some(Command::ShowPartition {
            drive: Drive::Disk,
            index,
        });
    }
    let index = number_behind(drive, b"stick")?;
    Some(Command::ShowPartition {
        drive: Drive::Stick,
        index,
    })
}

// The number behind a word, where there are these two words.
fn number_behind(words: &[String], first: &[u8]) -> Option<u32>
    ensures some { IfSome result (λ number. map string_bytes words.now ≡ first.now ∷ decimal number ∷ []) }
    ensures none { IfNone result ((number : ℕ) → number < 2 ^ 32 → map string_bytes words.now ≡ first.now ∷ decimal number ∷ [] → ⊥) }
{
    match words {
        [word, number] if word.as_bytes() == first => number_in(number.as_str()),
        _ => None,
    }
}

// The number that these digits write: without a sign, and with no zero in front of others.
fn number_in(word: &str) -> Option<u32>
    ensures some { IfSome result (λ number. word.now ≡ decimal number) }
    ensures none { IfNone result ((number : ℕ) → number < 2 ^ 32 → word.now ≡ decimal number → ⊥) }
{
    let Ok(number) = word.parse::<u32>() else {
        return None;
    };
    let mut text = Text::new();
    text.push_decimal(u64::from(number));
    if text.as_slice() == word.as_bytes() {
        Some(number)
    } else {
        None
    }
}
