// The words that set the switches of a boot.
ghost use Rattle.std.specs.Prelude.{◌≡◌, map, string_bytes, codes, IfSome, IfNone};
ghost use Rattle.boot_core.specs.declared.switches.Choice.{Choice};
ghost use Rattle.boot_core.specs.declared.switches.Switches.{Switches};
ghost use Rattle.command_core.specs.Commands.{choice_words, switch_words, boot_words, Splits};

use crate::command::{behind, is_one};
use boot_core::{Choice, Switches};

/// The switches that the words behind `boot` set, in this order: `recovery`, `enable-dev`, and `internal` or `external`. Each may
/// be left out.
pub fn switches_behind(words: &[String]) -> Option<Switches>
    ensures some { IfSome result (λ sw. map string_bytes words.now ≡ boot_words sw) }
    ensures none { IfNone result ((sw : Switches) → map string_bytes words.now ≡ boot_words sw → ⊥) }
{
    let rest = behind(words, b"boot")?;
    switches_in(rest)
}

fn switches_in(words: &[String]) -> Option<Switches>
    ensures some { IfSome result (λ sw. map string_bytes words.now ≡ switch_words sw) }
    ensures none { IfNone result ((sw : Switches) → map string_bytes words.now ≡ switch_words sw → ⊥) }
{
    let (recovery, rest) = split(words, b"recovery");
    let (enable_dev, rest) = split(rest, b"enable-dev");
    let choice = choice_in(rest)?;
    Some(Switches {
        recovery,
        enable_dev,
        choice,
    })
}

// Whether the first word is this one, and the words behind it.
fn split<'a>(words: &'a [String], first: &[u8]) -> (bool, &'a [String])
    ensures { Splits first.now (map string_bytes words.now) result.0 (map string_bytes result.1.now) }
{
    match behind(words, first) {
        Some(rest) => (true, rest),
        None => (false, words),
    }
}

// The drive that is chosen, or none.
fn choice_in(words: &[String]) -> Option<Choice>
    ensures some { IfSome result (λ choice. map string_bytes words.now ≡ choice_words choice) }
    ensures none { IfNone result ((choice : Choice) → map string_bytes words.now ≡ choice_words choice → ⊥) }
{
    if words.is_empty() {
        Some(Choice::Default)
    } else if is_one(words, b"internal") {
        Some(Choice::Internal)
    } else if is_one(words, b"external") {
        Some(Choice::External)
    } else {
        None
    }
}
