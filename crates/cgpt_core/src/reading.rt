// The words of a command, read by `clap` as those of one simple command.
ghost use Rattle.std.specs.Prelude.{◌≡◌, ◌⊎◌, [], fold, map, IfOk, OnOk, Ok, Err};
ghost use Rattle.std.specs.String.{string_bytes};
ghost use Rattle.clap.specs.Walk.{rows_of};
ghost use Rattle.clap.specs.Words.{app_of, found_of, with_rule};
ghost use Rattle.cgpt_core.specs.Words as spec;
ghost use Rattle.cgpt_core.specs.Words.{app_named, faults_of, rows_in, IsRefusal};

use crate::call::{CgptCall, CgptCommand, WordFault};
use crate::options::call_in;
use clap::error::ErrorKind;
use clap::{Arg, ArgAction, ArgMatches, Command};
use std::alloc::{AllocError, Global};

/// Reads the words of a command, of which the first is its name. DRIVE, `disk` or `stick`, is the one word that belongs to no
/// option. The options of `add` are `-i`, `-b`, `-s`, `-t`, `-u`, `-l`, `-S`, `-T`, `-P` and `-A`, those of `prioritize` `-i`, `-P`
/// and the flag `-f`, and those of `find` `-t`, `-u` and `-l`; `create`, `repair` and `show` have none.
///
/// `-i` is from 1 to 128, `-b` and `-s` count sectors from 0 to 2^64 - 1, `-S` is 0 or 1, `-T` and `-P` are from 0 to 15, but `-P`
/// of `prioritize` from 1 on, and `-A` is from 0 to 65535; a number is `0` or decimal digits without a leading zero and without a
/// sign. `-t` is `kernel`, `rootfs`, `efi`, `data`, `unused` or a GUID, `-u` a GUID, and `-l` a text of at most 36 units of UTF-16.
///
/// `Usage`: exactly where the first word is no command, or `clap` does not take the words as those of the simple command with
/// these options and the one required word DRIVE, as where they ask for help. `BadValue`: exactly where it takes them, and DRIVE
/// is neither word or the value of an option is none of those above, or `-u` is the GUID of all zeros, or `-t` of `find` stands
/// for it. `Memory`: there was no memory.
pub fn words(alloc: Global, words: &[String]) -> Result<CgptCall, WordFault>
    ensures { (result ≡ Err WordFault.Memory) ⊎ (result ≡ spec.call_of (map string_bytes words.now)) }
{
    let Some(first) = words.first() else {
        return Err(WordFault::Usage);
    };
    let Some(command) = command_named(first.as_str()) else {
        return Err(WordFault::Usage);
    };
    let matches = match read_words(alloc, command, first.as_str(), words) {
        Ok(matches) => matches,
        Err(fault) => return Err(fault),
    };
    match call_in(command, &matches) {
        Some(call) => Ok(call),
        None => Err(WordFault::BadValue),
    }
}

fn command_named(word: &str) -> Option<CgptCommand>
    ensures { result ≡ spec.command_named word.now }
{
    match word {
        "create" => Some(CgptCommand::Create),
        "add" => Some(CgptCommand::Add),
        "prioritize" => Some(CgptCommand::Prioritize),
        "repair" => Some(CgptCommand::Repair),
        "show" => Some(CgptCommand::Show),
        "find" => Some(CgptCommand::Find),
        _ => None,
    }
}

// What `clap` reads of the words.
fn read_words<'a>(
    alloc: Global,
    command: CgptCommand,
    name: &'a str,
    words: &'a [String],
) -> Result<ArgMatches<'a>, WordFault>
    ensures taken { OnOk result (faults_of command name.now (map string_bytes words.now) ≡ []) }
    ensures rows { IfOk result (λ matches. rows_of (found_of matches) ≡ rows_in command name.now (map string_bytes words.now)) }
    ensures refused { IsRefusal (faults_of command name.now (map string_bytes words.now)) result }
{
    let Ok(app) = make_command(alloc, command, name) else {
        return Err(WordFault::Memory);
    };
    match app.try_get_matches_from(words) {
        Ok(matches) => Ok(matches),
        Err(error) => Err(fault_of_error(error.kind())),
    }
}

// A command with its options.
fn make_command<'a>(
    alloc: Global,
    command: CgptCommand,
    name: &'a str,
) -> Result<Command<'a>, AllocError>
    ensures { IfOk result (λ app. app_of app ≡ app_named command name.now) }
{
    let options = with_options(alloc, command, Command::new(alloc, name))?;
    options.arg(Arg::new(alloc, "drive").required(true))
}

fn with_options<'a>(
    alloc: Global,
    command: CgptCommand,
    app: Command<'a>,
) -> Result<Command<'a>, AllocError>
    ensures { IfOk result (λ new. app_of new ≡ fold with_rule (app_of app.entry) (spec.option_rules command)) }
{
    match command {
        CgptCommand::Add => with_all_options(alloc, app),
        CgptCommand::Prioritize => with_order(alloc, app),
        CgptCommand::Find => with_names(alloc, app),
        _ => Ok(app),
    }
}

// A command with one more option, of one letter and with one value.
fn with_value<'a>(
    alloc: Global,
    app: Command<'a>,
    id: &'a str,
    letter: char,
) -> Result<Command<'a>, AllocError>
    ensures { IfOk result (λ new. app_of new ≡ with_rule (app_of app.entry) (spec.value_rule id.now letter)) }
{
    app.arg(Arg::new(alloc, id).short(letter))
}

// A command with one more flag.
fn with_flag<'a>(
    alloc: Global,
    app: Command<'a>,
    id: &'a str,
    letter: char,
) -> Result<Command<'a>, AllocError>
    ensures { IfOk result (λ new. app_of new ≡ with_rule (app_of app.entry) (spec.flag_rule id.now letter)) }
{
    let flag = Arg::new(alloc, id).short(letter);
    app.arg(flag.action(ArgAction::SetTrue))
}

// The options of an entry that is added or changed.
fn with_all_options<'a>(alloc: Global, app: Command<'a>) -> Result<Command<'a>, AllocError>
    ensures { IfOk result (λ new. app_of new ≡ fold with_rule (app_of app.entry) (spec.option_rules CgptCommand.Add)) }
{
    let placed = with_place(alloc, app)?;
    let named = with_names(alloc, placed)?;
    with_attributes(alloc, named)
}

fn with_place<'a>(alloc: Global, app: Command<'a>) -> Result<Command<'a>, AllocError>
    ensures { IfOk result (λ new. app_of new ≡ fold with_rule (app_of app.entry) spec.place_rules) }
{
    let app = with_value(alloc, app, "index", 'i')?;
    let app = with_value(alloc, app, "begin", 'b')?;
    with_value(alloc, app, "size", 's')
}

fn with_names<'a>(alloc: Global, app: Command<'a>) -> Result<Command<'a>, AllocError>
    ensures { IfOk result (λ new. app_of new ≡ fold with_rule (app_of app.entry) spec.name_rules) }
{
    let app = with_value(alloc, app, "type", 't')?;
    let app = with_value(alloc, app, "unique", 'u')?;
    with_value(alloc, app, "label", 'l')
}

fn with_attributes<'a>(alloc: Global, app: Command<'a>) -> Result<Command<'a>, AllocError>
    ensures { IfOk result (λ new. app_of new ≡ fold with_rule (app_of app.entry) spec.attribute_rules) }
{
    let app = with_value(alloc, app, "successful", 'S')?;
    let app = with_value(alloc, app, "tries", 'T')?;
    let app = with_value(alloc, app, "priority", 'P')?;
    with_value(alloc, app, "attributes", 'A')
}

// The options of an entry that is ordered.
fn with_order<'a>(alloc: Global, app: Command<'a>) -> Result<Command<'a>, AllocError>
    ensures { IfOk result (λ new. app_of new ≡ fold with_rule (app_of app.entry) spec.order_rules) }
{
    let app = with_value(alloc, app, "index", 'i')?;
    let app = with_value(alloc, app, "priority", 'P')?;
    with_flag(alloc, app, "friends", 'f')
}

fn fault_of_error(kind: ErrorKind) -> WordFault
    ensures { result ≡ spec.fault_of_kind kind }
{
    match kind {
        ErrorKind::OutOfMemory => WordFault::Memory,
        _ => WordFault::Usage,
    }
}
