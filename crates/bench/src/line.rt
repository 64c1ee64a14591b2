// A line of the script of cases.
use board_core::HookRow;
use board_file::read_hook;
use hex::decode;
use std::alloc::Global;

/// A space of the TPM, by its name in a line.
#[derive(Clone, Copy, Debug, PartialEq, Eq)]
pub enum SpaceName {
    Firmware,
    Kernel,
}

/// An image of a machine, by its name in a line.
#[derive(Clone, Copy, Debug, PartialEq, Eq)]
pub enum ImageName {
    Flash,
    Disk,
    Stick,
}

impl ImageName {
    fn named(name: &str) -> Option<ImageName> {
        match name {
            "flash" => Some(ImageName::Flash),
            "disk" => Some(ImageName::Disk),
            "stick" => Some(ImageName::Stick),
            _ => None,
        }
    }
}

/// A device whose calls fail in turn.
#[derive(Clone, Copy, Debug, PartialEq, Eq)]
pub enum Failing {
    Flash,
    Tpm,
    Disk,
    Stick,
    Hook,
    Sink,
}

impl Failing {
    /// The device of this name.
    pub fn named(name: &str) -> Option<Failing> {
        match name {
            "flash" => Some(Failing::Flash),
            "tpm" => Some(Failing::Tpm),
            "disk" => Some(Failing::Disk),
            "stick" => Some(Failing::Stick),
            "hook" => Some(Failing::Hook),
            "sink" => Some(Failing::Sink),
            _ => None,
        }
    }
}

/// What a line asks for.
#[derive(Drop)]
pub enum Line {
    /// The machine of this number is made.
    Machine(u32),
    /// A machine whose flash has so many erased bytes.
    Erased(u32),
    /// The disk of the machine has so many sectors of zeros.
    Disk(u32),
    /// Its stick has.
    Stick(u32),
    /// Bytes are put into an image of the machine, from a place.
    Rewrite(ImageName, u32, Vec<u8>),
    /// A space of the machine has these bytes.
    Space(SpaceName, Vec<u8>),
    /// The machine accepts these signatures.
    Accept(Vec<HookRow>),
    /// The machine is kept as it is.
    Keep,
    /// The kept machine is taken once more.
    Again,
    /// These words are run with each call of a device failing in turn.
    Each(Failing, usize),
    /// These words are run.
    Words,
}

fn number_in(word: &str) -> Option<u32> {
    word.parse::<u32>().ok()
}

// The bytes of pairs of hexadecimal digits; a dash is none.
fn bytes_in(alloc: Global, word: &str) -> Option<Vec<u8>> {
    if word == "-" {
        return Some(Vec::new(alloc));
    }
    decode(alloc, word).ok()
}

// The accepted signature of an algorithm, a key, a digest and a signature, by the format of their file.
fn rows_in(
    alloc: Global,
    algorithm: &str,
    key: &str,
    digest: &str,
    signature: &str,
) -> Option<Vec<HookRow>> {
    let text = format!(in alloc;
        "[[row]]\nalgorithm = {algorithm}\nkey = \"{key}\"\ndigest = \"{digest}\"\nsignature = \"{signature}\"\n"
    ).ok()?;
    read_hook(alloc, text.as_str()).ok()
}

fn space_named(name: &str) -> Option<SpaceName> {
    match name {
        "firmware" => Some(SpaceName::Firmware),
        "kernel" => Some(SpaceName::Kernel),
        _ => None,
    }
}

// The number that these words are.
fn one_number(words: &[String]) -> Option<u32> {
    match words {
        [number] => number_in(number.as_str()),
        _ => None,
    }
}

// The image, the place and the bytes that these words are.
fn rewrite_in(alloc: Global, words: &[String]) -> Option<Line> {
    let [image, place, digits] = words else {
        return None;
    };
    let image = ImageName::named(image.as_str())?;
    let place = number_in(place.as_str())?;
    Some(Line::Rewrite(image, place, bytes_in(alloc, digits.as_str())?))
}

// The space and its bytes that these words are.
fn space_in(alloc: Global, words: &[String]) -> Option<Line> {
    let [space, digits] = words else {
        return None;
    };
    let space = space_named(space.as_str())?;
    Some(Line::Space(space, bytes_in(alloc, digits.as_str())?))
}

// The signature that these words are.
fn signature_in(alloc: Global, words: &[String]) -> Option<Line> {
    let [algorithm, key, digest, signature] = words else {
        return None;
    };
    let rows = rows_in(
        alloc,
        algorithm.as_str(),
        key.as_str(),
        digest.as_str(),
        signature.as_str(),
    )?;
    Some(Line::Accept(rows))
}

// The device that these words begin with; the others are a command.
fn each_in(words: &[String]) -> Option<Line> {
    match words {
        [device, ..] => Some(Line::Each(Failing::named(device.as_str())?, 2)),
        [] => None,
    }
}

// The line, where no word is left.
fn alone(words: &[String], line: Line) -> Option<Line> {
    if words.is_empty() { Some(line) } else { None }
}

// The line of a verb that changes the machine, and of the words behind it; the outer `None` where it is no such verb.
fn change_in(alloc: Global, verb: &str, words: &[String]) -> Option<Option<Line>> {
    match verb {
        "machine" => Some(one_number(words).map(Line::Machine)),
        "erased" => Some(one_number(words).map(Line::Erased)),
        "disk" => Some(one_number(words).map(Line::Disk)),
        "stick" => Some(one_number(words).map(Line::Stick)),
        "rewrite" => Some(rewrite_in(alloc, words)),
        "space" => Some(space_in(alloc, words)),
        "row" => Some(signature_in(alloc, words)),
        "keep" => Some(alone(words, Line::Keep)),
        "again" => Some(alone(words, Line::Again)),
        _ => None,
    }
}

/// What the words of a line ask for; `None` where they are of no form.
pub fn line_of(alloc: Global, words: &[String]) -> Option<Line> {
    let [verb, ..] = words else {
        return None;
    };
    let rest = &words[1..];
    if verb.as_str() == "each" {
        return each_in(rest);
    }
    match change_in(alloc, verb.as_str(), rest) {
        Some(line) => line,
        None => Some(Line::Words),
    }
}
