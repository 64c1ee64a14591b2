// The words of a call: what each asks for, and which is refused.
ghost use Rattle.std.specs.Prelude.{◌≡◌, ◌<◌, map, position, length, get_or, [], IfSome};
ghost use Rattle.std.specs.String.{string_bytes};
ghost use Rattle.crossystem_core.specs.Settings.{FitsField, setting_in};
ghost use Rattle.crossystem_core.specs.Words as spec;

use crate::fault::{CrossCode, SetFault};
use crate::key::{Key, find_named};
use crate::setting::{Setting, setting_of};
use crate::showing::{CrossView, is_text};

/// The sign of a word.
#[derive(Clone, Copy, Debug, PartialEq, Eq)]
pub(crate) enum Sign {
    // None: the value is shown.
    Show,
    // `=`: the key is set.
    Set,
    // `?`: the value is checked.
    Check,
}

/// A word that is refused.
#[derive(Clone, Copy, Debug, PartialEq, Eq)]
pub struct Refusal {
    /// Its number, from 1.
    pub word: u64,
    /// Why.
    pub code: CrossCode,
}

// What a word asks for.
#[derive(Clone, Copy)]
pub(crate) struct Ask<'a> {
    // The key whose name stands before the sign, or none.
    key: Option<Key>,
    sign: Sign,
    // What stands behind the sign.
    text: &'a [u8],
}

fn is_sign(byte: u8) -> bool
    ensures { result ≡ spec.is_sign byte }
{
    byte == b'=' || byte == b'?'
}

// The place of the first sign.
fn first_sign(word: &[u8]) -> Option<usize>
    ensures place { result ≡ position spec.is_sign word.now }
    ensures inside { IfSome result (λ place. place < length word.now) }
{
    word.iter().position(|byte| is_sign(*byte))
}

// What a word asks for.
pub(crate) fn read_word(word: &[u8]) -> Ask<'_>
    ensures key { result.key ≡ spec.key_of word.now }
    ensures sign { result.sign ≡ spec.sign_of word.now }
    ensures text { result.text.now ≡ spec.text_of word.now }
{
    match first_sign(word) {
        Some(place) => Ask {
            key: find_named(&word[..place]),
            sign: sign_with(word[place]),
            text: &word[place + 1..],
        },
        None => Ask {
            key: find_named(word),
            sign: Sign::Show,
            text: &[],
        },
    }
}

fn sign_with(byte: u8) -> Sign
    ensures { result ≡ spec.sign_with byte }
{
    if byte == b'=' { Sign::Set } else { Sign::Check }
}

impl Ask<'_> {
    // Why the word is refused, if it is.
    fn refusal(&self) -> Option<CrossCode>
        ensures { result ≡ spec.refusal_by self.now.key self.now.sign self.now.text.now }
    {
        let Some(key) = self.key else {
            return Some(CrossCode::UnknownKey);
        };
        match self.sign {
            Sign::Set => set_refusal(key, self.text),
            _ => None,
        }
    }

    // What the word sets, if it sets anything.
    pub(crate) fn setting(&self) -> Option<Setting>
        ensures setting { result ≡ spec.setting_asked self.now.key self.now.sign self.now.text.now }
        ensures fits { IfSome result FitsField }
    {
        match (self.key, self.sign) {
            (Some(key), Sign::Set) => setting_of(key, self.text).ok(),
            _ => None,
        }
    }

    // Whether the word asks for another value than the key has.
    pub(crate) fn differs(&self, view: &CrossView) -> bool
        ensures { result ≡ spec.differs_by view.now self.now.key self.now.sign self.now.text.now }
    {
        match (self.key, self.sign) {
            (Some(key), Sign::Check) => !is_text(view, key, self.text),
            _ => false,
        }
    }

    // The key whose value the word shows, if it shows one.
    pub(crate) fn shown(&self) -> Option<Key>
        ensures { result ≡ spec.shown_key self.now.key self.now.sign }
    {
        match self.sign {
            Sign::Show => self.key,
            _ => None,
        }
    }
}

fn set_refusal(key: Key, text: &[u8]) -> Option<CrossCode>
    ensures { result ≡ spec.set_refusal (setting_in key text.now) }
{
    match setting_of(key, text) {
        Ok(_) => None,
        Err(SetFault::ReadOnly) => Some(CrossCode::ReadOnly),
        Err(SetFault::BadValue) => Some(CrossCode::BadValue),
    }
}

// The bytes of a word.
pub(crate) fn word_at(words: &[String], i: usize) -> &[u8]
    requires { i < length words.now }
    ensures { result.now ≡ get_or (map string_bytes words.now) i [] }
{
    words[i].as_bytes()
}

/// The first word of a call that is refused, before anything is read.
pub fn first_refusal(words: &[String]) -> Option<Refusal>
    ensures { result ≡ spec.refused_from 1 (map string_bytes words.now) }
{
    for i in 0..words.len() {
        let asked = read_word(word_at(words, i));
        if let Some(code) = asked.refusal() {
            let word = i as u64 + 1;
            return Some(Refusal { word, code });
        }
    }
    None
}
