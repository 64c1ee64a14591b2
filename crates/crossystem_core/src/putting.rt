// Putting what a call shows, line by line.
ghost use Rattle.std.specs.Prelude.{◌≡◌, map};
ghost use Rattle.std.specs.String.{string_bytes};
ghost use Rattle.board_core.specs.Streams.{PutsText};
ghost use Rattle.crossystem_core.specs.Words.{value_line};
ghost use Rattle.crossystem_core.specs.Running.{list_line, list_of, lines_of, text_of_words};

use crate::key::Key;
use crate::running::Ends;
use crate::showing::{CrossView, push_key};
use crate::words::{read_word, word_at};
use board_core::{Failed, Sink};
use text_core::Text;

// Puts what the words show, or all keys where there are none.
pub(crate) fn put_lines<O: Sink>(
    out: &mut O,
    view: &CrossView,
    words: &[String],
) -> Result<(), Failed>
    ensures { PutsText (text_of_words view.now (map string_bytes words.now)) (O.state out.old) (O.state out.new) result }
{
    if words.is_empty() {
        return put_list(out, view, &Key::all());
    }
    put_words(out, view, words)
}

// Puts the lines of these keys.
fn put_list<O: Sink>(out: &mut O, view: &CrossView, keys: &[Key]) -> Result<(), Failed>
    ensures { PutsText (list_of view.now keys.now) (O.state out.old) (O.state out.new) result }
{
    for key in keys {
        let line = line_of_key(view, *key);
        out.put(line.as_slice())?;
    }
    Ok(())
}

// The line of a key in the list: its name, `=` and its value.
fn line_of_key(view: &CrossView, key: Key) -> Text
    ensures { result ≡ list_line view.now key }
{
    let mut line = Text::new();
    line.push(key.row().name.as_bytes());
    line.push(b"=");
    push_key(&mut line, view, key);
    line.push(b"\n");
    line
}

// Puts what the words show.
fn put_words<O: Sink>(out: &mut O, view: &CrossView, words: &[String]) -> Result<(), Failed>
    ensures { PutsText (lines_of view.now (map string_bytes words.now)) (O.state out.old) (O.state out.new) result }
{
    let mut ends = Ends::new(view);
    for i in 0..words.len() {
        let asked = read_word(word_at(words, i));
        if asked.differs(&ends.view) {
            return Ok(());
        }
        put_value(out, &ends.view, asked.shown())?;
        ends.set_by(&asked);
    }
    Ok(())
}

// Puts the value of a key, where one is shown.
fn put_value<O: Sink>(out: &mut O, view: &CrossView, key: Option<Key>) -> Result<(), Failed>
    ensures { PutsText (value_line view.now key) (O.state out.old) (O.state out.new) result }
{
    let Some(key) = key else {
        return Ok(());
    };
    let mut line = Text::new();
    push_key(&mut line, view, key);
    line.push(b"\n");
    out.put(line.as_slice())
}
