// The words of a call, worked in order.
ghost use Rattle.std.specs.Prelude.{◌≡◌, map, false, None};
ghost use Rattle.std.specs.String.{string_bytes};
ghost use Rattle.crossystem_core.specs.Words.{setting_asked};
ghost use Rattle.crossystem_core.specs.Running as spec;

use crate::showing::CrossView;
use crate::words::{Ask, read_word, word_at};

/// What words come to that are worked in order.
#[derive(Clone, Copy, Debug)]
pub(crate) struct Ends {
    // With the record that the sets leave.
    pub(crate) view: CrossView,
    // Whether any word set a key.
    pub(crate) set: bool,
    // The number, from 1, of the first check that differs, at which working ends.
    pub(crate) differs: Option<u64>,
}

impl Ends {
    // Before the first word.
    pub(crate) fn new(view: &CrossView) -> Ends
        ensures { result ≡ record { view = view.now; set = false; differs = None } }
    {
        Ends {
            view: *view,
            set: false,
            differs: None,
        }
    }

    // Sets what a word sets.
    pub(crate) fn set_by(&mut self, asked: &Ask<'_>)
        ensures view { self.new.view ≡ spec.view_by self.old.view (setting_asked asked.now.key asked.now.sign asked.now.text.now) }
        ensures set { self.new.set ≡ spec.set_by self.old.set (setting_asked asked.now.key asked.now.sign asked.now.text.now) }
        ensures differs { self.new.differs ≡ self.old.differs }
    {
        if let Some(setting) = asked.setting() {
            setting.apply(&mut self.view.state.nv);
            self.set = true;
        }
    }
}

// Works the words in order, from what a machine keeps, up to the first check that differs.
pub(crate) fn work_words(view: &CrossView, words: &[String]) -> Ends
    ensures { result ≡ spec.ends_of view.now false 1 (map string_bytes words.now) }
{
    let mut ends = Ends::new(view);
    for i in 0..words.len() {
        let asked = read_word(word_at(words, i));
        if asked.differs(&ends.view) {
            ends.differs = Some(i as u64 + 1);
            return ends;
        }
        ends.set_by(&asked);
    }
    ends
}
