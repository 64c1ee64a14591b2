// Laws over the texts of values.
ghost use Rattle.crossystem_core.specs.Laws.{TakesValues, TakesVersions};

/// A law: what is shown is taken. Of the first values of a field each text is taken, as a value that has it; and a version is taken in
/// the form in which it is shown.
pub fn shown_texts_are_taken()
    ensures values { TakesValues }
    ensures versions { TakesVersions }
{}
