// A law over what is shown and read.
ghost use Rattle.cgpt_core.specs.TypeLaw.{TypesReadBack};

/// A law: what is shown of the type of an entry, its name or its GUID, is read as that type again.
pub fn types_read_back()
    ensures { TypesReadBack }
{}
