// Laws over what the commands print, and how they end.
ghost use Rattle.command_core.specs.Telling.{LinesTellApart, CodesTellStatus, IsSinkStatusAlone};

/// A law: what a boot came to can be told from its lines. Two outcomes or faults of a boot whose numbers are in the ranges of
/// their types have the same text only where they are the same.
pub fn lines_tell_answers_apart()
    ensures { LinesTellApart }
{}

/// A law: the exit status of the program tells how a command ended, and no answer has that of the sink. So at 9 the sink failed.
pub fn exit_status_tells()
    ensures told { CodesTellStatus }
    ensures sink { IsSinkStatusAlone }
{}
