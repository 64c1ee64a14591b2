// A command on a partition table, with its values.
ghost use Rattle.std.specs.Prelude.{◌≡◌};
ghost use Rattle.cgpt_core.specs.Words.{plain_call};

use board_core::Drive;
use std::marker::Model;
use thiserror::Error;

/// What a command does. Source: the manual page cgpt(1) of ChromiumOS, of which these are a part.
#[derive(Clone, Copy, Debug, PartialEq, Eq)]
pub enum CgptCommand {
    /// Makes an empty table.
    Create,
    /// Adds an entry, or changes one.
    Add,
    /// Orders the kernel entries.
    Prioritize,
    /// Makes both copies of the table agree.
    Repair,
    /// Prints the table.
    Show,
    /// Finds entries.
    Find,
}

/// The name of an entry, seen as its 36 units of UTF-16. It is filled up with 0.
#[derive(Clone, Copy, Debug, PartialEq, Eq)]
pub struct Label {
    units: [u16; 36],
}

impl Model for Label {
    ghost use Rattle.std.specs.Prelude.{List, ℕ};

    ghost Value = { List ℕ };

    ghost view = { λ label. label.units };

    ghost inverse = { λ units. record { units = units } };
}

impl Label {
    /// The label with these units.
    pub fn new(units: [u16; 36]) -> Label
        ensures { result ≡ units }
    {
        Label { units }
    }

    /// Its units.
    pub fn units(&self) -> [u16; 36]
        ensures { result ≡ self.now }
    {
        self.units
    }
}

/// A command with its values. A value is `None` where it was not given. One of the fields from `index` on for which the
/// command has no option is not looked at.
#[derive(Clone, Copy, Debug, PartialEq, Eq)]
pub struct CgptCall {
    /// What to do.
    pub command: CgptCommand,
    /// The drive to work on.
    pub drive: Drive,
    /// The index of an entry, from 1 to 128.
    pub index: Option<u32>,
    /// The first sector of an entry.
    pub begin: Option<u64>,
    /// The number of sectors of an entry.
    pub size: Option<u64>,
    /// The GUID of an entry's type, as the disk stores it.
    pub kind: Option<[u8; 16]>,
    /// The own GUID of an entry, as the disk stores it.
    pub unique: Option<[u8; 16]>,
    /// The name of an entry.
    pub label: Option<Label>,
    /// Whether a kernel was successful: 0 or 1.
    pub successful: Option<u8>,
    /// How often a kernel is tried: 0 to 15.
    pub tries: Option<u8>,
    /// The priority of a kernel: 0 to 15.
    pub priority: Option<u8>,
    /// The highest 16 bits of the attributes.
    pub raw: Option<u16>,
    /// Whether the kernels of the same priority move along.
    pub friends: bool,
}

/// Why words are no command.
#[derive(Clone, Copy, Debug, Drop, PartialEq, Eq, Error)]
pub enum WordFault {
    /// The first word is no command, or the command does not take the others.
    #[error("usage")]
    Usage,
    /// A value is out of its range.
    #[error("bad value")]
    BadValue,
    /// There was no memory to read the words.
    #[error("out of memory")]
    Memory,
}

impl CgptCall {
    // The call of a command without options.
    pub(crate) fn plain(command: CgptCommand, drive: Drive) -> CgptCall
        ensures { result ≡ plain_call command drive }
    {
        CgptCall {
            command,
            drive,
            index: None,
            begin: None,
            size: None,
            kind: None,
            unique: None,
            label: None,
            successful: None,
            tries: None,
            priority: None,
            raw: None,
            friends: false,
        }
    }
}
