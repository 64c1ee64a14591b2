// Why a command did not do its work.

/// Why a command did not do its work. After each of these but `Device` and `Write` nothing was changed or put.
#[derive(Clone, Copy, Debug, PartialEq, Eq)]
pub enum CgptFault {
    /// The disk failed. Where it failed in a commit, its table is the one that it was or the one that was to be written, if what
    /// the commit left is fair. Nothing was put.
    Device,
    /// The disk has under 69 or over 4,294,967,296 sectors.
    DiskTooSmall,
    /// Neither copy of the table is good.
    NoTable,
    /// There is no such entry.
    NoEntry,
    /// All entries are used.
    NoFreeEntry,
    /// A value is wanting or out of its range.
    BadValue,
    /// The entry has no sector, or one outside the usable ones.
    Outside,
    /// The entry would share a sector with another used one.
    Overlap,
    /// Another used entry has the unique GUID.
    DuplicateUnique,
    /// The sink failed, and a beginning of the text was put. The disk is as the command leaves it.
    Write,
}
