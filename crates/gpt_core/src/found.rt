// What was found on a disk.

/// The table that was found on a disk.
#[derive(Clone, Copy, Debug, PartialEq, Eq)]
pub enum Found {
    /// The primary copy is good, and the table is its own.
    Primary {
        /// The backup copy is good too, and says the same: the GUID of the disk, the usable sectors and the entries.
        agree: bool,
    },
    /// The backup copy alone is good, and the table is its own.
    Backup,
    /// Neither copy is good.
    None,
}
