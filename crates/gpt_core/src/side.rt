// The two copies of a table, and their places.
ghost use Rattle.std.specs.Prelude.{◌≡◌, ◌≤◌};
ghost use Rattle.gpt_core.specs.Copies.{other_side, first_side, copy_lba, entries_lba, header_lba, header_of};

/// A copy of the table.
#[derive(Clone, Copy, Debug, PartialEq, Eq)]
pub enum Side {
    /// Its header is in sector 1 and its entries are right after it.
    Primary,
    /// Its header is in the last sector and its entries are right before it.
    Backup,
}

// The other copy.
pub(crate) fn other_of(side: Side) -> Side
    ensures { result ≡ other_side side }
{
    match side {
        Side::Primary => Side::Backup,
        Side::Backup => Side::Primary,
    }
}

// The copy that is written first: the one that is not the source, and the primary where there is no source.
pub(crate) fn first_of(source: Option<Side>) -> Side
    ensures { result ≡ first_side source }
{
    match source {
        Some(Side::Primary) => Side::Backup,
        Some(Side::Backup) => Side::Primary,
        None => Side::Primary,
    }
}

// The first sector of a copy.
pub(crate) fn copy_place(side: Side, sectors: u64) -> u64
    requires { 69 ≤ sectors }
    ensures { result ≡ copy_lba side sectors }
{
    match side {
        Side::Primary => 1,
        Side::Backup => sectors - 33,
    }
}

// The first sector of the entries.
pub(crate) fn entries_place(side: Side, sectors: u64) -> u64
    requires { 69 ≤ sectors }
    ensures { result ≡ entries_lba side sectors }
{
    match side {
        Side::Primary => 2,
        Side::Backup => sectors - 33,
    }
}

// The sector of the header.
pub(crate) fn header_place(side: Side, sectors: u64) -> u64
    requires { 69 ≤ sectors }
    ensures { result ≡ header_lba side sectors }
{
    match side {
        Side::Primary => 1,
        Side::Backup => sectors - 1,
    }
}

// The header of a copy.
pub(crate) fn header_from<'a>(side: Side, primary: &'a [u8], backup: &'a [u8]) -> &'a [u8]
    ensures { result.now ≡ header_of side primary.now backup.now }
{
    match side {
        Side::Primary => primary,
        Side::Backup => backup,
    }
}
