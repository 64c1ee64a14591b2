// Where a kernel stands on a drive.

/// A partition of a drive.
#[derive(Clone, Copy, Debug)]
pub struct Partition {
    /// Its first sector.
    pub first: u64,
    /// How many sectors it has.
    pub sectors: u64,
}
