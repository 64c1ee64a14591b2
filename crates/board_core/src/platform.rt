// The devices of a board: those that a boot changes each behind a fuse.
use crate::disk::Disk;
use crate::fuse::Fuse;
use crate::fuse_disk::FuseDisk;
use crate::fuse_tpm::FuseTpm;

/// A board, over its flash, its TPM, its two disks and its hook.
#[derive(Drop)]
pub struct Platform<F, T, D: Disk, E: Disk, H> {
    /// The flash of the firmware.
    pub flash: Fuse<F>,
    /// The TPM with the two spaces of versions.
    pub tpm: FuseTpm<T>,
    /// The fixed drive.
    pub disk: FuseDisk<D>,
    /// The removable drive.
    pub stick: FuseDisk<E>,
    /// The list of accepted signatures.
    pub hook: H,
    /// The place of the flash map in the flash, in bytes. Read-only firmware has it from its build.
    pub map_at: u32,
}
