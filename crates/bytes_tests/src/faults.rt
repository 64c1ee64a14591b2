// The numbers of the lines of the tables of preambles.
use preamble_core::{FwPreambleFault, KernelPreambleFault};

// The numbers of the lines of both tables.
#[test]
fn numbers_of_faults(rt: HostRuntime) {
    let firmware = [
        FwPreambleFault::TooSmall as u8,
        FwPreambleFault::Version as u8,
        FwPreambleFault::Size as u8,
        FwPreambleFault::SigOutside as u8,
        FwPreambleFault::SignedTooLittle as u8,
        FwPreambleFault::SignedTooMuch as u8,
        FwPreambleFault::SubkeyOutside as u8,
        FwPreambleFault::BodySigOutside as u8,
        FwPreambleFault::SigSize as u8,
        FwPreambleFault::Refused as u8,
        FwPreambleFault::VersionRange as u8,
        FwPreambleFault::Rollback as u8,
    ];
    assert_eq!(rt; firmware, [1, 2, 3, 4, 5, 6, 7, 8, 9, 10, 11, 12]);
    let kernel = [
        KernelPreambleFault::TooSmall as u8,
        KernelPreambleFault::Version as u8,
        KernelPreambleFault::Size as u8,
        KernelPreambleFault::SigOutside as u8,
        KernelPreambleFault::SignedTooLittle as u8,
        KernelPreambleFault::SignedTooMuch as u8,
        KernelPreambleFault::BodySigOutside as u8,
        KernelPreambleFault::SigSize as u8,
        KernelPreambleFault::Refused as u8,
        KernelPreambleFault::VersionRange as u8,
        KernelPreambleFault::Rollback as u8,
    ];
    assert_eq!(rt; kernel, [1, 2, 3, 4, 5, 6, 7, 8, 9, 10, 11]);
}
