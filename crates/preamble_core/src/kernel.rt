// A kernel preamble: the checks of its bytes, and its parts.
ghost use Rattle.std.specs.Prelude.{◌≡◌, Some, None, IfOk, IfErr, OnOk};
ghost use Rattle.wire_core.specs.FirstFault.{first_fault};
ghost use Rattle.preamble_core.specs.Kernel.{KernelPreamble, kernel_lines, kernel_preamble_in, KernelPreambleFits};
ghost use Rattle.preamble_core.specs.Kernel.{KernelPreambleIsSigned};

use crate::common::{CommonView, PreambleKind, check_head};
use crate::fault::KernelPreambleFault;
use crate::layout::*;
use std::marker::Model;
use wire_core::u64_at;

/// A kernel preamble in its buffer: contracts see its numbers and the bytes of its parts.
#[derive(Debug, Drop)]
pub struct KernelPreambleView<'a> {
    common: CommonView<'a>,
    load_address: u64,
}

impl<'a> Model for KernelPreambleView<'a> {
    ghost Value = { KernelPreamble };

    ghost view = { λ p. record { common = p.common; load_address = p.load_address } };
}

impl KernelPreambleView<'_> {
    /// The kernel preamble that the bytes begin with. An error is the first of lines 1 to 7 of the kernel preamble table
    /// whose test holds.
    pub fn check(bytes: &[u8]) -> Result<KernelPreambleView<'_>, KernelPreambleFault>
        ensures fault { IfErr result (λ fault. first_fault kernel_lines bytes.now ≡ Some fault) }
        ensures none { OnOk result (first_fault kernel_lines bytes.now ≡ None) }
        ensures parts { IfOk result (λ preamble. preamble ≡ kernel_preamble_in bytes.now) }
        ensures fits { IfOk result (KernelPreambleFits bytes.now) }
        ensures signed { IfOk result KernelPreambleIsSigned }
    {
        let head = match check_head(bytes, PreambleKind::Kernel) {
            Ok(head) => head,
            Err(fault) => return Err(fault),
        };
        let common = match head.view(bytes, PreambleKind::Kernel) {
            Ok(common) => common,
            Err(fault) => return Err(fault),
        };
        let load_address = u64_at(bytes, KERNEL_LOAD_ADDRESS as usize);
        Ok(KernelPreambleView {
            common,
            load_address,
        })
    }

    /// What a firmware preamble has too.
    pub fn common(&self) -> CommonView<'_>
        ensures { result ≡ self.now.common }
    {
        self.common.reborrow()
    }

    /// The address that the body is loaded at.
    pub fn load_address(&self) -> u64
        ensures { result ≡ self.now.load_address }
    {
        self.load_address
    }
}
