// What firmware and kernel preambles have in common: the checks of its bytes, and its parts.
ghost use Rattle.std.specs.Prelude.{◌≡◌, Some, None, IfOk, IfErr, OnOk};
ghost use Rattle.wire_core.specs.FirstFault.{first_fault};
ghost use Rattle.preamble_core.specs.Common.{CommonPreamble, head_size, body_place, head_lines, body_lines, common_in, IsHeadOf};
ghost use Rattle.preamble_core.specs.Common.{CommonFits, CommonIsSigned};

use crate::fault::KernelPreambleFault;
use crate::layout::*;
use key_core::{SignatureHead, signature_at};
use std::marker::Model;
use wire_core::u32_at;

/// Which of the two preambles bytes are read as.
#[derive(Clone, Copy, Debug, PartialEq, Eq)]
pub enum PreambleKind {
    /// That of a firmware.
    Firmware,
    /// That of a kernel.
    Kernel,
}

impl PreambleKind {
    // The size of the structure at this minor version, in bytes.
    fn head_size(self, minor: u32) -> u32
        ensures { result ≡ head_size self minor }
    {
        match (self, minor) {
            (PreambleKind::Firmware, _) => FIRMWARE_HEAD,
            (PreambleKind::Kernel, 0) => KERNEL_HEAD,
            (PreambleKind::Kernel, 1) => KERNEL_HEAD_1,
            (PreambleKind::Kernel, _) => KERNEL_HEAD_2,
        }
    }

    // The place of the body signature's structure.
    fn body_place(self) -> u32
        ensures { result ≡ body_place self }
    {
        match self {
            PreambleKind::Firmware => FIRMWARE_BODY_SIGNATURE,
            PreambleKind::Kernel => KERNEL_BODY_SIGNATURE,
        }
    }
}

/// What both preambles have, in its buffer: contracts see its numbers and the bytes of its parts.
#[derive(Debug, Drop)]
pub struct CommonView<'a> {
    size: u32,
    version: u32,
    signed: &'a [u8],
    signature: &'a [u8],
    body_len: u32,
    body_signature: &'a [u8],
}

impl<'a> Model for CommonView<'a> {
    ghost Value = { CommonPreamble };

    ghost view = { λ p. record {
      size = p.size;
      version = p.version;
      signed = p.signed.now;
      signature = p.signature.now;
      body_len = p.body_len;
      body_signature = p.body_signature.now;
    } };
}

// The numbers that the other parts of a preamble are found by.
#[derive(Clone, Copy, Debug, PartialEq, Eq)]
pub struct PreambleHead {
    pub size: u32,
    pub signature: SignatureHead,
}

// The numbers that the bytes begin with. An error is the first of lines 1 to 6 whose test holds, which both tables have.
pub(crate) fn check_head(
    bytes: &[u8],
    kind: PreambleKind,
) -> Result<PreambleHead, KernelPreambleFault>
    ensures fault { IfErr result (λ fault. first_fault (head_lines kind) bytes.now ≡ Some fault) }
    ensures none { OnOk result (first_fault (head_lines kind) bytes.now ≡ None) }
    ensures head { IfOk result (IsHeadOf kind bytes.now) }
{
    if bytes.len() < kind.head_size(0) as usize {
        return Err(KernelPreambleFault::TooSmall);
    }
    if u32_at(bytes, PREAMBLE_MAJOR as usize) != PREAMBLE_MAJOR_VERSION {
        return Err(KernelPreambleFault::Version);
    }
    let least = kind.head_size(u32_at(bytes, PREAMBLE_MINOR as usize));
    let size = u32_at(bytes, PREAMBLE_SIZE as usize);
    if size < least || bytes.len() < size as usize {
        return Err(KernelPreambleFault::Size);
    }
    let signature = signature_at(bytes, PREAMBLE_SIGNATURE);
    if !signature.is_inside(size) {
        return Err(KernelPreambleFault::SigOutside);
    }
    if signature.data_size < least {
        return Err(KernelPreambleFault::SignedTooLittle);
    }
    if size < signature.data_size {
        return Err(KernelPreambleFault::SignedTooMuch);
    }
    Ok(PreambleHead { size, signature })
}

impl PreambleHead {
    // What both preambles have, of bytes that begin with this head. The one error is the line on the body signature.
    pub(crate) fn view<'a>(
        &self,
        bytes: &'a [u8],
        kind: PreambleKind,
    ) -> Result<CommonView<'a>, KernelPreambleFault>
        requires { IsHeadOf kind bytes.now self.now }
        ensures fault { IfErr result (λ fault. first_fault (body_lines kind) bytes.now ≡ Some fault) }
        ensures none { OnOk result (first_fault (body_lines kind) bytes.now ≡ None) }
        ensures parts { IfOk result (λ common. common ≡ common_in kind bytes.now) }
        ensures fits { IfOk result (CommonFits kind bytes.now) }
        ensures signed { IfOk result (CommonIsSigned kind) }
    {
        let body = signature_at(bytes, kind.body_place());
        if !body.is_inside(self.signature.data_size) {
            return Err(KernelPreambleFault::BodySigOutside);
        }
        let version = u32_at(bytes, PREAMBLE_VERSION as usize);
        Ok(CommonView {
            size: self.size,
            version,
            signed: &bytes[..self.signature.data_size as usize],
            signature: self.signature.part(bytes),
            body_len: body.data_size,
            body_signature: body.part(bytes),
        })
    }
}

impl CommonView<'_> {
    /// The size of the preamble with all its parts, in bytes.
    pub fn size(&self) -> u32
        ensures { result ≡ self.now.size }
    {
        self.size
    }

    /// The version of the firmware or the kernel, of which the lower 16 bits count.
    pub fn version(&self) -> u32
        ensures { result ≡ self.now.version }
    {
        self.version
    }

    /// What the signature speaks for.
    pub fn signed(&self) -> &[u8]
        ensures { result.now ≡ self.now.signed }
    {
        self.signed
    }

    /// The signature over what is signed.
    pub fn signature(&self) -> &[u8]
        ensures { result.now ≡ self.now.signature }
    {
        self.signature
    }

    /// The size of the body of the firmware or the kernel, in bytes.
    pub fn body_len(&self) -> u32
        ensures { result ≡ self.now.body_len }
    {
        self.body_len
    }

    /// The signature of the body, which lies in what is signed.
    pub fn body_signature(&self) -> &[u8]
        ensures { result.now ≡ self.now.body_signature }
    {
        self.body_signature
    }

    /// The same view, for as long as this one is borrowed.
    pub fn reborrow(&self) -> CommonView<'_>
        ensures { result ≡ self.now }
    {
        CommonView {
            size: self.size,
            version: self.version,
            signed: self.signed,
            signature: self.signature,
            body_len: self.body_len,
            body_signature: self.body_signature,
        }
    }
}
