// A keyblock: the checks of its bytes, and its parts.
ghost use Rattle.std.specs.Prelude.{◌≡◌, Some, None, IfOk, IfErr, OnOk};
ghost use Rattle.wire_core.specs.FirstFault.{first_fault};
ghost use Rattle.key_core.specs.Keyblocks.{Keyblock, seal_place, keyblock_lines, keyblock_in, KeyblockFits, KeyblockIsSigned};

use crate::fault::KeyblockFault;
use crate::key::KeyView;
use crate::layout::*;
use crate::parts::{key_at, signature_at};
use std::marker::Model;
use wire_core::u32_at;

/// Which of its two seals a keyblock is read by.
#[derive(Clone, Copy, Debug, PartialEq, Eq)]
pub enum Seal {
    /// The signature.
    Signature,
    /// The SHA-512 of what is signed, which anybody can make.
    Hash,
}

/// A keyblock in its buffer, read by one of its seals: contracts see its size, its flags and the bytes of its parts.
#[derive(Debug, Drop)]
pub struct KeyblockView<'a> {
    size: u32,
    flags: u32,
    signed: &'a [u8],
    seal: &'a [u8],
    data_key: KeyView<'a>,
}

impl<'a> Model for KeyblockView<'a> {
    ghost Value = { Keyblock };

    ghost view = { λ k. record { size = k.size; flags = k.flags; signed = k.signed.now; seal_bytes = k.seal.now; data_key = k.data_key } };
}

impl KeyblockView<'_> {
    /// The keyblock that the bytes begin with, read by this seal. An error is the first of lines 1 to 8 of the keyblock
    /// table whose test holds.
    pub fn check(bytes: &[u8], seal: Seal) -> Result<KeyblockView<'_>, KeyblockFault>
        ensures fault { IfErr result (λ fault. first_fault (keyblock_lines seal) bytes.now ≡ Some fault) }
        ensures none { OnOk result (first_fault (keyblock_lines seal) bytes.now ≡ None) }
        ensures parts { IfOk result (λ keyblock. keyblock ≡ keyblock_in seal bytes.now) }
        ensures fits { IfOk result (KeyblockFits seal bytes.now) }
        ensures signed { IfOk result KeyblockIsSigned }
    {
        if bytes.len() < KEYBLOCK_HEAD as usize {
            return Err(KeyblockFault::TooSmall);
        }
        if !bytes.starts_with(&KEYBLOCK_MAGIC) {
            return Err(KeyblockFault::Magic);
        }
        if u32_at(bytes, KEYBLOCK_MAJOR as usize) != KEYBLOCK_MAJOR_VERSION {
            return Err(KeyblockFault::Version);
        }
        let size = u32_at(bytes, KEYBLOCK_SIZE as usize);
        if size < KEYBLOCK_HEAD || bytes.len() < size as usize {
            return Err(KeyblockFault::Size);
        }
        let seal = signature_at(bytes, seal.place());
        if !seal.is_inside(size) {
            return Err(KeyblockFault::SealOutside);
        }
        if seal.data_size < KEYBLOCK_HEAD {
            return Err(KeyblockFault::SignedTooLittle);
        }
        if size < seal.data_size {
            return Err(KeyblockFault::SignedTooMuch);
        }
        let key = key_at(bytes, KEYBLOCK_DATA_KEY);
        if !key.is_inside(seal.data_size) {
            return Err(KeyblockFault::KeyOutside);
        }
        let flags = u32_at(bytes, KEYBLOCK_FLAGS as usize);
        Ok(KeyblockView {
            size,
            flags,
            signed: &bytes[..seal.data_size as usize],
            seal: seal.part(bytes),
            data_key: key.view(bytes),
        })
    }

    /// The size of the keyblock with all its parts, in bytes.
    pub fn size(&self) -> u32
        ensures { result ≡ self.now.size }
    {
        self.size
    }

    /// The keyblock's flags: 1 developer mode off, 2 on, 4 recovery mode off, 8 on. Other bits have no meaning.
    pub fn flags(&self) -> u32
        ensures { result ≡ self.now.flags }
    {
        self.flags
    }

    /// What the seal speaks for.
    pub fn signed(&self) -> &[u8]
        ensures { result.now ≡ self.now.signed }
    {
        self.signed
    }

    /// The signature or the hash.
    pub fn seal_bytes(&self) -> &[u8]
        ensures { result.now ≡ self.now.seal_bytes }
    {
        self.seal
    }

    /// The data key, which lies in what is signed.
    pub fn data_key(&self) -> KeyView<'_>
        ensures { result ≡ self.now.data_key }
    {
        self.data_key.reborrow()
    }
}

impl Seal {
    // The place of the seal's structure in the keyblock.
    fn place(self) -> u32
        ensures { result ≡ seal_place self }
    {
        match self {
            Seal::Signature => KEYBLOCK_SIGNATURE,
            Seal::Hash => KEYBLOCK_HASH,
        }
    }
}
