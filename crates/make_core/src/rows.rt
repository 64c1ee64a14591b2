// The signatures of a machine, as rows of a hook.
ghost use Rattle.std.specs.Prelude.{◌≡◌, ◌%◌, ◌<◌, ◌≤◌};
ghost use Rattle.sha2.specs.Sha256.{sha256};
ghost use Rattle.board_core.specs.Hook.{IsRowOf, HookState};
ghost use Rattle.make_core.specs.Enrolling.{EnrollsAll};
ghost use Rattle.make_core.specs.Fill.{fill};
ghost use Rattle.make_core.specs.Firmware.{AreTags};
ghost use Rattle.make_core.specs.Kernel.{AreKernelTags};
ghost use Rattle.make_core.specs.Rows.{slot_rows, kernel_rows, firmware_rows, drive_rows, machine_rows};

use crate::drive_layout::{KERNEL_A, KERNEL_B, KERNEL_STICK, KernelTags};
use crate::kernel::{kernel_body_size, make_signed_kernel_preamble};
use crate::layout::*;
use crate::putting::put_fill;
use crate::slot::{body_size, make_signed_keyblock, make_signed_preamble};
use board_core::{EnrollFault, Hook, HookRow};
use sha2::{Digest, Sha256};

// The SHA-256 of the key of this tag.
fn key_digest(number: u32, tag: u32) -> [u8; 32]
    requires { tag < 256 }
    ensures { result ≡ sha256 (fill number tag 520) }
{
    let mut key = [0; KEY_SIZE];
    put_fill(&mut key, 0, number, tag, 0, KEY_SIZE);
    Sha256::digest(&key)
}

// The SHA-256 of the signature of this tag.
fn signature_digest(number: u32, tag: u32) -> [u8; 32]
    requires { tag < 256 }
    ensures { result ≡ sha256 (fill number tag 256) }
{
    let mut signature = [0; SIGNATURE_SIZE];
    put_fill(&mut signature, 0, number, tag, 0, SIGNATURE_SIZE);
    Sha256::digest(&signature)
}

// The SHA-256 of a body of this tag and of so many bytes, which is taken in pieces.
fn body_digest(number: u32, tag: u32, size: u32) -> [u8; 32]
    requires tag { tag < 256 }
    requires whole { size % 512 ≡ 0 }
    requires near { size ≤ 1048576 }
    ensures { result ≡ sha256 (fill number tag size) }
{
    let mut hasher = Sha256::new();
    for piece in 0..size / BODY_STEP {
        let mut bytes = [0; 512];
        put_fill(&mut bytes, 0, number, tag, piece * BODY_STEP, 512);
        hasher.update(&bytes);
    }
    hasher.finalize()
}

// The row of a message with this digest, whose key and whose signature have these tags.
fn make_row(number: u32, key_tag: u32, digest: [u8; 32], tag: u32) -> HookRow
    requires key { key_tag < 256 }
    requires tag { tag < 256 }
    ensures { IsRowOf 4 (fill number key_tag 520) digest (fill number tag 256) result }
{
    let mut padded = [0; 64];
    padded[..32].copy_from_slice(&digest);
    HookRow {
        algorithm: ALGORITHM,
        key: key_digest(number, key_tag),
        digest_len: 32,
        digest: padded,
        signature: signature_digest(number, tag),
    }
}

// The rows of a slot: its keyblock, its preamble and its body.
fn make_slot_rows(number: u32, tags: &SlotTags) -> [HookRow; 3]
    requires { AreTags tags.now }
    ensures { result ≡ slot_rows number tags.now }
{
    let signed = make_signed_keyblock(number, FIRMWARE_FLAGS, FIRMWARE_KEY);
    let keyblock = make_row(number, ROOT_KEY, Sha256::digest(&signed), tags.keyblock);
    let signed = make_signed_preamble(number, tags.body_signature);
    let preamble = make_row(number, FIRMWARE_KEY, Sha256::digest(&signed), tags.preamble);
    let digest = body_digest(number, tags.body, body_size(number));
    let body = make_row(number, FIRMWARE_KEY, digest, tags.body_signature);
    [keyblock, preamble, body]
}

// The rows of a kernel of this version: its keyblock, its preamble and its body.
fn make_kernel_rows(number: u32, version: u32, tags: &KernelTags) -> [HookRow; 3]
    requires { AreKernelTags tags.now }
    ensures { result ≡ kernel_rows number version tags.now }
{
    let signed = make_signed_keyblock(number, tags.flags, tags.key);
    let keyblock = make_row(number, tags.signer, Sha256::digest(&signed), tags.keyblock);
    let signed = make_signed_kernel_preamble(number, version, tags.body_signature);
    let preamble = make_row(number, tags.key, Sha256::digest(&signed), tags.preamble);
    let digest = body_digest(number, tags.body, kernel_body_size(number));
    let body = make_row(number, tags.key, digest, tags.body_signature);
    [keyblock, preamble, body]
}

// The rows of both slots.
fn make_firmware_rows(number: u32) -> [HookRow; 6]
    ensures { result ≡ firmware_rows number }
{
    let [keyblock_a, preamble_a, body_a] = make_slot_rows(number, &SLOT_A);
    let [keyblock_b, preamble_b, body_b] = make_slot_rows(number, &SLOT_B);
    [
        keyblock_a, preamble_a, body_a, keyblock_b, preamble_b, body_b,
    ]
}

// The rows of both kernels of the disk, and of that of the stick.
fn make_drive_rows(number: u32) -> [HookRow; 9]
    ensures { result ≡ drive_rows number }
{
    let [keyblock_a, preamble_a, body_a] = make_kernel_rows(number, 2 + number % 8, &KERNEL_A);
    let [keyblock_b, preamble_b, body_b] = make_kernel_rows(number, 1 + number % 8, &KERNEL_B);
    let [keyblock, preamble, body] = make_kernel_rows(number, 1, &KERNEL_STICK);
    [
        keyblock_a, preamble_a, body_a, keyblock_b, preamble_b, body_b, keyblock, preamble, body,
    ]
}

/// The rows of a machine, in the order in which they are enrolled.
pub fn make_rows(number: u32) -> [HookRow; 15]
    ensures { result ≡ machine_rows number }
{
    let [a, b, c, d, e, f] = make_firmware_rows(number);
    let [g, h, i, j, k, l, m, n, o] = make_drive_rows(number);
    [a, b, c, d, e, f, g, h, i, j, k, l, m, n, o]
}

/// Enrolls the rows, in order. An error is the first refusal: the rows before it are enrolled, and it and those behind it
/// are not.
pub fn enroll_all<H: Hook>(hook: &mut H, rows: &[HookRow]) -> Result<(), EnrollFault>
    ensures { EnrollsAll rows.now (H.state hook.old) (H.state hook.new) result }
{
    for row in rows {
        if let Err(fault) = hook.enroll(row) {
            return Err(fault);
        }
    }
    Ok(())
}
