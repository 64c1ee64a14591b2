// The body of a kernel: what of it lies in the head's bytes is taken from there, and the rest is read in pieces, each hashed
// as it comes.
ghost use Rattle.std.specs.Prelude.{◌≡◌, ◌+◌, ◌*◌, ◌/◌, ◌%◌, ◌-◌, ◌≤◌, IsTrue, OnOk, min, length, take, drop, vec_len, vec_capacity};
ghost use Rattle.board_core.specs.Flash.{range};
ghost use Rattle.key_core.specs.Algorithms.{signature_length};
ghost use Rattle.kernel_core.specs.KernelBodies.{TakesBytes, TakesFront, ReadsKernelBody, most_of, ChecksDiskBody, VerifiesKernelBody};
ghost use Rattle.kernel_core.specs.Heads.{IsHeadOf};

use crate::head::{HEAD_SIZE, behind};
use crate::head_fault::HeadOk;
use crate::partition::Partition;
use crate::room::{BodyRoom, LARGEST_BODY, PIECE};
use crate::signed_body::SignedBody;
use board_core::{Disk, Failed, Hook};
use chain_core::{BodyFault, Failure, Hasher};
use key_core::layout::{KEYBLOCK_DATA_KEY, KEYBLOCK_SIZE};
use key_core::{LARGEST_KEY, LAST_ALGORITHM, PackedKey, key_at, pack, signature_length};
use preamble_core::KernelPreambleView;
use wire_core::u32_at;

// The size of a sector, in bytes.
const SECTOR: u32 = 512;

// How many sectors the head's bytes are.
const HEAD_SECTORS: u64 = 128;

// Reads whole sectors into a piece, of which the first `count` bytes are the body's, and adds these.
fn take_piece<D: Disk>(
    disk: &mut D,
    lba: u64,
    count: u32,
    piece: &mut [u8],
    hasher: &mut Hasher,
    body: &mut Vec<u8>,
) -> Result<(), Failed>
    requires whole { length piece.old ≡ (count + 511) / 512 * 512 }
    requires inside { lba + (count + 511) / 512 ≤ (D.state disk.old).medium.sectors }
    requires room { vec_len body.old + count ≤ vec_capacity body.old }
    ensures meets { TakesBytes lba count (D.state disk.old) (D.state disk.new) hasher.old hasher.new body.old.items body.new.items result }
    ensures longer { OnOk result (vec_len body.new ≡ vec_len body.old + count) }
    ensures capacity { vec_capacity body.old ≤ vec_capacity body.new }
    ensures same_length { length piece.new ≡ length piece.old }
{
    disk.read(lba, piece)?;
    let part = &piece[..count as usize];
    hasher.update(part);
    body.extend_from_slice(part).unwrap();
    Ok(())
}

// How many sectors so many bytes of a piece touch.
fn sectors_of(count: u32) -> u32
    requires { count ≤ PIECE }
    ensures { result ≡ (count + 511) / 512 }
{
    (count + SECTOR - 1) / SECTOR
}

// Reads `len` bytes from the start of a sector on behind the bytes of the body that are there.
fn read_rest<D: Disk>(
    disk: &mut D,
    lba: u64,
    len: u32,
    piece: &mut [u8],
    hasher: &mut Hasher,
    body: &mut Vec<u8>,
) -> Result<(), Failed>
    requires piece { length piece.old ≡ PIECE }
    requires inside { lba + (len + 511) / 512 ≤ (D.state disk.old).medium.sectors }
    requires room { vec_len body.old + len ≤ vec_capacity body.old }
    ensures meets { TakesBytes lba len (D.state disk.old) (D.state disk.new) hasher.old hasher.new body.old.items body.new.items result }
    ensures capacity { vec_capacity body.old ≤ vec_capacity body.new }
    ensures same_length { length piece.new ≡ length piece.old }
{
    // No place on a disk wraps.
    let _sectors = disk.sectors();
    let mut done = 0;
    while done < len {
        let count = (len - done).min(PIECE);
        let part = &mut piece[..(sectors_of(count) * SECTOR) as usize];
        take_piece(
            disk,
            lba + u64::from(done / SECTOR),
            count,
            part,
            hasher,
            body,
        )?;
        done += count;
    }
    Ok(())
}

// Takes what of `len` bytes from `at` lies in the head's bytes, and answers how many those are.
fn take_front(vblock: &[u8], at: u32, len: u32, hasher: &mut Hasher, body: &mut Vec<u8>) -> u32
    requires vblock { length vblock.now ≡ HEAD_SIZE }
    requires inside { at ≤ HEAD_SIZE }
    requires room { vec_len body.old + len ≤ vec_capacity body.old }
    ensures count { result ≡ min len (HEAD_SIZE - at) }
    ensures taken { TakesFront at result vblock.now hasher.old hasher.new body.old.items body.new.items }
    ensures capacity { vec_capacity body.old ≤ vec_capacity body.new }
{
    let count = len.min(HEAD_SIZE as u32 - at);
    let part = &vblock[at as usize..(at + count) as usize];
    hasher.update(part);
    body.extend_from_slice(part).unwrap();
    count
}

// Reads the body in the partition that begins at the sector `first`, of which `vblock` holds the first bytes, and answers the
// hasher that has taken it in. `body` has room for it, and takes no memory.
fn read_body<D: Disk>(
    disk: &mut D,
    first: u64,
    vblock: &[u8],
    signed: &SignedBody<'_>,
    piece: &mut [u8],
    body: &mut Vec<u8>,
) -> Result<Hasher, Failed>
    requires vblock { length vblock.now ≡ HEAD_SIZE }
    requires front { signed.now.at ≤ HEAD_SIZE }
    requires inside { first + HEAD_SECTORS + (signed.now.at + signed.now.len - HEAD_SIZE + 511) / 512 ≤ (D.state disk.old).medium.sectors }
    requires room { signed.now.len ≤ vec_capacity body.old }
    requires piece { length piece.old ≡ PIECE }
    requires filled { IsTrue (D.state disk.old).medium.told → vblock.now ≡ range (D.state disk.old).medium.bytes (first * 512) HEAD_SIZE }
    ensures meets { ReadsKernelBody first signed.now.at signed.now.len signed.now.key.now.algorithm (D.state disk.old) (D.state disk.new) body.new.items result }
    ensures capacity { vec_capacity body.old ≤ vec_capacity body.new }
    ensures same_length { length piece.new ≡ length piece.old }
{
    // No place on a disk wraps.
    let _sectors = disk.sectors();
    let mut hasher = Hasher::new(signed.key.algorithm);
    body.clear();
    let front = take_front(vblock, signed.at, signed.len, &mut hasher, body);
    read_rest(
        disk,
        first + HEAD_SECTORS,
        signed.len - front,
        piece,
        &mut hasher,
        body,
    )?;
    Ok(hasher)
}

// How many bytes a body may have that begins at the byte `at` of a partition of so many sectors.
fn most_of(sectors: u64, at: u32) -> u32
    requires addressable { sectors ≤ 36028797018963967 }
    requires front { at ≤ sectors * 512 }
    ensures { result ≡ most_of sectors at }
{
    let room = sectors * u64::from(SECTOR) - u64::from(at);
    room.min(u64::from(LARGEST_BODY)) as u32
}

// Checks the body in a partition, of which `vblock` holds the first bytes.
fn check_body<D: Disk, H: Hook>(
    disk: &mut D,
    hook: &mut H,
    partition: Partition,
    vblock: &[u8],
    signed: &SignedBody<'_>,
    room: &mut BodyRoom,
) -> Result<Option<BodyFault>, Failure>
    requires sectors { HEAD_SECTORS ≤ partition.sectors }
    requires inside { partition.first + partition.sectors ≤ (D.state disk.old).medium.sectors }
    requires vblock { length vblock.now ≡ HEAD_SIZE }
    requires front { signed.now.at ≤ HEAD_SIZE }
    requires algorithm { signed.now.key.now.algorithm ≤ LAST_ALGORITHM }
    requires size { signed.now.key.now.size ≤ LARGEST_KEY }
    requires filled { IsTrue (D.state disk.old).medium.told
        → vblock.now ≡ range (D.state disk.old).medium.bytes (partition.first * 512) HEAD_SIZE }
    ensures meets { ChecksDiskBody signed.now.key.now signed.now.signature.now partition.first partition.sectors signed.now.at signed.now.len
        (D.state disk.old) (D.state disk.new) (H.state hook.old) (H.state hook.new) room.new result }
{
    // No place on a disk wraps.
    let _sectors = disk.sectors();
    let SignedBody {
        key,
        signature,
        at,
        len,
    } = *signed;
    if len == 0 {
        return Ok(Some(BodyFault::Empty));
    }
    if len > most_of(partition.sectors, at) {
        return Ok(Some(BodyFault::TooLarge));
    }
    if signature.len() != signature_length(key.algorithm) as usize {
        return Ok(Some(BodyFault::SigSize));
    }
    let BodyRoom { body, piece } = room;
    let hasher = match read_body(disk, partition.first, vblock, signed, piece, body) {
        Ok(hasher) => hasher,
        Err(Failed) => return Err(Failure::Store),
    };
    match hasher.verify(hook, key, signature) {
        Ok(true) => Ok(None),
        Ok(false) => Ok(Some(BodyFault::Refused)),
        Err(Failed) => Err(Failure::Hook),
    }
}

/// Verifies the body of the kernel in a partition: the data key in `vblock` is to have signed it. `vblock` is what the first 128 sectors of the partition hold, and `head` is the answer of `verify_head` on it.
///
/// What of the body lies in `vblock` is taken from there, and no sector of the first 128 is read again. The others that it
/// touches are read once, in pieces of at most 65,536 bytes, each hashed as it comes. Of a good body the room hands out the
/// bytes. No memory is taken, and disk and hook keep their content.
///
/// A `BodyFault` is the first line of the body table whose test holds; the most bytes that a body may have are 67,108,864, and
/// those of the partition from the body's place on. `Failure`: the disk or the hook failed, and its count of faults rose; then
/// nothing else was decided.
pub fn verify_body<D: Disk, H: Hook>(
    disk: &mut D,
    hook: &mut H,
    partition: Partition,
    vblock: &[u8],
    head: &HeadOk,
    room: &mut BodyRoom,
) -> Result<Option<BodyFault>, Failure>
    requires sectors { HEAD_SECTORS ≤ partition.sectors }
    requires inside { partition.first + partition.sectors ≤ (D.state disk.old).medium.sectors }
    requires vblock { length vblock.now ≡ HEAD_SIZE }
    requires head { IsHeadOf vblock.now head.now }
    requires filled { IsTrue (D.state disk.old).medium.told
        → vblock.now ≡ range (D.state disk.old).medium.bytes (partition.first * 512) HEAD_SIZE }
    ensures meets { VerifiesKernelBody vblock.now head.now partition.first partition.sectors
        (D.state disk.old) (D.state disk.new) (H.state hook.old) (H.state hook.new) room.new result }
{
    let key = pack(&key_at(vblock, KEYBLOCK_DATA_KEY).view(vblock));
    let rest = behind(vblock, u32_at(vblock, KEYBLOCK_SIZE as usize));
    let Ok(preamble) = KernelPreambleView::check(rest) else {
        unreachable!()
    };
    let common = preamble.common();
    let signed = SignedBody {
        key: &key,
        signature: common.body_signature(),
        at: head.body_at,
        len: head.body_len,
    };
    check_body(disk, hook, partition, vblock, &signed, room)
}
