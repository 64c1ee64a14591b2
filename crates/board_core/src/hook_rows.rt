// Lists of rows, as each hook keeps one.
ghost use Rattle.std.specs.Prelude.{◌≡◌, ◌↔◌, length, Any, Contains, IsTrue, false, IfSome, IfNone};
ghost use Rattle.board_core.specs.HookRow.{is_digest_size};
ghost use Rattle.board_core.specs.Hook.{IsRowOf};

use crate::hook_row::HookRow;
use sha2::{Digest, Sha256};

/// The most rows that a hook has.
pub const MOST_ROWS: usize = 4096;

// The row of a key, a message's digest and a signature. A digest of no row's length has none.
fn row_of(algorithm: u32, key: &[u8], digest: &[u8], signature: &[u8]) -> Option<HookRow>
    ensures row { IfSome result (IsRowOf algorithm key.now digest.now signature.now) }
    ensures none { IfNone result (is_digest_size (length digest.now) ≡ false) }
{
    if digest.len() != 32 && digest.len() != 64 {
        return None;
    }
    let mut padded = [0; 64];
    padded[..digest.len()].copy_from_slice(digest);
    Some(HookRow {
        algorithm,
        key: Sha256::digest(key),
        digest_len: digest.len() as u8,
        digest: padded,
        signature: Sha256::digest(signature),
    })
}

/// Whether a row is in a list.
pub fn has_row(rows: &[HookRow], row: &HookRow) -> bool
    ensures { IsTrue result ↔ Contains rows.now row.now }
{
    rows.contains(row)
}

/// Whether a list has the row of an algorithm's number, the SHA-256 of a key, a message's digest, and the SHA-256 of a
/// signature. It has none for a digest of neither 32 nor 64 bytes.
pub fn is_accepted(
    rows: &[HookRow],
    algorithm: u32,
    key: &[u8],
    digest: &[u8],
    signature: &[u8],
) -> bool
    ensures { IsTrue result ↔ Any (IsRowOf algorithm key.now digest.now signature.now) rows.now }
{
    match row_of(algorithm, key, digest, signature) {
        Some(row) => has_row(rows, &row),
        None => false,
    }
}
