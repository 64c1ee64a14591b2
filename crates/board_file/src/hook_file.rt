// Reading the rows of a hook from a TOML text.
//
//     [[row]]
//     algorithm = 7
//     key = "64 hexadecimal digits"
//     digest = "64 or 128 hexadecimal digits"
//     signature = "64 hexadecimal digits"
ghost use Rattle.std.specs.Prelude.{◌≡◌, ◌<◌, vec_len, ◌-◌, ◌/◌, ◌≤◌, length, take, drop, map, replicate, option_map, IfSome, IsTrue, IsOk};
ghost use Rattle.std.specs.Prelude.{IfOk};
ghost use Rattle.toml.specs.Errors.{IsBlank};
ghost use Rattle.toml.specs.Data.{get_member};
ghost use Rattle.toml.specs.View.{view, table_view};
ghost use Rattle.board_core.specs.HookRow.{is_digest_size};
ghost use Rattle.board_file.specs.HookFile as spec;
ghost use Rattle.board_file.specs.HookFile.{told, members_count, bytes_of, is_short, is_short_or_long, row_of, row_of_members, elements_of};
ghost use Rattle.board_file.specs.HookFile.{rows_of, hook_of, hook_file};
ghost use Rattle.board_file.specs.HookAnswer.{Answers};

use crate::hook_file_fault::HookFileFault;
use board_core::{HookRow, MOST_ROWS};
use std::alloc::Global;
use toml::value::Array;
use toml::{Table, Value};

// The members of a row.
const ROW_MEMBERS: usize = 4;
// The most that the number of an algorithm is.
const MOST_ALGORITHM: i64 = 17;
// The digits of a digest of SHA-256.
const SHORT_DIGITS: usize = 64;
// The digits of a digest of SHA-512.
const LONG_DIGITS: usize = 128;

/// The rows of a hook file, in its order. The text is TOML with no key but `row`, an array of at most 4,096 tables. Each
/// has these members and no other: `algorithm`, an integer 0 to 17; `key` and `signature`, each of 64 hexadecimal digits;
/// `digest`, of 64 or 128. A text with no key has no rows. Digits of either case are read.
///
/// `BadHookFile` has the number of the first element that is no such table, from 1. It has 0 where the text is no TOML,
/// where its arrays and tables nest deeper than toml reads (80), or where it is no such array, which is tested first.
/// `Memory` is want of memory, and says nothing of the text. It is no answer to a text of white space and comments alone.
#[tactic(auto, using(crate::proofs::Tables::no_members_blank), unfolding(crate::specs::HookFile::hook_file))]
pub fn read_hook(alloc: Global, text: &str) -> Result<Vec<HookRow>, HookFileFault>
    ensures meant { Answers (hook_file text.now) result }
    ensures few { IfOk result (λ rows. vec_len rows ≤ 4096) }
    ensures blank { IsBlank text.now → IsOk result }
{
    match toml::table_from_str(alloc, text) {
        Ok(table) => rows_of_table(alloc, &table),
        Err(error) => {
            if error.is_memory() {
                Err(HookFileFault::Memory)
            } else {
                Err(HookFileFault::BadHookFile(0))
            }
        }
    }
}

// The rows of a document.
#[tactic(auto, using(crate::proofs::Tables::members_count_view), unfolding(crate::specs::HookFile::hook_of, crate::specs::HookFile::elements_of))]
fn rows_of_table(alloc: Global, table: &Table) -> Result<Vec<HookRow>, HookFileFault>
    ensures meant { Answers (hook_of (table_view table.now)) result }
    ensures few { IfOk result (λ rows. vec_len rows ≤ 4096) }
    ensures empty { members_count (table_view table.now) ≡ 0 → IsOk result }
{
    if table.is_empty() {
        return Ok(Vec::new(alloc));
    }
    match elements_of_table(table) {
        Some(elements) => rows_of_elements(alloc, elements),
        None => Err(HookFileFault::BadHookFile(0)),
    }
}

// The elements of a document that has the one member `row`.
#[tactic(auto, using(crate::proofs::Tables::members_count_view), unfolding(crate::specs::HookFile::elements_of))]
fn elements_of_table(table: &Table) -> Option<&Array>
    requires { 0 < members_count (table_view table.now) }
    ensures elements { option_map (λ values. map view values.now.items) result ≡ elements_of (table_view table.now) }
    ensures few { IfSome result (λ values. vec_len values.now ≤ 4096) }
{
    if table.len() != 1 {
        return None;
    }
    let value = value_at(table, "row")?;
    let elements = value.as_array()?;
    if elements.len() > MOST_ROWS {
        return None;
    }
    Some(elements)
}

// The rows of an array's elements, or the number of the first that is none.
fn rows_of_elements(alloc: Global, elements: &[Value]) -> Result<Vec<HookRow>, HookFileFault>
    requires { length elements.now ≤ 4096 }
    ensures meant { Answers (rows_of (map view elements.now)) result }
    ensures few { IfOk result (λ rows. vec_len rows ≤ 4096) }
{
    let Ok(mut rows) = Vec::with_capacity(alloc, elements.len()) else {
        return Err(HookFileFault::Memory);
    };
    for element in elements {
        let Some(row) = row_of_element(element) else {
            return Err(HookFileFault::BadHookFile(rows.len() as u32 + 1));
        };
        if rows.push(row).is_err() {
            return Err(HookFileFault::Memory);
        }
    }
    Ok(rows)
}

// The row of an element, if it is one.
#[tactic(auto, using(crate::proofs::Tables::members_count_view), unfolding(crate::specs::HookFile::row_of))]
fn row_of_element(element: &Value) -> Option<HookRow>
    ensures { option_map told result ≡ row_of (view element.now) }
{
    let table = element.as_table()?;
    if table.len() != ROW_MEMBERS {
        return None;
    }
    row_of_table(table)
}

// The row of a table that has its members.
#[tactic(auto, unfolding(crate::specs::HookFile::row_of_members))]
fn row_of_table(table: &Table) -> Option<HookRow>
    ensures { option_map told result ≡ row_of_members (table_view table.now) }
{
    let algorithm = algorithm_of(integer_at(table, "algorithm")?)?;
    let key = short_digest_of(string_at(table, "key")?)?;
    let digits = string_at(table, "digest")?;
    let digest = padded_digest_of(digits)?;
    let signature = short_digest_of(string_at(table, "signature")?)?;
    Some(HookRow {
        algorithm,
        key,
        digest_len: (digits.len() / 2) as u8,
        digest,
        signature,
    })
}

// The value at a key.
fn value_at<'a>(table: &'a Table, key: &str) -> Option<&'a Value>
    ensures { option_map (λ value. view value.now) result ≡ get_member key.now (table_view table.now) }
{
    table.get(key)
}

// The integer at a key.
#[tactic(auto, unfolding(crate::specs::HookFile::integer_at))]
fn integer_at(table: &Table, key: &str) -> Option<i64>
    ensures { result ≡ spec.integer_at key.now (table_view table.now) }
{
    match value_at(table, key) {
        Some(value) => value.as_integer(),
        None => None,
    }
}

// The string at a key.
#[tactic(auto, unfolding(crate::specs::HookFile::string_at))]
fn string_at<'a>(table: &'a Table, key: &str) -> Option<&'a str>
    ensures { option_map (λ text. text.now) result ≡ spec.string_at key.now (table_view table.now) }
{
    match value_at(table, key) {
        Some(value) => value.as_str(),
        None => None,
    }
}

// The number of an algorithm, 0 to 17.
fn algorithm_of(number: i64) -> Option<u32>
    ensures { result ≡ spec.algorithm_of number }
{
    if number < 0 || number > MOST_ALGORITHM {
        return None;
    }
    Some(number as u32)
}

// The digest of SHA-256 that digits tell.
fn short_digest_of(digits: &str) -> Option<[u8; 32]>
    ensures { result ≡ bytes_of is_short digits.now }
{
    let mut bytes = [0; 32];
    match hex::decode_to_slice(digits, &mut bytes) {
        Ok(()) => Some(bytes),
        Err(_) => None,
    }
}

// The digest of SHA-256 or of SHA-512 that digits tell, and zeros after it.
fn padded_digest_of(digits: &str) -> Option<[u8; 64]>
    ensures bytes { option_map (λ bytes. take (length digits.now / 2) bytes) result ≡ bytes_of is_short_or_long digits.now }
    ensures size { IfSome result (λ _. IsTrue (is_digest_size (length digits.now / 2))) }
    ensures zeros { IfSome result (λ bytes. drop (length digits.now / 2) bytes ≡ replicate (64 - length digits.now / 2) 0) }
{
    if digits.len() != SHORT_DIGITS && digits.len() != LONG_DIGITS {
        return None;
    }
    let mut bytes = [0; 64];
    match hex::decode_to_slice(digits, &mut bytes[..digits.len() / 2]) {
        Ok(()) => Some(bytes),
        Err(_) => None,
    }
}
