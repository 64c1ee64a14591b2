// Accepted signatures as the text of a hook file, which `read_hook` reads again.
ghost use Rattle.std.specs.Prelude.{◌≡◌, ◌≤◌, ◌<◌, ◌++◌, ◌∷◌, [], length, map, codes, string_bytes, IfOk, IfErr, OnOk, Any, Ok, pos};
ghost use Rattle.toml.specs.Data.{member, no_members, integer, array};
ghost use Rattle.toml.specs.View.{view, table_view, items_view};
ghost use Rattle.board_file.specs.HookFile.{told, hook_file};
ghost use Rattle.board_file.specs.HookText as spec;
ghost use Rattle.board_file.specs.HookText.{set_member, TellsBytes, IsElementOf, AreElementsOf};

use board_core::HookRow;
use std::alloc::{AllocError, Global};
use toml::{Table, Value};

// The most that the number of an algorithm is.
const MOST_ALGORITHM: u32 = 17;

/// Why rows were not written as a text.
#[derive(Clone, Copy, Debug, PartialEq, Eq)]
pub enum HookTextFault {
    /// A row has an algorithm that a hook file cannot hold.
    Algorithm,
    /// There was no memory.
    Memory,
}

/// The text of a hook file with these rows and one more, which `read_hook` reads as these rows.
///
/// `Algorithm`: one of them has an algorithm over 17. `Memory`: there was none for the text.
pub fn text_of_rows(
    alloc: Global,
    rows: &[HookRow],
    last: &HookRow,
) -> Result<String, HookTextFault>
    requires few { length rows.now < 4096 }
    ensures reads_back { IfOk result (λ text. hook_file (string_bytes text) ≡ Ok (map told (rows.now ++ last.now ∷ []))) }
    ensures algorithm { IfErr result (λ fault. fault ≡ HookTextFault.Algorithm
        → Any (λ row. 17 < row.algorithm) (rows.now ++ last.now ∷ [])) }
{
    let elements = elements_of_rows(alloc, rows, last)?;
    let Ok(document) = document_of(alloc, elements) else {
        return Err(HookTextFault::Memory);
    };
    match toml::table_to_string(alloc, &document) {
        Ok(text) => Ok(text),
        Err(_) => Err(HookTextFault::Memory),
    }
}

// The document whose one member `row` has these elements.
fn document_of(alloc: Global, elements: Vec<Value>) -> Result<Table, AllocError>
    ensures { IfOk result (λ document. table_view document ≡ member (codes "row") (array (items_view elements.items)) no_members) }
{
    let mut document = Table::new(alloc);
    set(alloc, &mut document, "row", Value::Array(elements))?;
    Ok(document)
}

// The elements of these rows and one more.
fn elements_of_rows(
    alloc: Global,
    rows: &[HookRow],
    last: &HookRow,
) -> Result<Vec<Value>, HookTextFault>
    requires few { length rows.now < 4096 }
    ensures meant { IfOk result (λ elements. AreElementsOf (rows.now ++ last.now ∷ []) (map view elements.items)) }
    ensures algorithm { IfErr result (λ fault. fault ≡ HookTextFault.Algorithm
        → Any (λ row. 17 < row.algorithm) (rows.now ++ last.now ∷ [])) }
{
    let Ok(mut elements) = Vec::with_capacity(alloc, rows.len() + 1) else {
        return Err(HookTextFault::Memory);
    };
    for row in rows {
        let element = element_of_row(alloc, row)?;
        if elements.push(element).is_err() {
            return Err(HookTextFault::Memory);
        }
    }
    let element = element_of_row(alloc, last)?;
    if elements.push(element).is_err() {
        return Err(HookTextFault::Memory);
    }
    Ok(elements)
}

// The element of a row.
fn element_of_row(alloc: Global, row: &HookRow) -> Result<Value, HookTextFault>
    ensures meant { IfOk result (λ element. IsElementOf (told row.now) (view element)) }
    ensures algorithm { IfErr result (λ fault. fault ≡ HookTextFault.Algorithm → 17 < row.now.algorithm) }
{
    if row.algorithm > MOST_ALGORITHM {
        return Err(HookTextFault::Algorithm);
    }
    match members_of_row(alloc, row) {
        Ok(members) => Ok(Value::Table(members)),
        Err(_) => Err(HookTextFault::Memory),
    }
}

// The four members of a row.
fn members_of_row(alloc: Global, row: &HookRow) -> Result<Table, AllocError>
    requires { row.now.algorithm ≤ 17 }
    ensures { IfOk result (λ members. spec.AreMembersOf (told row.now) (table_view members)) }
{
    let algorithm = integer_of(row.algorithm);
    let digest = digits_of(alloc, &row.digest[..usize::from(row.digest_len)])?;
    let key = digits_of(alloc, &row.key)?;
    let signature = digits_of(alloc, &row.signature)?;
    let mut members = Table::new(alloc);
    set(alloc, &mut members, "algorithm", algorithm)?;
    set(alloc, &mut members, "digest", digest)?;
    set(alloc, &mut members, "key", key)?;
    set(alloc, &mut members, "signature", signature)?;
    Ok(members)
}

fn integer_of(number: u32) -> Value
    ensures { view result ≡ integer (pos number) }
{
    Value::from(i64::from(number))
}

// Bytes as a string of hexadecimal digits.
fn digits_of(alloc: Global, bytes: &[u8]) -> Result<Value, AllocError>
    ensures { IfOk result (λ value. TellsBytes bytes.now (view value)) }
{
    let digits = hex::encode(alloc, bytes)?;
    Ok(Value::String(digits))
}

// Sets the value at a key.
fn set(alloc: Global, table: &mut Table, key: &str, value: Value) -> Result<(), AllocError>
    ensures { OnOk result (table_view table.new ≡ set_member (table_view table.old) key.now (view value)) }
{
    let name = String::from_str(alloc, key)?;
    table.insert(name, value)?;
    Ok(())
}
