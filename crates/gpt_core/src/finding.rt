// The table of two copies.
ghost use Rattle.std.specs.Prelude.{◌≡◌, ◌↔◌, ◌≤◌, length, IsTrue, Some};
ghost use Rattle.gpt_core.specs.declared.side.Side.TheVariants.{Backup};
ghost use Rattle.gpt_core.specs.Format.{table_of_image};
ghost use Rattle.gpt_core.specs.Room.{Takes, IsFoundIn, IsValidFound};

use crate::checking::{check_copy, entries_in};
use crate::found::Found;
use crate::room::Images;
use crate::side::Side;
use crate::table::Table;

// Whether the backup copy is good and says what the table says.
fn agrees(sectors: u64, backup: &[u8], table: &Table) -> bool
    requires size { length backup.now ≡ 16896 }
    requires enough { 69 ≤ sectors }
    requires most { sectors ≤ 4294967296 }
    ensures { IsTrue result ↔ (table_of_image Backup sectors backup.now ≡ Some table.now) }
{
    match check_copy(Side::Backup, sectors, backup) {
        Some(head) => table.says(&head, entries_in(Side::Backup, backup)),
        None => false,
    }
}

// Takes the table of a copy, or answers `false` where it is not good.
fn take_copy(side: Side, sectors: u64, copy: &[u8], table: &mut Table) -> bool
    requires size { length copy.now ≡ 16896 }
    requires enough { 69 ≤ sectors }
    requires most { sectors ≤ 4294967296 }
    ensures { Takes side sectors copy.now table.new result }
{
    let Some(head) = check_copy(side, sectors, copy) else {
        return false;
    };
    table.take(head, entries_in(side, copy));
    true
}

// Takes the table of the good primary, else of the good backup. Where neither is good the table is any.
pub(crate) fn find_table(sectors: u64, images: &Images, table: &mut Table) -> Found
    requires enough { 69 ≤ sectors }
    requires most { sectors ≤ 4294967296 }
    ensures found { IsFoundIn result sectors images.now.primary.items images.now.backup.items table.new }
    ensures fits { IsValidFound result sectors table.new }
{
    let backup = images.backup.as_slice();
    if take_copy(Side::Primary, sectors, images.primary.as_slice(), table) {
        let agree = agrees(sectors, backup, table);
        return Found::Primary { agree };
    }
    if take_copy(Side::Backup, sectors, backup, table) {
        return Found::Backup;
    }
    Found::None
}
