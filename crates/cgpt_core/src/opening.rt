// The table of a disk, and how it was found.
ghost use Rattle.std.specs.Prelude.{◌≡◌};
ghost use Rattle.cgpt_core.specs.Tables as spec;
ghost use Rattle.cgpt_core.specs.Tables.{Opens};

use board_core::{Disk, Failed};
use gpt_core::{Found, GptRoom, Side, read_table};

// The copy from which a table is taken, and whether both copies agree.
#[derive(Clone, Copy)]
pub(crate) struct Opened {
    pub(crate) side: Side,
    pub(crate) agree: bool,
}

// Reads the table of a disk into the room; none where neither copy is good.
pub(crate) fn open_table<D: Disk>(
    disk: &mut D,
    room: &mut GptRoom,
) -> Result<Option<Opened>, Failed>
    requires settled { (D.state disk.old).medium.pending ≡ 0 }
    ensures { Opens (D.state disk.old) (D.state disk.new) room.new result }
{
    let found = read_table(disk, room)?;
    Ok(opened_of(found))
}

fn opened_of(found: Found) -> Option<Opened>
    ensures { result ≡ spec.opened_of found }
{
    match found {
        Found::Primary { agree } => Some(Opened {
            side: Side::Primary,
            agree,
        }),
        Found::Backup => Some(Opened {
            side: Side::Backup,
            agree: false,
        }),
        Found::None => None,
    }
}
