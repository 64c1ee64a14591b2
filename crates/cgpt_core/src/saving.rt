// The table of a room, written where it is to be.
ghost use Rattle.gpt_core.specs.Room.{CanCommit};
ghost use Rattle.cgpt_core.specs.Tables.{Saves};

use board_core::{Disk, Failed};
use gpt_core::{GptRoom, commit};

// Writes the table of the room into both copies, where it does not stand in both already.
pub(crate) fn save<D: Disk>(disk: &mut D, room: &mut GptRoom) -> Result<(), Failed>
    requires { CanCommit (D.state disk.old) room.old }
    ensures { Saves room.old (D.state disk.old) (D.state disk.new) result }
{
    if !room.changed() {
        return Ok(());
    }
    commit(disk, room)
}
