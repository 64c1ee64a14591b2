// The memory of a boot.
ghost use Rattle.std.specs.Prelude.{◌≡◌, length, IfOk, []};
ghost use Rattle.boot_core.specs.Slots.{taken_firmware};

use chain_core::SlotRoom;
use gpt_core::GptRoom;
use kernel_core::{BodyRoom, HEAD_SIZE};
use std::alloc::{AllocError, Global};

/// The memory of a boot, and of what it hands over.
#[derive(Drop)]
pub struct Room {
    /// The table of a drive.
    pub gpt: GptRoom,
    pub(crate) slot: SlotRoom,
    // Whether the boot before took firmware of a slot.
    pub(crate) has_firmware: bool,
    pub(crate) vblock: Vec<u8>,
    pub(crate) kernel: BodyRoom,
    ghost head: { length vblock.items ≡ 65536 },
}

impl Room {
    /// Takes all the memory that a boot works in. Of the room for the bodies of firmware and kernel only as much is touched as
    /// is read.
    ///
    /// `AllocError`: there is not so much memory.
    pub fn reserve(alloc: Global) -> Result<Room, AllocError>
        ensures firmware { IfOk result (λ room. taken_firmware room.has_firmware room.slot ≡ []) }
        ensures kernel { IfOk result (λ room. room.kernel ≡ []) }
    {
        let gpt = GptRoom::reserve(alloc)?;
        let slot = SlotRoom::reserve(alloc)?;
        let vblock = vec![in alloc; 0; HEAD_SIZE]?;
        let kernel = BodyRoom::reserve(alloc)?;
        Ok(Room {
            gpt,
            slot,
            has_firmware: false,
            vblock,
            kernel,
        })
    }

    /// The bytes of the firmware that the boot before handed over: the body of its slot, or none in a recovery.
    pub fn firmware(&self) -> &[u8]
        ensures { result.now ≡ taken_firmware self.now.has_firmware self.now.slot }
    {
        if self.has_firmware {
            self.slot.body()
        } else {
            &[]
        }
    }

    /// The bytes of the kernel that the boot before handed over: the body in its partition.
    pub fn kernel(&self) -> &[u8]
        ensures { result.now ≡ self.now.kernel }
    {
        self.kernel.bytes()
    }
}
