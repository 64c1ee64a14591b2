// Looking at a drive, before anything is changed.
ghost use Rattle.std.specs.Prelude.{◌≡◌};
ghost use Rattle.board_core.specs.World.{world};
ghost use Rattle.boot_core.specs.Carries.{IsSettled};
ghost use Rattle.boot_core.specs.Drives as spec;
ghost use Rattle.boot_core.specs.Steps.{LooksAtDrive};

use crate::reading::fault_of;
use crate::room::Room;
use board_core::{Device, Disk, Drive, Fault, Flash, Hook, Platform, Tpm};
use chain_core::Failure;
use kernel_core::{KernelRequest, KernelRules};
use key_core::PackedKey;
use walk_core::{Seen, see};

// The fault of a board on a drive of which a look failed.
fn fault_on(drive: Drive, failure: Failure) -> Fault
    ensures { result ≡ spec.fault_on drive failure }
{
    match failure {
        Failure::Store => match drive {
            Drive::Disk => fault_of(Device::Disk),
            Drive::Stick => fault_of(Device::Stick),
        },
        Failure::Hook => fault_of(Device::Hook),
    }
}

/// Reads the table of a drive of a board, and walks over its kernels, which this key is to have signed. Nothing is changed.
///
/// A `Fault` is one of that drive or of the hook, before any change.
pub fn look_at<F: Flash, T: Tpm, D: Disk, E: Disk, H: Hook>(
    p: &mut Platform<F, T, D, E, H>,
    room: &mut Room,
    drive: Drive,
    key: &PackedKey,
    rules: &KernelRules,
) -> Result<Seen, Fault>
    requires { IsSettled (world F.state T.state H.state p.old) }
    ensures looks { LooksAtDrive drive key.now rules.now (world F.state T.state H.state p.old) (world F.state T.state H.state p.new)
        room.new.gpt room.new.kernel result }
    ensures slot { room.new.slot ≡ room.old.slot }
    ensures firmware { room.new.has_firmware ≡ room.old.has_firmware }
{
    let Room {
        gpt,
        vblock,
        kernel,
        ..
    } = room;
    let request = KernelRequest {
        key: *key,
        rules: *rules,
    };
    let answer = match drive {
        Drive::Disk => see(&mut p.disk, &mut p.hook, gpt, vblock, kernel, &request),
        Drive::Stick => see(&mut p.stick, &mut p.hook, gpt, vblock, kernel, &request),
    };
    match answer {
        Ok(seen) => Ok(seen),
        Err(failure) => Err(fault_on(drive, failure)),
    }
}
