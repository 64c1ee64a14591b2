// Locking both spaces of the TPM, where a boot goes on.
ghost use Rattle.std.specs.Prelude.{◌≡◌};
ghost use Rattle.board_core.specs.Tpm.{unlocked};
ghost use Rattle.board_core.specs.World.{world};
ghost use Rattle.boot_core.specs.Steps.{LocksBoth, LocksAt};

use crate::outcome::Outcome;
use board_core::{Device, Disk, Fault, Flash, Hook, Platform, Space, Tpm};

// Locks both spaces, after so many changes.
fn lock_both<F: Flash, T: Tpm, D: Disk, E: Disk, H: Hook>(
    p: &mut Platform<F, T, D, E, H>,
    done: u8,
) -> Result<(), Fault>
    ensures { LocksBoth done (world F.state T.state H.state p.old) (world F.state T.state H.state p.new) result }
{
    let fault = Fault {
        device: Device::Tpm,
        done,
    };
    let Ok(_) = p.tpm.lock(Space::Firmware) else {
        return Err(fault);
    };
    let Ok(_) = p.tpm.lock(Space::Kernel) else {
        return Err(fault);
    };
    Ok(())
}

/// Locks both spaces, after so many changes, where the boot goes on.
///
/// A `Fault` is one of the TPM. Each space is locked or not then.
pub fn lock_at<F: Flash, T: Tpm, D: Disk, E: Disk, H: Hook>(
    p: &mut Platform<F, T, D, E, H>,
    outcome: Outcome,
    done: u8,
) -> Result<(), Fault>
    requires { (world F.state T.state H.state p.old).tpm.locks ≡ unlocked }
    ensures { LocksAt outcome done (world F.state T.state H.state p.old) (world F.state T.state H.state p.new) result }
{
    match outcome {
        Outcome::HandOver(_) => lock_both(p, done),
        _ => Ok(()),
    }
}
