// The command that brings the kernel space of the TPM into its newer form.
ghost use Rattle.std.specs.Prelude.{◌≡◌};
ghost use Rattle.board_core.specs.World.{world};
ghost use Rattle.boot_core.specs.Carries.{IsSettled};
ghost use Rattle.command_core.specs.Migrating.{migrate_answer, MigratesBoard};
ghost use Rattle.command_core.specs.Prints.{Prints};

use crate::answer::{Answer, Status};
use crate::printing::print;
use board_core::{Device, Disk, Flash, Hook, Platform, Sink, Tpm};
use crossystem_core::{MigrateFault, migrate};

/// Brings the kernel space of a board into its newer form, prints what came of it, and answers the exit status.
pub fn run_migrate<F: Flash, T: Tpm, D: Disk, E: Disk, H: Hook, O: Sink>(
    p: &mut Platform<F, T, D, E, H>,
    out: &mut O,
) -> Status
    requires { IsSettled (world F.state T.state H.state p.old) }
    ensures { MigratesBoard (world F.state T.state H.state p.old) (world F.state T.state H.state p.new) (O.state out.old) (O.state out.new) result }
{
    let came = migrate(&mut p.tpm);
    end_migrate(out, came)
}

// Ends it, and answers the exit status.
fn end_migrate<O: Sink>(out: &mut O, came: Result<bool, MigrateFault>) -> Status
    ensures ends { Prints (migrate_answer came) (O.state out.old) (O.state out.new) result }
    ensures not_usage { result ≡ Status.Usage → ⊥ }
    ensures not_memory { result ≡ Status.NoMemory → ⊥ }
{
    match came {
        Ok(true) => print(out, &Answer::Migrated),
        Ok(false) => print(out, &Answer::AlreadyMigrated),
        Err(MigrateFault::Refused(fault)) => print(out, &Answer::RefusedMigrate(fault)),
        Err(MigrateFault::Failed) => print(out, &Answer::Failed(Device::Tpm)),
    }
}
