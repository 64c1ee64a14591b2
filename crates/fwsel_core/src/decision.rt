// The decision on the mode of a boot. The constants are the reasons for a recovery, and the flags of the GBB that count.
ghost use Rattle.std.specs.Prelude.{◌≡◌, ◌↔◌, IsTrue};
ghost use Rattle.fwsel_core.specs.Mode.{IsDeveloperOn, mode_of};

use crate::boot_mode::{Mode, ModeFacts};
use crate::flags::DEVELOPER_MODE;
use record_core::NvField;

const REASON_GBB: u8 = 10;

const REASON_FIRMWARE_SPACE: u8 = 11;

const REASON_KERNEL_SPACE: u8 = 12;

const GBB_DEVELOPER_SWITCH: u32 = 0x08;

const GBB_MANUAL_RECOVERY: u32 = 0x4000;

/// Decides the mode of a boot. It has no refusal.
/// Source: `vb2_check_recovery` of vboot_reference.
pub fn mode(facts: &ModeFacts) -> Mode
    ensures { result ≡ mode_of facts.now }
{
    let flags = match facts.gbb {
        Ok(flags) => flags,
        Err(subcode) => return broken(REASON_GBB, subcode),
    };
    if facts.recovery || flags & GBB_MANUAL_RECOVERY != 0 {
        return Mode::Manual;
    }
    if let Err(subcode) = facts.firmware {
        return broken(REASON_FIRMWARE_SPACE, subcode);
    }
    if let Some(subcode) = facts.kernel {
        return broken(REASON_KERNEL_SPACE, subcode);
    }
    let request = facts.nv.get(NvField::RecoveryRequest);
    if request != 0 {
        return broken(request, facts.nv.get(NvField::RecoverySubcode));
    }
    if is_developer_on(facts) {
        return Mode::Developer;
    }
    Mode::Normal
}

/// Whether developer mode is on: by the flag of a good firmware space that nvdata does not ask to switch off, or by the
/// switch in the GBB.
/// Source: `vb2_check_dev_switch` of vboot_reference.
pub fn is_developer_on(facts: &ModeFacts) -> bool
    ensures { IsTrue result ↔ IsDeveloperOn facts.now }
{
    let by_space = matches!(facts.firmware, Ok(flags) if flags & DEVELOPER_MODE != 0);
    let by_gbb = matches!(facts.gbb, Ok(flags) if flags & GBB_DEVELOPER_SWITCH != 0);
    by_space && facts.nv.get(NvField::DisableDev) == 0 || by_gbb
}

fn broken(reason: u8, subcode: u8) -> Mode
    ensures { result ≡ Mode.Broken reason subcode }
{
    Mode::Broken { reason, subcode }
}
