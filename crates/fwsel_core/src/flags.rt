// The flags of the firmware space, and which of them a boot leaves there.
ghost use Rattle.std.specs.Prelude.{◌≡◌, ◌&&◌, not, bit_and, bit_or, ◌-◌, if◌then◌else◌};
ghost use Rattle.fwsel_core.specs.Mode.{has_flag, space_developer_mode, space_last_boot_developer};
ghost use Rattle.fwsel_core.specs.Flags.{flags_after_boot};

const LAST_BOOT_DEVELOPER: u8 = 0x01;

pub(crate) const DEVELOPER_MODE: u8 = 0x02;

/// The flags of the firmware space after a boot, from those before it. `developer` says whether the boot's mode is
/// developer mode, `disable_dev` whether nvdata asks to switch that mode off.
/// Source: `vb2_check_dev_switch` of vboot_reference.
pub fn boot_flags(flags: u8, developer: bool, disable_dev: bool) -> u8
    ensures flags { result ≡ flags_after_boot flags developer disable_dev }
    ensures mode { has_flag result space_developer_mode ≡ (has_flag flags space_developer_mode && not disable_dev) }
    ensures last_boot { has_flag result space_last_boot_developer ≡ developer }
    ensures others { bit_and result 0xfc ≡ bit_and flags 0xfc }
{
    let stays_on = flags & DEVELOPER_MODE != 0 && !disable_dev;
    let switched = with_flag(flags, DEVELOPER_MODE, stays_on);
    with_flag(switched, LAST_BOOT_DEVELOPER, developer)
}

// The flags with one of them on or off.
fn with_flag(flags: u8, flag: u8, on: bool) -> u8
    ensures { result ≡ (if on then bit_or flags flag else bit_and flags (255 - flag)) }
{
    if on { flags | flag } else { flags & !flag }
}
