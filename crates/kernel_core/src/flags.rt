// The flags of a kernel's keyblock.
ghost use Rattle.std.specs.Prelude.{◌≡◌};
ghost use Rattle.wire_core.specs.FirstFault.{first_fault};
ghost use Rattle.kernel_core.specs.KernelTables.{FlagQuestion, flag_lines, has_flag};

use crate::rules::KernelRules;
use key_core::KeyblockFault;

fn has_flag(flags: u32, flag: u32) -> bool
    ensures { result ≡ has_flag flags flag }
{
    flags & flag != 0
}

/// What is wrong with the flags of a keyblock: the first of lines 19 and 20 of the keyblock table whose test holds. Where a
/// matching hash is enough, none is.
pub fn flag_fault(flags: u32, rules: &KernelRules) -> Option<KeyblockFault>
    ensures { let question : FlagQuestion = record { flags = flags; rules = rules.now } in result ≡ first_fault flag_lines question }
{
    if rules.hash_is_enough() {
        return None;
    }
    if !has_flag(flags, rules.developer_flag()) {
        return Some(KeyblockFault::DeveloperFlag);
    }
    if !has_flag(flags, rules.recovery_flag()) {
        return Some(KeyblockFault::RecoveryFlag);
    }
    None
}
