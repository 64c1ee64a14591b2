// Laws over what a boot does.
ghost use Rattle.boot_core.specs.Beside.{StaysBeside, StaysBetween};
ghost use Rattle.boot_core.specs.Boots.{TakesGoodChoice};

/// A law: two flashes that are the same but for the two pages of nvdata have the same map, where that has no fault, and the same bytes
/// in the GBB and in each other area of it. So what a boot read of them before it stored a record is what stands after it.
pub fn nvdata_is_beside()
    ensures { StaysBeside }
{}

/// A law: two disks that are the same but for both copies of the partition table hold the same in the partition of each used entry of
/// the table that stands on the one, where that is as long as it tells. So a kernel that was verified before the table was written
/// is what stands after it.
pub fn table_is_beside()
    ensures { StaysBetween }
{}

/// A law: no good choice is refused. Where the mode of a board boots a slot, the tables of the selected one find no fault, and some
/// candidate of the drive is good by its key and rules, the plan hands over.
pub fn good_choice_is_taken()
    ensures { TakesGoodChoice }
{}
