// The two firmware slots, and their numbers in the nvdata record.
ghost use Rattle.std.specs.Prelude.{◌≡◌, ◌≤◌};
ghost use Rattle.fwsel_core.specs.Slot.{slot_of, slot_number, other_slot};

/// A firmware slot of the flash.
#[derive(Clone, Copy, Debug, PartialEq, Eq)]
pub enum Slot {
    A,
    B,
}

impl Slot {
    /// The slot of a number in the nvdata record: 0 is A, any other is B.
    pub fn from_number(number: u8) -> Slot
        ensures { result ≡ slot_of number }
    {
        if number == 0 { Slot::A } else { Slot::B }
    }

    /// The number in the nvdata record: 0 for A, 1 for B.
    pub fn number(self) -> u8
        ensures number { result ≡ slot_number self }
        ensures one_bit { result ≤ 1 }
    {
        match self {
            Slot::A => 0,
            Slot::B => 1,
        }
    }

    /// The other slot.
    pub fn other(self) -> Slot
        ensures { result ≡ other_slot self }
    {
        match self {
            Slot::A => Slot::B,
            Slot::B => Slot::A,
        }
    }
}
