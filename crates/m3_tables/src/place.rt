/// Where a word of a frame is: in a register, from 0 to 15, or in a slot of the frame, from 0.
#[derive(Clone, Copy, Debug, PartialEq, Eq, PartialOrd, Ord, Hash)]
pub enum Location {
    Register(u8),
    Slot(u32),
}

impl Location {
    ghost use Rattle.std.specs.Prelude.{◌≡◌, ◌<◌, ◌^◌};
    ghost use Rattle.m3_tables.specs.Places.{location_of, number_of};

    /// The place that a number stands for.
    pub fn from_number(number: u32) -> Location
        ensures { result ≡ location_of number }
    {
        if number < 16 {
            Location::Register(number as u8)
        } else {
            Location::Slot(number - 16)
        }
    }

    /// The number that stands for this place in an image: a register's own, and 16 more than a slot's.
    /// There is none for a register past 15, and for a slot whose number would pass 32 bits.
    pub fn number(self) -> Option<u32>
        ensures { result ≡ number_of self }
    {
        match self {
            Location::Register(register) => {
                if register < 16 {
                    Some(register as u32)
                } else {
                    None
                }
            }
            Location::Slot(slot) => slot.checked_add(16),
        }
    }
}
