// Measures: program addresses, instruction locations and 24-bit words.
#![tactic(auto)]

ghost use Rattle.measure.specs.Promises.{
  LocationPromise,
  AddressPromise,
  WordPromise,
  ProgrammedWordPromise,
  BitsNotSetPromise,
};

// A program address: it counts two for every instruction location.
#[derive(Clone, Copy)]
pub struct ProgramAddress(pub u32);

// An instruction location: it counts one for every word of program memory.
#[derive(Clone, Copy)]
pub struct InstructionLocation(pub u32);

impl ProgramAddress {
    // The instruction location that holds this address; an odd address lies in the one that starts just before it.
    pub fn location(self) -> InstructionLocation
        ensures { LocationPromise self result }
    {
        InstructionLocation(self.0 / 2)
    }
}

impl InstructionLocation {
    // The program address at which this location starts; None where twice the location is more than an address can hold.
    #[tactic(auto, unfolding(crate::specs::Measures::address_of))]
    pub fn address(self) -> Option<ProgramAddress>
        ensures { AddressPromise self result }
    {
        self.0.checked_mul(2).map(ProgramAddress)
    }
}

// A lent number read as a word: its top byte is ignored.
pub fn word(lent: u32) -> u32
    ensures { WordPromise lent result }
{
    lent % 0x1000000
}

// What programming makes of a word: the old word AND the latch.
pub fn programmed_word(old: u32, latch: u32) -> u32
    ensures { ProgrammedWordPromise old latch result }
{
    word(old) & word(latch)
}

// How many bits are one in the latch and zero in the old word: programming cannot set them.
pub fn bits_not_set(old: u32, latch: u32) -> u32
    ensures { BitsNotSetPromise old latch result }
{
    (word(latch) & !word(old)).count_ones()
}
