// What a part is: its description, where an address lies, whose code runs there, and which target of table 23-1 it is.
#![tactic(auto)]

ghost use Rattle.std.specs.Prelude.{◌≡◌, ◌*◌};
ghost use Rattle.part.specs.Descriptions.{good_vector, general_words, auxiliary_words};
ghost use Rattle.part.specs.Places.{auxiliary_end, auxiliary_first, place_of, code_in, byte_of};
ghost use Rattle.part.specs.Promises.{
  BenchPromise,
  HasAuxiliaryPromise,
  IsValidPromise,
  IsSizedPromise,
  PlaceAtPromise,
  IsImplementedPromise,
  IsAuxiliaryPromise,
  RunningAtPromise,
  FromGeneralPromise,
  SegmentOfPromise,
  TargetOfPromise,
};

use measure::{InstructionLocation, ProgramAddress};
use permission::{Origin, Segment, Target};

#[derive(Clone, Copy)]
pub struct Description {
    pub page_words: u32,
    // Vectors included.
    pub general_pages: u32,
    pub auxiliary_pages: u32,
    // Whether the fuse bytes have key bits.
    pub keys: bool,
    // Where an interrupt goes while the Auxiliary Segment's code runs. No option: refusal 7 knows a vector without AS pages.
    pub auxiliary_vector: ProgramAddress,
}

// One of the two lent flash arrays.
#[derive(Clone, Copy, PartialEq, Eq)]
pub enum FlashArray {
    GeneralArray,
    AuxiliaryArray,
}

// Where an instruction location lies: its array, and its index there.
#[derive(Clone, Copy)]
pub struct Place {
    pub array: FlashArray,
    pub index: u32,
}

pub const VECTOR_WORDS: u32 = 256;

#[tactic(auto, using(crate::proofs::Laws::product_lt))]
fn words(pages: u32, page: u32) -> usize
    ensures { result ≡ pages * page }
{
    (pages as usize) * (page as usize)
}

// The location after the last of the Auxiliary Segment.
fn auxiliary_end() -> usize
    ensures { result ≡ auxiliary_end }
{
    let last = ProgramAddress(0x7FFFFE).location();
    last.0 as usize + 1
}

impl Description {
    pub fn bench() -> Self
        ensures { BenchPromise result }
    {
        Description {
            page_words: 512,
            general_pages: 10,
            auxiliary_pages: 4,
            keys: true,
            auxiliary_vector: ProgramAddress(0x7FFFEA),
        }
    }

    pub fn has_auxiliary(self) -> bool
        ensures { HasAuxiliaryPromise self result }
    {
        self.auxiliary_pages != 0
    }

    fn has_good_vector(self) -> bool
        ensures { result ≡ good_vector self }
    {
        let vector = self.auxiliary_vector.0;
        if self.has_auxiliary() {
            (vector % 2 == 0) & (0x7FFFC0..=0x7FFFFE).contains(&vector)
        } else {
            vector == 0
        }
    }

    #[tactic(auto, unfolding(crate::specs::Descriptions::is_valid))]
    pub fn is_valid(self) -> bool
        ensures { IsValidPromise self result }
    {
        let page = matches!(self.page_words, 512 | 1024);
        let general = (1..=64).contains(&self.general_pages);
        let auxiliary = self.auxiliary_pages <= 16;
        page & general & auxiliary & self.has_good_vector()
    }

    fn general_words(self) -> usize
        ensures { result ≡ general_words self }
    {
        words(self.general_pages, self.page_words)
    }

    fn auxiliary_words(self) -> usize
        ensures { result ≡ auxiliary_words self }
    {
        words(self.auxiliary_pages, self.page_words)
    }

    // Whether the description's arrays, lent apart as document 01 has them, have these lengths.
    pub fn is_sized(self, general: usize, auxiliary: usize) -> bool
        ensures { IsSizedPromise self general auxiliary result }
    {
        (general == self.general_words()) & (auxiliary == self.auxiliary_words())
    }

    fn auxiliary_first(self) -> usize
        ensures { result ≡ auxiliary_first self }
    {
        auxiliary_end().saturating_sub(self.auxiliary_words())
    }

    #[tactic(auto, unfolding(crate::specs::Places::place_of))]
    fn place_of(self, location: InstructionLocation) -> Option<Place>
        ensures { result ≡ place_of self location }
    {
        let index = location.0 as usize;
        if auxiliary_end() <= index {
            return None;
        }
        if index < self.general_words() {
            return Some(Place {
                array: FlashArray::GeneralArray,
                index: location.0,
            });
        }
        let from_first = index.checked_sub(self.auxiliary_first())?;
        Some(Place {
            array: FlashArray::AuxiliaryArray,
            index: from_first as u32,
        })
    }

    // Where an address lies; None where it is unimplemented.
    pub fn place_at(self, address: ProgramAddress) -> Option<Place>
        ensures { PlaceAtPromise self address result }
    {
        self.place_of(address.location())
    }

    // Whose code runs at a PC, any 32-bit number; None where it is not executable.
    #[tactic(auto, unfolding(crate::specs::Places::running_at))]
    pub fn running_at(self, pc: ProgramAddress) -> Option<Origin>
        ensures { RunningAtPromise self pc result }
    {
        if pc.0 % 2 != 0 {
            return None;
        }
        running_in(pc, self.place_at(pc)?)
    }
}

pub fn is_implemented(place: Option<Place>) -> bool
    ensures { IsImplementedPromise place result }
{
    place.is_some()
}

pub fn is_auxiliary(place: Option<Place>) -> bool
    ensures { IsAuxiliaryPromise place result }
{
    place.is_some_and(|place| place.array == FlashArray::AuxiliaryArray)
}

// Code of the General Segment runs from its own words and from the Reset instruction, and nowhere else in the vectors.
fn running_in(pc: ProgramAddress, place: Place) -> Option<Origin>
    ensures { result ≡ code_in pc place.array place.index }
{
    match place.array {
        FlashArray::GeneralArray => {
            let executable = (pc.0 == 0) | (VECTOR_WORDS <= place.index);
            executable.then_some(Origin::FromGeneral)
        }
        FlashArray::AuxiliaryArray => Some(Origin::FromAuxiliary),
    }
}

pub fn from_general(origin: Origin) -> bool
    ensures { FromGeneralPromise origin result }
{
    origin == Origin::FromGeneral
}

// The segment of a word, where the first words of the General Segment's array count as vectors.
pub fn segment_of(vectors: u32, place: Place) -> Segment
    ensures { SegmentOfPromise vectors place result }
{
    match place.array {
        FlashArray::GeneralArray if place.index < vectors => Segment::Vectors,
        FlashArray::GeneralArray => Segment::General,
        FlashArray::AuxiliaryArray => Segment::Auxiliary,
    }
}

fn byte_of(fgs: u8, fas: u8, segment: Segment) -> u8
    ensures { result ≡ byte_of fgs fas segment }
{
    match segment {
        Segment::General | Segment::Vectors => fgs,
        Segment::Auxiliary => fas,
    }
}

// The column of a segment in table 23-1, by the two fuse bytes; keys and bytes by themselves, as its promise names them.
#[tactic(auto, unfolding(crate::specs::Places::target_of))]
pub fn target_of(keys: bool, fgs: u8, fas: u8, segment: Segment) -> Target
    ensures { TargetOfPromise keys fgs fas segment result }
{
    let byte = byte_of(fgs, fas, segment);
    let level = fuse::level_of(keys, byte);
    let protection = fuse::write_protection_of(byte);
    Target {
        segment,
        level,
        protection,
    }
}
