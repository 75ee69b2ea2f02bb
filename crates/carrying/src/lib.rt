// Carrying out: what a decision does to the registers, the latches and the two lent arrays.
#![tactic(auto)]

ghost use Rattle.std.specs.Prelude.{◌≡◌, set};
ghost use Rattle.flash.specs.Operations.{read_word};
ghost use Rattle.carrying.specs.CarryingOut.{
  read_answer,
  words_in,
  array_of,
  program,
  erase,
  clear,
  store_fuse,
};
ghost use Rattle.std.specs.Fn.{FnOnceReturnsAtMut};
ghost use Rattle.rules.specs.SecretSegment.{other_array};
ghost use Rattle.carrying.specs.Lent.{as_device, Leaves};
ghost use Rattle.carrying.specs.Promises.{ArrayOfPromise, CarryOutPromise};

use flash::{BLANK, ROW_WORDS};
use measure::ProgramAddress;
use part::{FlashArray, Place};
use rules::{Answer, Change, Decision, Registers};

// A device besides its description. Its arrays by themselves: of a struct of both, `step` and `run` know no last values.
#[derive(Drop)]
pub struct LentDevice<'a> {
    pub general: &'a mut [u32],
    pub auxiliary: &'a mut [u32],
    // After the arrays, where wide loads of the latches are aligned.
    pub latches: [u32; ROW_WORDS],
    pub registers: Registers,
}

// A fuse byte that was cleared: level none, writable.
const CLEARED: u8 = 0x03;

const BLANK_LATCHES: [u32; ROW_WORDS] = [BLANK; ROW_WORDS];

// The words of the array that is meant.
pub fn array_of<'a>(array: FlashArray, general: &'a [u32], auxiliary: &'a [u32]) -> &'a [u32]
    ensures { ArrayOfPromise array general.now auxiliary.now result.now }
{
    match array {
        FlashArray::GeneralArray => general,
        FlashArray::AuxiliaryArray => auxiliary,
    }
}

fn load(latches: &mut [u32], latch: u32, word: u32)
    ensures { latches.new ≡ set latches.old latch word }
{
    let index = latch as usize;
    if index < latches.len() {
        latches[index] = word;
    }
}

// What `change` makes of one of the arrays.
fn change_array<R, F: FnOnce(&mut [u32]) -> R>(
    array: FlashArray,
    general: &mut [u32],
    auxiliary: &mut [u32],
    change: F,
) -> R
    requires { F.IsAlwaysCallable change }
    ensures changed { FnOnceReturnsAtMut F.FnOnce change (array_of array general.old auxiliary.old) result
        (array_of array general.new auxiliary.new) }
    ensures other { array_of (other_array array) general.new auxiliary.new
        ≡ array_of (other_array array) general.old auxiliary.old }
{
    match array {
        FlashArray::GeneralArray => change(general),
        FlashArray::AuxiliaryArray => change(auxiliary),
    }
}

impl LentDevice<'_> {
    fn read(&self, place: Place) -> Answer
        ensures { result ≡ read_answer (read_word (words_in place.array (as_device self.now)) place.index) }
    {
        let flash = array_of(place.array, self.general, self.auxiliary);
        flash::read_word(flash, place.index as usize).map_or(Answer::Zeroed, Answer::Done)
    }

    // The row that holds the place, from the latches, which are blank afterwards.
    #[tactic(auto, unfolding(crate::specs::CarryingOut::program))]
    fn program(&mut self, place: Place) -> Answer
        ensures { Leaves result self.old self.new (program place.array place.index (as_device self.old)) }
    {
        let index = place.index as usize;
        let latches = &self.latches;
        let programmed = change_array(place.array, self.general, self.auxiliary, |flash| {
            flash::program_row(flash, index, latches)
        });
        if programmed.is_ok() {
            self.latches = BLANK_LATCHES;
        }
        programmed.map_or(Answer::NotStarted, Answer::Done)
    }

    // The page that holds the place.
    #[tactic(auto, unfolding(crate::specs::CarryingOut::erase))]
    fn erase(&mut self, page: usize, place: Place) -> Answer
        ensures { Leaves result self.old self.new (erase page place.array place.index (as_device self.old)) }
    {
        let index = place.index as usize;
        let erased = change_array(place.array, self.general, self.auxiliary, |flash| {
            flash::erase_page(flash, page, index)
        });
        erased.map_or(Answer::NotStarted, |()| Answer::Done(0))
    }

    fn store_fuse(&mut self, array: FlashArray, byte: u8) -> Answer
        ensures { Leaves result self.old self.new (store_fuse array byte (as_device self.old)) }
    {
        match array {
            FlashArray::GeneralArray => self.registers.fgs = byte,
            FlashArray::AuxiliaryArray => self.registers.fas = byte,
        }
        Answer::Done(0)
    }

    #[tactic(auto, unfolding(crate::specs::CarryingOut::clear))]
    fn clear(&mut self, array: FlashArray) -> Answer
        ensures { Leaves result self.old self.new (clear array (as_device self.old)) }
    {
        change_array(array, self.general, self.auxiliary, flash::erase_all);
        self.store_fuse(array, CLEARED)
    }

    // A decision, on a device of this page size.
    #[tactic(auto, unfolding(crate::specs::CarryingOut::carry_out))]
    pub fn carry_out(&mut self, page: usize, decision: Decision) -> Answer
        ensures { CarryOutPromise page self.old decision result self.new }
    {
        match decision {
            Decision::Refuse(answer) => answer,
            Decision::Trap => {
                self.registers.stopped = true;
                Answer::AddressTrap
            }
            Decision::Reset => {
                self.registers.pc = ProgramAddress(0);
                self.registers.iopuwr = true;
                self.latches = BLANK_LATCHES;
                Answer::SecurityReset
            }
            Decision::PowerUp => {
                self.registers.pc = ProgramAddress(0);
                self.registers.iopuwr = false;
                self.registers.stopped = false;
                self.latches = BLANK_LATCHES;
                Answer::Done(0)
            }
            Decision::MoveTo(target) => {
                self.registers.pc = target;
                Answer::Done(0)
            }
            Decision::LoadLatch(latch, word) => {
                load(&mut self.latches, latch, word);
                Answer::Done(0)
            }
            Decision::ReadAt(place) => self.read(place),
            Decision::ChangeAt(Change::Row, place) => self.program(place),
            Decision::ChangeAt(Change::Page, place) => self.erase(page, place),
            Decision::EraseWhole(array) => self.clear(array),
            Decision::StoreFuse(array, byte) => self.store_fuse(array, byte),
        }
    }
}
