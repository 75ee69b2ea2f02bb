// A description and a state as plain numbers: what C and Rust hand in and get back.
#![tactic(auto)]

ghost use Rattle.std.specs.Prelude.{◌≡◌};
ghost use Rattle.numbers.specs.Promises.{DescriptionOfPromise, StateOfPromise, WritePromise};

use device::State;
use flash::ROW_WORDS;
use measure::ProgramAddress;
use part::Description;

// Page words, GS pages, AS pages, keys, auxiliary vector.
pub const DESCRIPTION: usize = 5;

// PC, IOPUWR, stopped, FGS, FAS; the latches come after them.
const REGISTERS: usize = 5;

pub const STATE: usize = REGISTERS + ROW_WORDS;

// Functions and no `From`, here and below: Description and State are of other crates.
pub fn description_of(numbers: &[u32; DESCRIPTION]) -> Description
    ensures { DescriptionOfPromise numbers.now result }
{
    let [page_words, general_pages, auxiliary_pages, keys, vector] = *numbers;
    Description {
        page_words,
        general_pages,
        auxiliary_pages,
        keys: keys != 0,
        auxiliary_vector: ProgramAddress(vector),
    }
}

// A byte is the low 8 bits of its number, whatever the others are.
pub fn state_of(numbers: &[u32; STATE]) -> State
    ensures { StateOfPromise numbers.now result }
{
    let [pc, iopuwr, stopped, fgs, fas, ..] = *numbers;
    // The latches are the last numbers: the length says how many.
    let latches = *numbers.last_chunk().unwrap();
    State {
        pc: ProgramAddress(pc),
        iopuwr: iopuwr != 0,
        stopped: stopped != 0,
        fgs: (fgs % 256) as u8,
        fas: (fas % 256) as u8,
        latches,
    }
}

pub fn write(state: State, numbers: &mut [u32; STATE])
    ensures { WritePromise state numbers.new }
{
    let (registers, latches) = numbers.split_at_mut(REGISTERS);
    registers.copy_from_slice(&[
        state.pc.0,
        u32::from(state.iopuwr),
        u32::from(state.stopped),
        u32::from(state.fgs),
        u32::from(state.fas),
    ]);
    latches.copy_from_slice(&state.latches);
}
