// The device: its state; one event, a list of events, the lecturer's page view.
#![tactic(auto)]

ghost use Rattle.std.specs.Prelude.{◌≡◌, take};
ghost use Rattle.part.specs.Places.{vector_words};
ghost use Rattle.rules.specs.Rules.{decide};
ghost use Rattle.carrying.specs.Lent.{as_device, Leaves};
ghost use Rattle.device.specs.States.{device_of};
ghost use Rattle.device.specs.OneEvent.{event_on};
ghost use Rattle.device.specs.Promises.{
  NewPromise,
  RegistersFromPromise,
  StateFromPromise,
  StepPromise,
  RunPromise,
  PageViewPromise,
};

use carrying::LentDevice;
use event::Event;
use flash::ROW_WORDS;
use measure::ProgramAddress;
use part::Description;
use rules::{Answer, Decision, Registers};

mod lists;
mod views;

// What a device remembers besides its flash. Its fields are what callers set, as README does, so no `Registers` inside.
#[derive(Clone, Copy)]
pub struct State {
    pub pc: ProgramAddress,
    pub iopuwr: bool,
    pub stopped: bool,
    pub fgs: u8,
    pub fas: u8,
    pub latches: [u32; ROW_WORDS],
}

// What one event leaves besides the flash. Refused or not, it has a state, so no Result.
#[derive(Clone, Copy)]
pub struct Stepped {
    pub answer: Answer,
    pub state: State,
}

// What a run leaves besides the flash and the slots. Refused or not, document 01 gives it a number and a count, so no Result.
#[derive(Clone, Copy)]
pub struct Ran {
    pub answer: Answer,
    pub count: usize,
    pub state: State,
}

impl State {
    pub fn new() -> Self
        ensures { NewPromise result }
    {
        State {
            pc: ProgramAddress(0),
            iopuwr: false,
            stopped: false,
            fgs: 0x03,
            fas: 0x03,
            latches: [flash::BLANK; ROW_WORDS],
        }
    }

    // One event: its answer and the state after it; what it leaves in the flash is in the two lent arrays.
    #[tactic(auto, unfolding(crate::specs::OneEvent::step))]
    pub fn step(
        self,
        description: Description,
        general: &mut [u32],
        auxiliary: &mut [u32],
        event: Event,
    ) -> Stepped
        ensures { StepPromise description (device_of self general.old auxiliary.old) event
            result.answer (device_of result.state general.new auxiliary.new) }
    {
        let refused = |answer| Stepped {
            answer,
            state: self,
        };
        // Each test as the definition has it, here and in run: one function of 7 and 8 needs a definition of its own.
        if !description.is_valid() {
            return refused(Answer::BadDescription);
        }
        if !description.is_sized(general.len(), auxiliary.len()) {
            return refused(Answer::WrongFlashLength);
        }
        if !event::is_well_formed(event) {
            return refused(Answer::MalformedEvent);
        }
        let latches = self.latches;
        // Built here and in run: from a function that built it, the check learns nothing of the arrays at exit.
        let mut device = LentDevice {
            registers: Registers::from(self),
            latches,
            general,
            auxiliary,
        };
        let answer = event_on(&mut device, description, event);
        Stepped {
            answer,
            state: State::from(&device),
        }
    }

    // A list up to its end, the limit, or the first answer 3 or 4: three numbers an event and two slots an answer, as C lends them.
    #[tactic(auto, unfolding(crate::specs::Lists::run))]
    pub fn run(
        self,
        description: Description,
        general: &mut [u32],
        auxiliary: &mut [u32],
        list: &[u32],
        slots: &mut [u32],
        limit: usize,
    ) -> Ran
        ensures { RunPromise description (device_of self general.old auxiliary.old) list.now slots.old limit
            result.answer result.count (device_of result.state general.new auxiliary.new) slots.new }
    {
        let refused = |answer| Ran {
            answer,
            count: 0,
            state: self,
        };
        if !description.is_valid() {
            return refused(Answer::BadDescription);
        }
        if !description.is_sized(general.len(), auxiliary.len()) {
            return refused(Answer::WrongFlashLength);
        }
        if !lists::is_good_list(list.len(), slots.len()) {
            return refused(Answer::BadList);
        }
        let latches = self.latches;
        let mut device = LentDevice {
            registers: Registers::from(self),
            latches,
            general,
            auxiliary,
        };
        let count = lists::run_events(&mut device, description, list, slots, limit);
        Ran {
            answer: Answer::Done(0),
            count,
            state: State::from(&device),
        }
    }
}

impl From<State> for Registers {
    ghost from_gives = { RegistersFromPromise };

    fn from(state: State) -> Self {
        Registers {
            pc: state.pc,
            iopuwr: state.iopuwr,
            stopped: state.stopped,
            fgs: state.fgs,
            fas: state.fas,
        }
    }
}

impl From<&LentDevice<'_>> for State {
    ghost from_gives = { λ device state. StateFromPromise (as_device device.now) state };

    fn from(device: &LentDevice) -> Self {
        let registers = device.registers;
        State {
            pc: registers.pc,
            iopuwr: registers.iopuwr,
            stopped: registers.stopped,
            fgs: registers.fgs,
            fas: registers.fas,
            latches: device.latches,
        }
    }
}

// What an event comes to: of the flash, only the words of the vector space are looked at.
fn decided(device: &LentDevice, description: Description, event: Event) -> Decision
    ensures { result ≡ decide description device.now.registers (take vector_words device.now.general.now) event }
{
    let vectors = views::vectors_in(device.general);
    rules::decide(description, device.registers, vectors, event)
}

// A well-formed event on a good device: decided, then carried out. The description stays beside: a Device has none.
#[tactic(auto, unfolding(crate::specs::OneEvent::event_on))]
fn event_on(device: &mut LentDevice, description: Description, event: Event) -> Answer
    ensures { Leaves result device.old device.new (event_on description (as_device device.old) event) }
{
    let decision = decided(device, description, event);
    device.carry_out(description.page_words as usize, decision)
}

// The lecturer's view of the page that holds an address, of arrays lent apart as document 01 has them; else the GS array's empty front.
#[tactic(auto, unfolding(crate::specs::PageView::page_view))]
pub fn page_view<'a>(
    description: Description,
    general: &'a [u32],
    auxiliary: &'a [u32],
    address: ProgramAddress,
) -> &'a [u32]
    ensures { PageViewPromise description general.now auxiliary.now address result.now }
{
    let good = description.is_valid() & description.is_sized(general.len(), auxiliary.len());
    let even = address.0 % 2 == 0;
    if !(good & even) {
        return &general[..0];
    }
    views::page_in(
        description.page_words as usize,
        general,
        auxiliary,
        description.place_at(address),
    )
}
