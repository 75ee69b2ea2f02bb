// The rules: what each event comes to. Nothing here looks at flash but for the words of the vector space, which are lent.
#![tactic(auto)]

ghost use Rattle.std.specs.Prelude.{◌≡◌, Some};
ghost use Rattle.part.specs.Places.{running_at};
ghost use Rattle.rules.specs.Rules.{or_refuse, own_rule};
ghost use Rattle.rules.specs.Promises.{NumberPromise, ValuePromise, DecidePromise};

use event::Event;
use measure::ProgramAddress;
use part::{Description, FlashArray, Place};
use permission::Origin;

mod flow;
mod protection;
mod words;

// What the student sees. One enum and no Result: number_of, value_of and answer_again go by the paper's ten answers.
#[derive(Clone, Copy)]
pub enum Answer {
    // With the word read, the bits not set, or 0.
    Done(u32),
    Zeroed,
    NotStarted,
    SecurityReset,
    AddressTrap,
    Stopped,
    MalformedEvent,
    BadDescription,
    WrongFlashLength,
    BadList,
}

// What is changed in one go: a row is programmed from the latches, a page is erased.
#[derive(Clone, Copy)]
pub enum Change {
    Row,
    Page,
}

// What an event comes to: it is decided first, and then carried out. Cases and no closures, as secrecy (`harmless`) goes by them.
#[derive(Clone, Copy)]
pub enum Decision {
    // Answer, and change nothing.
    Refuse(Answer),
    Trap,
    Reset,
    PowerUp,
    MoveTo(ProgramAddress),
    // Latch, word.
    LoadLatch(u32, u32),
    ReadAt(Place),
    // The row or page that holds the word.
    ChangeAt(Change, Place),
    // Erase the whole array and clear its fuse byte.
    EraseWhole(FlashArray),
    // Store its fuse byte.
    StoreFuse(FlashArray, u8),
}

// What a decision looks at of a device's state: all but its latches.
#[derive(Clone, Copy)]
pub struct Registers {
    pub pc: ProgramAddress,
    pub iopuwr: bool,
    pub stopped: bool,
    pub fgs: u8,
    pub fas: u8,
}

// Code that runs: on which part, with which registers, from which segment.
#[derive(Clone, Copy)]
struct Code {
    description: Description,
    registers: Registers,
    origin: Origin,
    ghost runs: { running_at description registers.pc ≡ Some origin },
}

impl Answer {
    // The paper's number of the answer, by cases as its table has them.
    pub fn number(self) -> u32
        ensures { NumberPromise self result }
    {
        match self {
            Answer::Done(_) => 0,
            Answer::Zeroed => 1,
            Answer::NotStarted => 2,
            Answer::SecurityReset => 3,
            Answer::AddressTrap => 4,
            Answer::Stopped => 5,
            Answer::MalformedEvent => 6,
            Answer::BadDescription => 7,
            Answer::WrongFlashLength => 8,
            Answer::BadList => 9,
        }
    }

    // The paper's value of the answer, by cases as its table has them.
    #[tactic(auto, using(crate::proofs::Laws::no_value))]
    pub fn value(self) -> u32
        ensures { ValuePromise self result }
    {
        match self {
            Answer::Done(value) => value,
            _ => 0,
        }
    }
}

fn or_refuse(test: bool, decision: Decision, answer: Answer) -> Decision
    ensures { result ≡ or_refuse test decision answer }
{
    if test {
        decision
    } else {
        Decision::Refuse(answer)
    }
}

impl Code {
    #[tactic(auto, unfolding(crate::specs::Rules::own_rule))]
    fn own_rule(self, vectors: &[u32], event: Event) -> Decision
        ensures { result ≡ own_rule self.description self.registers vectors.now self.origin event }
    {
        match event {
            Event::Next => self.next(),
            Event::FlowChange(target) => self.flow_change(target),
            Event::Interrupt(vector) => self.interrupt(vectors, vector),
            Event::TableRead(address) => self.table_read(address),
            Event::TableWrite(address, word) => words::table_write(address, word),
            // One call for both: with two the compiler does not open it into the loop of a run.
            Event::ProgramRow(address) | Event::ErasePage(address) => {
                self.change_at(words::change_of(event), address)
            }
            Event::EraseGeneral => self.erase_general(),
            Event::EraseAuxiliary => self.erase_auxiliary(),
            Event::ProgramFgs(byte) => self.program_fgs(byte),
            Event::ProgramFas(byte) => self.program_fas(byte),
            Event::PowerOn => Decision::PowerUp,
        }
    }
}

// What an event comes to, in the paper's order of checks. Both by themselves, as it is public: a Code is made only where a PC is executable.
#[tactic(auto, using(crate::proofs::Laws::no_power_on), unfolding(crate::specs::Rules::decide, crate::specs::Rules::rule_from))]
pub fn decide(
    description: Description,
    registers: Registers,
    vectors: &[u32],
    event: Event,
) -> Decision
    ensures { DecidePromise description registers vectors.now event result }
{
    if matches!(event, Event::PowerOn) {
        return Decision::PowerUp;
    }
    if registers.stopped {
        return Decision::Refuse(Answer::Stopped);
    }
    match description.running_at(registers.pc) {
        None => Decision::Trap,
        Some(origin) => {
            let code = Code {
                description,
                registers,
                origin,
            };
            code.own_rule(vectors, event)
        }
    }
}
