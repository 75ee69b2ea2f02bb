// The bench: a device and its two flash arrays.
use device::{Ran, State};
use event::Event;
use measure::ProgramAddress;
use part::Description;
use rules::Answer;

pub(crate) const GENERAL_WORDS: usize = 5120;

pub(crate) const AUXILIARY_WORDS: usize = 2048;

const START_OF_AUXILIARY: u32 = 0x7FF000;

// The lengths are parameters, since a case may lend an array of a wrong length.
#[derive(Drop)]
pub(crate) struct Bench<const GENERAL: usize, const AUXILIARY: usize> {
    description: Description,
    pub(crate) state: State,
    general: [u32; GENERAL],
    auxiliary: [u32; AUXILIARY],
}

pub(crate) type WholeBench = Bench<GENERAL_WORDS, AUXILIARY_WORDS>;

// A new device, but for its PC and its fuse bytes.
pub(crate) fn device_at(pc: u32, fgs: u8, fas: u8) -> State {
    State {
        pc: ProgramAddress(pc),
        fgs,
        fas,
        ..State::new()
    }
}

impl<const GENERAL: usize, const AUXILIARY: usize> Bench<GENERAL, AUXILIARY> {
    pub(crate) fn new(description: Description) -> Self {
        Bench {
            description,
            state: State::new(),
            general: [flash::BLANK; GENERAL],
            auxiliary: [flash::BLANK; AUXILIARY],
        }
    }

    pub(crate) fn step(&mut self, event: Event) -> Answer {
        let stepped = self.state.step(
            self.description,
            &mut self.general,
            &mut self.auxiliary,
            event,
        );
        self.state = stepped.state;
        stepped.answer
    }

    pub(crate) fn run(&mut self, list: &[u32], slots: &mut [u32], limit: usize) -> Ran {
        self.state.run(
            self.description,
            &mut self.general,
            &mut self.auxiliary,
            list,
            slots,
            limit,
        )
    }

    // Puts a word at an address, or nowhere where the array has no such place.
    pub(crate) fn put(&mut self, address: u32, word: u32) {
        if address < START_OF_AUXILIARY {
            put(&mut self.general, address, word);
        } else {
            put(&mut self.auxiliary, address - START_OF_AUXILIARY, word);
        }
    }

    // Puts the same word at every address.
    pub(crate) fn fill(&mut self, word: u32) {
        self.general.fill(word);
        self.auxiliary.fill(word);
    }

    // The lecturer's page view.
    pub(crate) fn page(&self, address: u32) -> &[u32] {
        device::page_view(
            self.description,
            &self.general,
            &self.auxiliary,
            ProgramAddress(address),
        )
    }
}

// The address counts from the start of the array.
fn put(array: &mut [u32], address: u32, word: u32) {
    let location = ProgramAddress(address).location();
    if let Some(place) = array.get_mut(location.0 as usize) {
        *place = word;
    }
}
