// The words of flash: rules 4 to 8.
ghost use Rattle.std.specs.Prelude.{◌≡◌};
ghost use Rattle.permission.specs.Table.{allowed};
ghost use Rattle.rules.specs.Rules.{target_in, table_read, table_write, change_at};
ghost use Rattle.rules.specs.Internals.{ChangeOf};

use crate::{Answer, Change, Code, Decision};
use event::Event;
use measure::ProgramAddress;
use part::Place;
use permission::Operation;

const LATCHES: u32 = flash::ROW_WORDS as u32;

// Rule 5.
pub(crate) fn table_write(address: ProgramAddress, word: u32) -> Decision
    ensures { result ≡ table_write address word }
{
    let location = address.location();
    Decision::LoadLatch(location.0 % LATCHES, word)
}

// Of an event that asks for one of the two.
pub(crate) fn change_of(event: Event) -> Change
    ensures { ChangeOf event result }
{
    if matches!(event, Event::ErasePage(_)) {
        Change::Page
    } else {
        Change::Row
    }
}

impl Code {
    // Whether table 23-1 allows it, where the first so many words of the GS array count as vectors.
    fn may(self, operation: Operation, vectors: u32, place: Place) -> bool
        ensures { result ≡ allowed operation self.origin (target_in self.description self.registers vectors place) }
    {
        let segment = part::segment_of(vectors, place);
        let registers = self.registers;
        let target = part::target_of(self.description.keys, registers.fgs, registers.fas, segment);
        permission::allowed(operation, self.origin, target)
    }

    // Rule 4: only below 0x000200 are there vectors for reads.
    #[tactic(auto, unfolding(crate::specs::Rules::read_in))]
    pub(crate) fn table_read(self, address: ProgramAddress) -> Decision
        ensures { result ≡ table_read self.description self.registers self.origin address }
    {
        match self.description.place_at(address) {
            None => Decision::Refuse(Answer::Zeroed),
            Some(place) => crate::or_refuse(
                self.may(Operation::Read, part::VECTOR_WORDS, place),
                Decision::ReadAt(place),
                Answer::Zeroed,
            ),
        }
    }

    // Rules 6 and 7, and rule 8: the whole of page 0 counts as vectors.
    #[tactic(auto, unfolding(crate::specs::Rules::change_in))]
    pub(crate) fn change_at(self, change: Change, address: ProgramAddress) -> Decision
        ensures { result ≡ change_at change self.description self.registers self.origin address }
    {
        match self.description.place_at(address) {
            None => Decision::Refuse(Answer::NotStarted),
            Some(place) => crate::or_refuse(
                self.may(Operation::Program, self.description.page_words, place),
                Decision::ChangeAt(change, place),
                Answer::NotStarted,
            ),
        }
    }
}
