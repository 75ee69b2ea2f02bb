// Program flow: rules 1 to 3.
ghost use Rattle.std.specs.Prelude.{◌≡◌};
ghost use Rattle.rules.specs.Rules.{
  next as next_rule,
  is_shut,
  flow_change,
  vector_word,
  to_vector,
  interrupt as interrupt_rule,
};

use crate::{Code, Decision};
use measure::ProgramAddress;
use permission::Origin;

// One location for each vector, so that no vector, well-formed or not, has an address that wraps.
#[tactic(auto, using(crate::proofs::Laws::word_or_zero, crate::proofs::Laws::vector_index))]
fn vector_word(vectors: &[u32], vector: u32) -> u32
    ensures { result ≡ vector_word vectors.now vector }
{
    let first = ProgramAddress(0x000004).location();
    let index = first.0 as usize + vector as usize;
    flash::read_word(vectors, index).unwrap_or(0)
}

impl Code {
    // Rule 1.
    #[tactic(auto, using(crate::proofs::Laws::running_lt), unfolding(crate::specs::Rules::next))]
    pub(crate) fn next(self) -> Decision
        ensures { result ≡ next_rule self.description self.registers }
    {
        let target = ProgramAddress(self.registers.pc.0 + 2);
        if part::is_implemented(self.description.place_at(target)) {
            Decision::MoveTo(target)
        } else {
            Decision::Trap
        }
    }

    #[tactic(auto, unfolding(crate::specs::Rules::is_shut))]
    fn is_shut(self, target: ProgramAddress) -> bool
        ensures { result ≡ is_shut self.description self.registers self.origin target }
    {
        let from_general = part::from_general(self.origin);
        let into_auxiliary = part::is_auxiliary(self.description.place_at(target));
        let high = fuse::level_of(self.description.keys, self.registers.fas).is_high();
        let location = target.location();
        let access_area = ProgramAddress(0x7FFFC0).location();
        let in_access_area = access_area.0 <= location.0;
        from_general & into_auxiliary & high & !in_access_area
    }

    // Rule 2.
    #[tactic(auto, unfolding(crate::specs::Rules::flow_change))]
    pub(crate) fn flow_change(self, target: ProgramAddress) -> Decision
        ensures { result ≡ flow_change self.description self.registers self.origin target }
    {
        if !part::is_implemented(self.description.place_at(target)) {
            return Decision::Trap;
        }
        if self.is_shut(target) {
            return Decision::Reset;
        }
        Decision::MoveTo(target)
    }

    // By the word of a vector.
    #[tactic(auto, unfolding(crate::specs::Rules::to_vector))]
    fn to_vector(self, vectors: &[u32], vector: u32) -> Decision
        requires { self.origin ≡ Origin.FromGeneral }
        ensures { result ≡ to_vector self.description self.registers vectors.now vector }
    {
        let word = vector_word(vectors, vector);
        if word % 2 == 0 {
            self.flow_change(ProgramAddress(word))
        } else {
            Decision::Trap
        }
    }

    // Rule 3.
    #[tactic(auto, unfolding(crate::specs::Rules::interrupt))]
    pub(crate) fn interrupt(self, vectors: &[u32], vector: u32) -> Decision
        ensures { result ≡ interrupt_rule self.description self.registers vectors.now self.origin vector }
    {
        match self.origin {
            Origin::FromAuxiliary => Decision::MoveTo(self.description.auxiliary_vector),
            Origin::FromGeneral => self.to_vector(vectors, vector),
        }
    }
}
