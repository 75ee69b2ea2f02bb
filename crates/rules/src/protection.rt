// The erases that clear protection, and the fuse bytes: rules 9 to 11.
ghost use Rattle.std.specs.Prelude.{◌≡◌};
ghost use Rattle.rules.specs.Rules.{
  erase_general,
  erase_auxiliary,
  releases as releases_of,
  program_fgs,
  is_open,
  program_fas,
};

use crate::{Answer, Code, Decision};
use part::FlashArray;

impl Code {
    // Whether a new fuse byte would take the level from high to none or lift write protection.
    fn releases(self, old: u8, new: u8) -> bool
        ensures { result ≡ releases_of self.description.keys old new }
    {
        let keys = self.description.keys;
        let was_high = fuse::level_of(keys, old).is_high();
        let is_high = fuse::level_of(keys, new).is_high();
        let was_protected = fuse::write_protection_of(old).is_protected();
        let is_protected = fuse::write_protection_of(new).is_protected();
        (was_high & !is_high) | (was_protected & !is_protected)
    }

    fn is_open(self, byte: u8) -> bool
        ensures { result ≡ is_open self.description.keys byte }
    {
        let high = fuse::level_of(self.description.keys, byte).is_high();
        let protected = fuse::write_protection_of(byte).is_protected();
        !high & !protected
    }

    // Rule 9.
    pub(crate) fn erase_general(self) -> Decision
        ensures { result ≡ erase_general self.origin }
    {
        let test = !part::from_general(self.origin);
        crate::or_refuse(
            test,
            Decision::EraseWhole(FlashArray::GeneralArray),
            Answer::NotStarted,
        )
    }

    pub(crate) fn erase_auxiliary(self) -> Decision
        ensures { result ≡ erase_auxiliary self.description self.origin }
    {
        let test = part::from_general(self.origin) & self.description.has_auxiliary();
        crate::or_refuse(
            test,
            Decision::EraseWhole(FlashArray::AuxiliaryArray),
            Answer::NotStarted,
        )
    }

    // Rule 10.
    #[tactic(auto, unfolding(crate::specs::Rules::program_fgs))]
    pub(crate) fn program_fgs(self, byte: u8) -> Decision
        ensures { result ≡ program_fgs self.description self.registers byte }
    {
        let stored = fuse::stored_byte(self.description.keys, byte);
        let test = !self.releases(self.registers.fgs, stored);
        crate::or_refuse(
            test,
            Decision::StoreFuse(FlashArray::GeneralArray, stored),
            Answer::NotStarted,
        )
    }

    // Rule 11.
    #[tactic(auto, unfolding(crate::specs::Rules::program_fas))]
    pub(crate) fn program_fas(self, byte: u8) -> Decision
        ensures { result ≡ program_fas self.description self.registers byte }
    {
        let stored = fuse::stored_byte(self.description.keys, byte);
        let test = self.description.has_auxiliary()
            & self.is_open(self.registers.fgs)
            & self.is_open(self.registers.fas);
        crate::or_refuse(
            test,
            Decision::StoreFuse(FlashArray::AuxiliaryArray, stored),
            Answer::NotStarted,
        )
    }
}
