// What a fuse byte says, FGS and FAS alike.
#![tactic(auto)]

ghost use Rattle.fuse.specs.Promises.{
  StoredBytePromise,
  LevelOfPromise,
  WriteProtectionOfPromise,
  IsHighPromise,
  IsProtectedPromise,
};
ghost use Rattle.fuse.specs.Byte.{mask_of, key_for};
ghost use Rattle.std.specs.Prelude.{◌≡◌};

// Whether a segment is closed to other code.
#[derive(Clone, Copy, PartialEq, Eq)]
pub enum Level {
    None,
    High,
}

// Whether a segment's words may be programmed and erased.
#[derive(Clone, Copy, PartialEq, Eq)]
pub enum WriteProtection {
    Writable,
    Protected,
}

impl Level {
    pub fn is_high(self) -> bool
        ensures { IsHighPromise self result }
    {
        self == Level::High
    }
}

impl WriteProtection {
    pub fn is_protected(self) -> bool
        ensures { IsProtectedPromise self result }
    {
        self == WriteProtection::Protected
    }
}

// The bits of a fuse byte that a part with or without keys has.
fn mask(keys: bool) -> u8
    ensures { result ≡ mask_of keys }
{
    if keys { 0x33 } else { 0x03 }
}

// The byte as the part stores it. Keys by themselves here and below: no description is known yet.
#[tactic(auto, using(crate::proofs::Laws::stored_is))]
pub fn stored_byte(keys: bool, byte: u8) -> u8
    ensures { StoredBytePromise keys byte result }
{
    byte & mask(keys)
}

// The key that bits 1 and 0 of a stored byte ask for.
fn key_for(stored: u8) -> u8
    ensures { result ≡ key_for stored }
{
    let both_set = (stored / 2 % 2 == 1) & (stored % 2 == 1);
    if both_set { 0b00 } else { 0b11 }
}

#[tactic(auto, unfolding(crate::specs::Byte::level_of))]
pub fn level_of(keys: bool, byte: u8) -> Level
    ensures { LevelOfPromise keys byte result }
{
    let stored = stored_byte(keys, byte);
    let bit_clear = stored / 2 % 2 != 1;
    let wrong_key = keys & (stored / 16 % 4 != key_for(stored));
    let high = bit_clear | wrong_key;
    if high { Level::High } else { Level::None }
}

#[tactic(auto, unfolding(crate::specs::Byte::write_protection_of))]
pub fn write_protection_of(byte: u8) -> WriteProtection
    ensures { WriteProtectionOfPromise byte result }
{
    if byte % 2 == 1 {
        WriteProtection::Writable
    } else {
        WriteProtection::Protected
    }
}
