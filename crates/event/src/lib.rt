// What may happen to a device, and what three numbers of a list say.
#![tactic(auto)]

ghost use Rattle.std.specs.Prelude.{◌≡◌};
ghost use Rattle.event.specs.Events.{good_address, given as given_of};
ghost use Rattle.event.specs.Promises.{IsWellFormedPromise, DecodePromise};

use measure::ProgramAddress;

#[derive(Clone, Copy)]
pub enum Event {
    Next,
    FlowChange(ProgramAddress),
    // An interrupt or a trap, by its vector.
    Interrupt(u32),
    TableRead(ProgramAddress),
    TableWrite(ProgramAddress, u32),
    ProgramRow(ProgramAddress),
    ErasePage(ProgramAddress),
    // Erase GS and VS, and clear FGS.
    EraseGeneral,
    // Erase AS, and clear FAS.
    EraseAuxiliary,
    ProgramFgs(u8),
    ProgramFas(u8),
    PowerOn,
}

fn good_address(address: u32) -> bool
    ensures { result ≡ good_address address }
{
    (address % 2 == 0) & (address <= 0xFFFFFE)
}

#[tactic(auto, unfolding(crate::specs::Events::is_well_formed))]
pub fn is_well_formed(event: Event) -> bool
    ensures { IsWellFormedPromise event result }
{
    match event {
        Event::FlowChange(address)
        | Event::TableRead(address)
        | Event::ProgramRow(address)
        | Event::ErasePage(address) => good_address(address.0),
        Event::TableWrite(address, word) => good_address(address.0) & (word < 0x1000000),
        Event::Interrupt(vector) => vector <= 253,
        Event::Next
        | Event::EraseGeneral
        | Event::EraseAuxiliary
        | Event::ProgramFgs(_)
        | Event::ProgramFas(_)
        | Event::PowerOn => true,
    }
}

fn given(good: bool, event: Event) -> Option<Event>
    ensures { result ≡ given_of good event }
{
    good.then_some(event)
}

// What three numbers of a list say; None where they say no event. Numbers, as C lends them, and a line for each of the paper's.
#[tactic(auto, using(crate::proofs::Laws::given_byte), unfolding(crate::specs::Events::decode))]
pub fn decode(kind: u32, a: u32, b: u32) -> Option<Event>
    ensures { DecodePromise kind a b result }
{
    match kind {
        1 => given((a == 0) & (b == 0), Event::Next),
        2 => given(
            good_address(a) & (b == 0),
            Event::FlowChange(ProgramAddress(a)),
        ),
        3 => given((a <= 253) & (b == 0), Event::Interrupt(a)),
        4 => given(
            good_address(a) & (b == 0),
            Event::TableRead(ProgramAddress(a)),
        ),
        5 => given(
            good_address(a) & (b < 0x1000000),
            Event::TableWrite(ProgramAddress(a), b),
        ),
        6 => given(
            good_address(a) & (b == 0),
            Event::ProgramRow(ProgramAddress(a)),
        ),
        7 => given(
            good_address(a) & (b == 0),
            Event::ErasePage(ProgramAddress(a)),
        ),
        8 => given((a == 0) & (b == 0), Event::EraseGeneral),
        9 => given((a == 0) & (b == 0), Event::EraseAuxiliary),
        10 => given((a < 256) & (b == 0), Event::ProgramFgs((a % 256) as u8)),
        11 => given((a < 256) & (b == 0), Event::ProgramFas((a % 256) as u8)),
        12 => given((a == 0) & (b == 0), Event::PowerOn),
        _ => None,
    }
}
