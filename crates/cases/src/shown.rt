// What a line shows.
use device::State;
use rules::Answer;
use std::fmt;

// The low byte of a number, in two digits. A type for each width: with the width as a parameter the format is no plainer.
#[derive(Clone, Copy)]
pub(crate) struct Byte(pub(crate) u32);

impl fmt::Display for Byte {
    fn fmt<W: fmt::Write>(&self, f: &mut fmt::Formatter<W>) -> fmt::Result {
        write!(f, "0x{:02X}", self.0 % 0x100)
    }
}

// An address or a word: the low six digits.
#[derive(Clone, Copy)]
pub(crate) struct Word(pub(crate) u32);

impl fmt::Display for Word {
    fn fmt<W: fmt::Write>(&self, f: &mut fmt::Formatter<W>) -> fmt::Result {
        write!(f, "0x{:06X}", self.0 % 0x1000000)
    }
}

// The answer's number and name, as in the paper's table.
#[derive(Clone, Copy)]
pub(crate) struct NamedAnswer(pub(crate) Answer);

impl fmt::Display for NamedAnswer {
    fn fmt<W: fmt::Write>(&self, f: &mut fmt::Formatter<W>) -> fmt::Result {
        write!(f, "{} | {}", self.0.number(), name(self.0))
    }
}

fn name(answer: Answer) -> &'static str {
    match answer {
        Answer::Done(_) => "done",
        Answer::Zeroed => "zeroed",
        Answer::NotStarted => "not started",
        Answer::SecurityReset => "security reset",
        Answer::AddressTrap => "address trap",
        Answer::Stopped => "stopped",
        Answer::MalformedEvent => "malformed event",
        Answer::BadDescription => "bad description",
        Answer::WrongFlashLength => "wrong flash length",
        Answer::BadList => "bad list",
    }
}

// The columns of the device: FGS, FAS and PC.
#[derive(Clone, Copy)]
pub(crate) struct DeviceColumns(pub(crate) State);

impl fmt::Display for DeviceColumns {
    fn fmt<W: fmt::Write>(&self, f: &mut fmt::Formatter<W>) -> fmt::Result {
        let State { fgs, fas, pc, .. } = self.0;
        write!(
            f,
            "{} | {} | {}",
            Byte(u32::from(fgs)),
            Byte(u32::from(fas)),
            Word(pc.0)
        )
    }
}
