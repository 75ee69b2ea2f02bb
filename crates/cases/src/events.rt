// Events in three numbers, as in a list: kind, A and B.
use crate::shown::{Byte, Word};
use event::Event;
use measure::ProgramAddress;
use rules::Answer;
use std::fmt;

// They stay numbers, since a line shows what the input says, a malformed event too.
#[derive(Clone, Copy)]
pub(crate) struct EventNumbers {
    pub(crate) kind: u32,
    pub(crate) a: u32,
    pub(crate) b: u32,
}

// An answer's value: a word that was read, or a count of bits that were not set.
#[derive(Clone, Copy)]
pub(crate) enum Value {
    Read(Word),
    Count(u32),
}

impl EventNumbers {
    pub(crate) fn event(self) -> Event {
        event::decode(self.kind, self.a, self.b).unwrap_or_else(|| self.malformed())
    }

    // An odd target, an odd address, or a vector that is not there.
    fn malformed(self) -> Event {
        match self.kind {
            2 => Event::FlowChange(ProgramAddress(self.a)),
            4 => Event::TableRead(ProgramAddress(self.a)),
            _ => Event::Interrupt(self.a),
        }
    }

    pub(crate) fn value(self, answer: Answer) -> Value {
        match self.kind {
            4 => Value::Read(Word(answer.value())),
            _ => Value::Count(answer.value()),
        }
    }
}

impl fmt::Display for EventNumbers {
    fn fmt<W: fmt::Write>(&self, f: &mut fmt::Formatter<W>) -> fmt::Result {
        let EventNumbers { kind, a, b } = *self;
        match kind {
            1 => write!(f, "next"),
            2 => write!(f, "flow change to {}", Word(a)),
            3 => write!(f, "interrupt, vector {a}"),
            4 => write!(f, "table read at {}", Word(a)),
            5 => write!(f, "table write at {} of {}", Word(a), Word(b)),
            6 => write!(f, "program row at {}", Word(a)),
            7 => write!(f, "erase page at {}", Word(a)),
            8 => write!(f, "erase GS and VS, clear FGS"),
            9 => write!(f, "erase AS, clear FAS"),
            10 => write!(f, "program FGS with {}", Byte(a)),
            11 => write!(f, "program FAS with {}", Byte(a)),
            12 => write!(f, "power-on"),
            _ => Ok(()),
        }
    }
}

impl fmt::Display for Value {
    fn fmt<W: fmt::Write>(&self, f: &mut fmt::Formatter<W>) -> fmt::Result {
        match self {
            Value::Read(word) => write!(f, "{word}"),
            Value::Count(count) => write!(f, "{count}"),
        }
    }
}
