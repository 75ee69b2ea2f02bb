// A case: a line with PC, FGS, FAS, the event's kind, A and B, in base 16, and a title.
use crate::bench;
use crate::events::EventNumbers;
use device::State;

// The column where a case's title starts.
const TITLE: usize = 30;

#[derive(Drop)]
pub(crate) struct Case<'a> {
    // None where dots stand for the device: the case goes on with that of the case before it.
    pub(crate) device: Option<State>,
    pub(crate) event: EventNumbers,
    // Bytes, since a line need not be text.
    pub(crate) title: &'a [u8],
}

impl<'a> Case<'a> {
    pub(crate) fn read(line: &'a [u8]) -> Self {
        Case {
            device: device(line),
            event: EventNumbers {
                kind: number(line, 13, 2),
                a: number(line, 16, 6),
                b: number(line, 23, 6),
            },
            title: line.get(TITLE..).unwrap_or(&[]),
        }
    }
}

// Dots are read as 0, and no case starts at 0.
fn device(line: &[u8]) -> Option<State> {
    match number(line, 0, 6) {
        0 => None,
        pc => Some(bench::device_at(pc, byte(line, 7), byte(line, 10))),
    }
}

fn byte(line: &[u8], start: usize) -> u8 {
    (number(line, start, 2) % 256) as u8
}

// The number in these columns of a line, or in those of them that it has, in base 16.
pub(crate) fn number(line: &[u8], start: usize, width: usize) -> u32 {
    line.iter()
        .skip(start)
        .take(width)
        .fold(0, |number, character| (number << 4) | digit(*character))
}

// What is no digit counts as 0, and so do digits in lower case.
fn digit(character: u8) -> u32 {
    match character {
        b'0'..=b'9' => u32::from(character - b'0'),
        b'A'..=b'F' => u32::from(character - b'A') + 10,
        _ => 0,
    }
}
