// The lines of the input, as the file `stdin`: a case more there needs no proof.
use crate::bench::{Bench, WholeBench};
use crate::case::{self, Case};
use crate::marked;
use crate::shown::{DeviceColumns, NamedAnswer, Word};
use part::Description;
use std::io;
use std::io::{Input, Read};

// The most bytes of lines that are read.
const ROOM: usize = 16384;

// On the bench device. A last line without its end is left out; so is the unread rest, which has no line's end.
pub(crate) fn show_input(rt: &(impl Print + Input)) -> io::Result<()> {
    let mut bench = WholeBench::new(Description::bench());
    let mut room = [0; ROOM];
    io::copy(&mut rt.reader().take(ROOM as u64), &mut room.as_mut_slice())?;
    for whole in room.split_inclusive(|byte| *byte == b'\n') {
        if let Some(line) = whole.strip_suffix(b"\n") {
            match whole {
                // Empty lines and texts stay here: the call would cost more than the line.
                [b'\n'] => {}
                // With its end, in one write.
                [b'>', text @ ..] => rt.write_all(text)?,
                _ => bench.obey(rt, line)?,
            }
        }
    }
    Ok(())
}

impl<const GENERAL: usize, const AUXILIARY: usize> Bench<GENERAL, AUXILIARY> {
    // Lines that are no texts.
    pub(crate) fn obey_all(&mut self, rt: &impl Print, lines: &[&str]) -> io::Result<()> {
        for line in lines {
            self.obey(rt, line.as_bytes())?;
        }
        Ok(())
    }

    // Not for texts: show_input prints those. A line that starts in no way named here is a remark.
    fn obey(&mut self, rt: &impl Print, line: &[u8]) -> io::Result<()> {
        let Some((first, rest)) = line.split_first() else {
            return Ok(());
        };
        match *first {
            b'.' | b'0'..=b'9' => self.show(rt, Case::read(line))?,
            b'=' => self.put(case::number(rest, 0, 6), case::number(rest, 7, 6)),
            b'~' => self.fill(case::number(rest, 0, 6)),
            b'*' => marked::print(rt)?,
            _ => {}
        }
        Ok(())
    }

    fn show(&mut self, rt: &impl Print, case: Case) -> io::Result<()> {
        if let Some(device) = case.device {
            self.state = device;
        }
        let event = case.event;
        let before = DeviceColumns(self.state);
        let answer = self.step(event.event());
        let value = event.value(answer);
        let answer = NamedAnswer(answer);
        let pc = Word(self.state.pc.0);
        rt.write_all(case.title)?;
        println!(rt; " | {before} | {event} | {answer} | {value} | {pc}")
    }
}
