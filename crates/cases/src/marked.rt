// Document 01, "Marked points": FAS 0x33 cannot be programmed, with any byte.
use crate::bench::{self, WholeBench};
use event::Event;
use part::Description;
use rules::Answer;
use std::io;

pub(crate) fn print(rt: &impl Print) -> io::Result<()> {
    let mut bench = WholeBench::new(Description::bench());
    let count = (0..=255u8)
        .filter(|byte| is_not_started(&mut bench, *byte))
        .count();
    println!(rt; "with FAS 0x33, program FAS is not started with {count} of the 256 bytes")
}

// Whether program FAS with this byte is not started, where FAS is 0x33. The bench is lent: a new one would be copied for each byte.
fn is_not_started(bench: &mut WholeBench, byte: u8) -> bool {
    bench.fill(flash::BLANK);
    bench.state = bench::device_at(0x000400, 0x03, 0x33);
    matches!(bench.step(Event::ProgramFas(byte)), Answer::NotStarted)
}
