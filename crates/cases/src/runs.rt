// Document 01, "Lists": runs over lists of events, three numbers each.
use crate::bench::{self, WholeBench};
use crate::shown::{NamedAnswer, Word};
use part::Description;
use std::io;

// What stands in a slot before a run.
const UNTOUCHED: u32 = 99;

// How many slots a line shows.
const SHOWN_SLOTS: usize = 8;

// One event more than a list may have.
const TOO_MANY: usize = 4097;

// A run from code in GS, with AS at high security and blank flash.
#[derive(Clone, Copy)]
struct Run {
    title: &'static str,
    page_words: u32,
    general_pages: u32,
    list: &'static [u32],
    limit: usize,
}

// One event on the bench device. The other runs name what differs.
const NEXT: Run = Run {
    title: "next",
    page_words: 512,
    general_pages: 10,
    list: &[1, 0, 0],
    limit: 100,
};

const THREE_TIMES_NEXT: [u32; 9] = [1, 0, 0, 1, 0, 0, 1, 0, 0];

const FOUR_NUMBERS: Run = Run {
    title: "the list has four numbers, which is no multiple of three",
    list: &[1, 0, 0, 1],
    ..NEXT
};

const TWO_EVENTS: Run = Run {
    title: "the list has two events, and there are three slots",
    list: &[1, 0, 0, 1, 0, 0],
    ..NEXT
};

// One event more than there may be, and just as many.
const LONG_LISTS: [Run; 2] = [
    Run {
        title: "the list has 4,097 events",
        list: &[0; 3 * TOO_MANY],
        limit: 2,
        ..NEXT
    },
    Run {
        title: "the list has 4,096 events, all malformed, and the limit is two",
        list: &[0; 3 * (TOO_MANY - 1)],
        limit: 2,
        ..NEXT
    },
];

// What is looked for first, what is passed over, what the limit does, and what ends a run.
const RUNS: [Run; 11] = [
    Run {
        title: "the description says pages of 256 words",
        page_words: 256,
        ..NEXT
    },
    Run {
        title: "the description says 11 pages of GS, and the array has 10",
        general_pages: 11,
        ..NEXT
    },
    Run {
        title: "kind 13 and a next with a number are malformed, and passed over",
        list: &[13, 0, 0, 1, 0, 7, 2, 0x000500, 0],
        ..NEXT
    },
    Run {
        title: "a read and an erase where there is no memory are answered, and the run goes on",
        list: &[4, 0x002800, 0, 7, 0x002800, 0, 1, 0, 0],
        ..NEXT
    },
    Run {
        title: "three times next: the run ends with the list",
        list: &THREE_TIMES_NEXT,
        ..NEXT
    },
    Run {
        title: "three times next: the limit is two",
        list: &THREE_TIMES_NEXT,
        limit: 2,
        ..NEXT
    },
    Run {
        title: "three times next: the limit is zero",
        list: &THREE_TIMES_NEXT,
        limit: 0,
        ..NEXT
    },
    Run {
        title: "a jump past the end of GS ends the run, though power-on follows",
        list: &[1, 0, 0, 2, 0x002800, 0, 12, 0, 0],
        ..NEXT
    },
    Run {
        title: "AS is high security: a jump from GS to its start ends the run",
        list: &[1, 0, 0, 2, 0x7FF000, 0, 1, 0, 0],
        ..NEXT
    },
    Run {
        title: "AS is high security: from GS, a jump within GS, a read of AS, a jump just below its last 32 locations",
        list: &[2, 0x000500, 0, 4, 0x7FF000, 0, 2, 0x7FFFBE, 0],
        limit: 4096,
        ..NEXT
    },
    // The second slot of an event has its value.
    Run {
        title: "a word is programmed to 0x0000F0, and then with 0x0000FF: 4 bits are not set",
        list: &[
            5, 0x000612, 0x0000F0, 6, 0x000612, 0, 5, 0x000612, 0x0000FF, 6, 0x000612, 0,
        ],
        ..NEXT
    },
];

pub(crate) fn print(rt: &impl Print) -> io::Result<()> {
    println!(rt; "\nLists")?;
    println!(rt;
        "case | number | name | events answered | PC after | first eight slots, 99 where untouched"
    )?;
    FOUR_NUMBERS.show(rt, &mut [UNTOUCHED; SHOWN_SLOTS])?;
    TWO_EVENTS.show(rt, &mut [UNTOUCHED; 3])?;
    for run in &LONG_LISTS {
        run.show(rt, &mut [UNTOUCHED; 2 * TOO_MANY])?;
    }
    for run in &RUNS {
        run.show(rt, &mut [UNTOUCHED; SHOWN_SLOTS])?;
    }
    Ok(())
}

impl Run {
    fn show(&self, rt: &impl Print, slots: &mut [u32]) -> io::Result<()> {
        let mut bench = WholeBench::new(Description {
            page_words: self.page_words,
            general_pages: self.general_pages,
            ..Description::bench()
        });
        bench.state = bench::device_at(0x000400, 0x03, 0x31);
        let ran = bench.run(self.list, slots, self.limit);
        let answer = NamedAnswer(ran.answer);
        let pc = Word(ran.state.pc.0);
        print!(rt; "{} | {answer} | {} | {pc} |", self.title, ran.count)?;
        for slot in slots.iter().take(SHOWN_SLOTS) {
            print!(rt; " {slot}")?;
        }
        println!(rt)
    }
}
