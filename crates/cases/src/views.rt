// Document 01, the lecturer's page view.
use crate::bench::WholeBench;
use crate::shown::Word;
use part::Description;
use std::{fmt, io};

const CASES: [(&str, u32); 4] = [
    ("the page of GS that starts at 0x000400", 0x000612),
    ("the last page of AS, which starts at 0x7FFC00", 0x7FFFFE),
    ("an address where there is no memory", 0x002800),
    ("an odd address", 0x000401),
];

pub(crate) fn print(rt: &impl Print) -> io::Result<()> {
    println!(rt; "\nPage view\ncase | address | words | first word")?;
    let mut bench = WholeBench::new(Description::bench());
    // The first words of the two pages that are looked for tell them from all others.
    bench.put(0x000400, 0x123456);
    bench.put(0x7FFC00, 0x654321);
    for (title, address) in CASES {
        println!(rt;
            "{title} | {} | {}",
            Word(address),
            Page(bench.page(address))
        )?;
    }
    Ok(())
}

// How many words a view has, and the first.
#[derive(Drop)]
struct Page<'a>(&'a [u32]);

impl fmt::Display for Page<'_> {
    fn fmt<W: fmt::Write>(&self, f: &mut fmt::Formatter<W>) -> fmt::Result {
        let words = self.0;
        match words.first() {
            Some(first) => write!(f, "{} | {}", words.len(), Word(*first)),
            None => write!(f, "{} | none", words.len()),
        }
    }
}
