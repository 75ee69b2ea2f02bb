// Runs the cases of document 01 that are not proved, on the bench device, and prints a line for each.
#![tactic(auto)]

use std::io;

mod bench;
mod case;
mod events;
mod lines;
mod marked;
mod refusals;
mod runs;
mod shown;
mod views;

fn main(rt: HostRuntime) -> io::Result<()> {
    lines::show_input(&rt)?;
    refusals::print(&rt)?;
    runs::print(&rt)?;
    views::print(&rt)
}
