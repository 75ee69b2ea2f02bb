// Prints the permission table: operation, origin, then Y or N for each target column.
#![tactic(auto)]

use fuse::{Level, WriteProtection};
use permission::{Operation, Origin, Segment, Target};
use std::io;

fn main(rt: HostRuntime) -> io::Result<()> {
    for (operation_name, operation) in [
        ("program", Operation::Program),
        ("read", Operation::Read),
    ] {
        for (origin_name, origin) in [("AS", Origin::FromAuxiliary), ("GS", Origin::FromGeneral)] {
            print!(rt; "{operation_name},{origin_name}")?;
            print_row(&rt, operation, origin)?;
        }
    }
    Ok(())
}

fn print_row(rt: &impl Print, operation: Operation, origin: Origin) -> io::Result<()> {
    for segment in [Segment::General, Segment::Auxiliary, Segment::Vectors] {
        for level in [Level::None, Level::High] {
            for protection in [WriteProtection::Writable, WriteProtection::Protected] {
                let target = Target {
                    segment,
                    level,
                    protection,
                };
                let cell = if permission::allowed(operation, origin, target) {
                    'Y'
                } else {
                    'N'
                };
                print!(rt; ",{cell}")?;
            }
        }
    }
    println!(rt)
}
