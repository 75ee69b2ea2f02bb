// Which code may read, program or erase what: table 23-1 as one table of tables.
#![tactic(auto)]

ghost use Rattle.std.specs.Prelude.{◌≡◌, ◌≤◌, ◌<◌};
ghost use Rattle.permission.specs.Promises.{AllowedPromise};
ghost use Rattle.permission.specs.Table.{row_number, segment_column, level_column, protection_column, column_of};

use fuse::{Level, WriteProtection};

// What is asked of the target's words.
#[derive(Clone, Copy)]
pub enum Operation {
    // Program a row or erase a page.
    Program,
    Read,
}

// The segment whose code asks.
#[derive(Clone, Copy, PartialEq, Eq)]
pub enum Origin {
    FromGeneral,
    FromAuxiliary,
}

// Where the words lie.
#[derive(Clone, Copy)]
pub enum Segment {
    General,
    Auxiliary,
    Vectors,
}

// A column of the table: a segment and what its fuse byte says.
#[derive(Clone, Copy)]
pub struct Target {
    pub segment: Segment,
    pub level: Level,
    pub protection: WriteProtection,
}

const Y: bool = true;

const N: bool = false;

// By operation and origin, then by target column.
const ALLOWED: [[bool; 12]; 4] = [
    [Y, N, N, N, Y, N, Y, N, Y, N, N, N],
    [Y, N, Y, N, Y, N, N, N, Y, N, N, N],
    [Y, Y, N, N, Y, Y, Y, Y, Y, Y, Y, Y],
    [Y, Y, Y, Y, Y, Y, N, N, Y, Y, Y, Y],
];

// The row, and below the columns, by cases as the paper prints them.
fn row_number(operation: Operation, origin: Origin) -> usize
    ensures { result ≡ row_number operation origin }
{
    match (operation, origin) {
        (Operation::Program, Origin::FromAuxiliary) => 0,
        (Operation::Program, Origin::FromGeneral) => 1,
        (Operation::Read, Origin::FromAuxiliary) => 2,
        (Operation::Read, Origin::FromGeneral) => 3,
    }
}

fn segment_column(segment: Segment) -> usize
    ensures { result ≡ segment_column segment }
{
    match segment {
        Segment::General => 0,
        Segment::Auxiliary => 4,
        Segment::Vectors => 8,
    }
}

fn level_column(level: Level) -> usize
    ensures { result ≡ level_column level }
{
    match level {
        Level::None => 0,
        Level::High => 2,
    }
}

fn protection_column(protection: WriteProtection) -> usize
    ensures { result ≡ protection_column protection }
{
    match protection {
        WriteProtection::Writable => 0,
        WriteProtection::Protected => 1,
    }
}

#[tactic(auto, using(crate::proofs::Laws::segment_le, crate::proofs::Laws::level_le, crate::proofs::Laws::protection_le))]
fn column_of(target: Target) -> usize
    ensures { result ≡ column_of target }
{
    let Target {
        segment,
        level,
        protection,
    } = target;
    segment_column(segment) + level_column(level) + protection_column(protection)
}

#[tactic(auto, using(crate::proofs::Laws::row_lt, crate::proofs::Laws::column_lt))]
pub fn allowed(operation: Operation, origin: Origin, target: Target) -> bool
    ensures { AllowedPromise operation origin target result }
{
    let row = row_number(operation, origin);
    let column = column_of(target);
    ALLOWED[row][column]
}
