// One lent flash array and a word index: read, program a row, erase, and the part that is a page.
#![tactic(auto)]

ghost use Rattle.std.specs.Prelude.{◌≡◌, ◌<◌, length, replicate};
ghost use Rattle.flash.specs.Parts.{start_of, blank};
ghost use Rattle.flash.specs.Operations.{row_words};
ghost use Rattle.flash.specs.Internals.{end_of, ProgramWordPromise, ProgramWordsPromise};
ghost use Rattle.flash.specs.Promises.{
  ReadWordPromise,
  ProgramRowPromise,
  EraseAllPromise,
  EraseRangePromise,
  ErasePagePromise,
  PagePromise,
};

// What was asked for does not lie in the array: nothing changed.
#[derive(Clone, Copy, PartialEq, Eq)]
pub struct OutsideArray;

// An erased word.
pub const BLANK: u32 = 0xFFFFFF;

// One word for each write latch.
pub const ROW_WORDS: usize = 64;

// Where count words from first on end, in an array of this length.
#[tactic(auto, unfolding(crate::specs::Internals::end_of))]
fn end_of(length: usize, first: usize, count: usize) -> Result<usize, OutsideArray>
    ensures { result ≡ end_of length first count }
{
    match first.checked_add(count) {
        Some(end) if end <= length => Ok(end),
        _ => Err(OutsideArray),
    }
}

// The first word of the row or page of this size that holds an index; by a page's two sizes the machine need not divide.
fn start_of(size: usize, index: usize) -> usize
    requires { 0 < size }
    ensures { result ≡ start_of size index }
{
    match size {
        512 => index - index % 512,
        1024 => index - index % 1024,
        _ => index - index % size,
    }
}

// The word at an index; None past the end.
#[tactic(auto, unfolding(crate::specs::Operations::read_word))]
pub fn read_word(flash: &[u32], index: usize) -> Option<u32>
    ensures { ReadWordPromise flash.now index result }
{
    flash.get(index).copied().map(measure::word)
}

// One word of a row, from its latch: programmed in place; the value is its bits not set.
fn program_word(word: &mut u32, latch: u32) -> u32
    ensures { ProgramWordPromise word.old latch result word.new }
{
    let old = *word;
    *word = measure::programmed_word(old, latch);
    measure::bits_not_set(old, latch)
}

// All words of a row, from their latches, by their places: of a `zip` that changes one side the loop knows too little.
#[tactic(auto, using(measure::proofs::Laws::not_set_le, crate::proofs::Laws::row_more, crate::proofs::Laws::count_more))]
fn program_words(row: &mut [u32], latches: &[u32; ROW_WORDS]) -> u32
    requires { length row.old ≡ row_words }
    ensures { ProgramWordsPromise row.old latches.now result row.new }
{
    let mut not_set: u32 = 0;
    for (index, word) in row.iter_mut().enumerate() {
        not_set += program_word(word, latches[index]);
    }
    not_set
}

// The aligned row that holds an index, programmed from the latches.
#[tactic(auto, using(crate::proofs::Laws::end_in, crate::proofs::Laws::programmed))]
pub fn program_row(
    flash: &mut [u32],
    index: usize,
    latches: &[u32; ROW_WORDS],
) -> Result<u32, OutsideArray>
    ensures { ProgramRowPromise flash.old index latches.now result flash.new }
{
    let first = start_of(ROW_WORDS, index);
    let end = end_of(flash.len(), first, ROW_WORDS)?;
    Ok(program_words(&mut flash[first..end], latches))
}

// The words of a row become blank: a length that the compiler knows makes wide stores of them.
fn blank_row(row: &mut [u32])
    requires { length row.old ≡ row_words }
    ensures { row.new ≡ replicate row_words blank }
{
    row.fill(BLANK);
}

// Every word becomes blank, row by row: what `chunks_exact_mut` leaves of its slice the library does not say.
#[tactic(auto, using(crate::proofs::Laws::filled_row))]
pub fn erase_all(words: &mut [u32])
    ensures { EraseAllPromise words.old words.new }
{
    let rows = words.len() / ROW_WORDS;
    for row in 0..rows {
        let start = row * ROW_WORDS;
        let end = start + ROW_WORDS;
        blank_row(&mut words[start..end]);
    }
    words[rows * ROW_WORDS..].fill(BLANK);
}

#[tactic(auto, using(crate::proofs::Laws::end_in, crate::proofs::Laws::erased))]
pub fn erase_range(flash: &mut [u32], first: usize, count: usize) -> Result<(), OutsideArray>
    ensures { EraseRangePromise flash.old first count result flash.new }
{
    let end = end_of(flash.len(), first, count)?;
    erase_all(&mut flash[first..end]);
    Ok(())
}

// The page of this size that holds an index, erased.
#[tactic(auto, unfolding(crate::specs::Operations::erase_page))]
pub fn erase_page(flash: &mut [u32], size: usize, index: usize) -> Result<(), OutsideArray>
    ensures { ErasePagePromise flash.old size index result flash.new }
{
    if size == 0 {
        return Err(OutsideArray);
    }
    erase_range(flash, start_of(size, index), size)
}

// The page of this size that holds an index, as a part of the array; the empty part at its front where there is none.
#[tactic(auto, using(crate::proofs::Laws::end_in, crate::proofs::Laws::no_end, crate::proofs::Laws::no_page), unfolding(crate::specs::Operations::page_of))]
pub fn page(flash: &[u32], size: usize, index: usize) -> &[u32]
    ensures { PagePromise flash.now size index result.now }
{
    if size == 0 {
        return &flash[..0];
    }
    let first = start_of(size, index);
    match end_of(flash.len(), first, size) {
        Ok(end) => &flash[first..end],
        Err(_) => &flash[..0],
    }
}
