// Document 01, "What the student sees": the refusals of one event that tell of the description or the arrays.
use crate::bench::{AUXILIARY_WORDS, Bench, GENERAL_WORDS, WholeBench};
use part::Description;
use std::io;

const SHORT_GENERAL: usize = GENERAL_WORDS - 1;

const SHORT_AUXILIARY: usize = AUXILIARY_WORDS - 1;

// No part has pages of 256 words.
const BAD_DESCRIPTION: [&str; 2] = [
    "000400 03 03 01 000000 000000 the description says pages of 256 words",
    "000400 03 03 03 0000FE 000000 a bad description is named before a malformed event",
];

pub(crate) fn print(rt: &impl Print) -> io::Result<()> {
    let good = Description::bench();
    let bad = Description {
        page_words: 256,
        ..good
    };
    WholeBench::new(bad).obey_all(rt, &BAD_DESCRIPTION)?;
    Bench::<SHORT_GENERAL, AUXILIARY_WORDS>::new(good).obey_all(
        rt,
        &["000400 03 03 01 000000 000000 the GS array is a word short"],
    )?;
    Bench::<GENERAL_WORDS, SHORT_AUXILIARY>::new(good).obey_all(
        rt,
        &[
            "000400 03 03 03 0000FE 000000 the AS array is a word short, which is named before a malformed event",
        ],
    )
}
