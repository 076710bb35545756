//! Texts as bytes: their lines, the words of a line, the numbers that words spell, the digits of a number, sinks that
//! take bytes, and refusals, which are written as lines of words.
//!
//! A text is a slice of any bytes. What is read is lent from the slice, and takes no memory. What is written to a sink
//! fails only if the sink does, which has then taken a front of it.
//!
//! `lines` reads lines and words, also those of a line that has one space between two; `numbers` reads numbers, and
//! writes them, and lines and places, in a row from its end to its front. `sink` has the sinks (`TraceOut`, and `Flush`
//! for those that hand on what they kept back), the two over memory and over a writer among them, and `row` gathers
//! bytes in a fixed room, hands them on in large pieces, and so writes words and lines of words without memory,
//! `numbered` rows of words whose numbers follow one another, and `refusal` has the trait of what is reported in such a
//! line (`Refusal`).
#![tactic(auto)]

mod lines;
mod numbered;
mod numbers;
mod refusal;
mod row;
mod sink;

pub use lines::{
    BLOCK, ByteClass, Cursor, cut, first_of, from_front, is_blank, is_dash, next_line, next_word,
    space_in, without_cr,
};
pub use numbered::put_numbered;
pub use numbers::{
    NUMBER, PLACE, TOO_LARGE, TOO_LONG, number_of, plain_number_of, small_number_front,
    small_number_of, write_byte, write_bytes, write_count, write_count_line, write_number,
    write_place, write_separated, write_small_number,
};
pub use refusal::{Refusal, put_memory, put_named, put_named_at, put_named_by};
pub use row::{Row, Word, add_line, put_count, put_line, put_next_word, put_words};
pub use sink::{Flush, OutFault, TraceOut, VecOut, WriteOut, deliver, put_all};
