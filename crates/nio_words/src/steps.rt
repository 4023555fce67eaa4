//! The kinds of step, by the parts that they are on. Each is one atomic instruction, which adds one
//! event to the history.
//!
//! What all kinds share is proved once, at `Words::step`. A further kind needs these of its own:
//!
//! - its function here: the condition as `requires`, and which part and instruction it is;
//! - in its folder of `proofs/words/Words`, the event that it adds, by the word that it found
//!   (`Invariants.antt`), and the names of the two facts below (`Answers.antt`);
//! - in the file of `proofs/` that is named after its part, that its instruction does to the word
//!   what its act does to the part, and finds what the act finds (`Moves`);
//! - where it reads or writes a word of a new shape, the decoding, in `decode.rt` and
//!   `specs/Decodings.antt`, or the word, in `encode.rt`;
//! - where its event has numbers that the part and the instruction don't tell, a line of `Details`.
//!
//! That its condition stays true while others step is proved of all kinds in `nio_history`.

mod channels;
mod enrolled;
mod free_indexes;
mod gates;
mod high_water;
mod holds;
mod interest;
mod interrupts;
mod keys;
mod lists;
mod marks;
mod notes;
mod selectors;
mod touched_indexes;
mod turns;
