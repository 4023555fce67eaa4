//! The lines of scripts and histories.
mod parse;
mod print;
