//! Tests of the crates for scripts and their texts, of race texts, of the command line and of groups.
#![tactic(auto)]

#[cfg(test)]
mod base;
#[cfg(test)]
mod bytes;
#[cfg(test)]
mod command;
#[cfg(test)]
mod group;
#[cfg(test)]
mod language;
#[cfg(test)]
mod lines;
#[cfg(test)]
mod load;
#[cfg(test)]
mod plain;
#[cfg(test)]
mod race_text;
#[cfg(test)]
mod script;
#[cfg(test)]
mod sole;
#[cfg(test)]
mod trace;
