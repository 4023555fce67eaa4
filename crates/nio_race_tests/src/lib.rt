//! Tests of races. They stand apart from those of `nio_table_tests`, which need not wait until `nio_race` is proved.
#![tactic(auto)]

#[cfg(test)]
mod races;
