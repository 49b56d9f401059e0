//! Tests of what the program does, over the public calls of `lerc_cli`: gates, which are no cases
//! of tables, and the words of a command line. They stand apart from `lerc_cli` so that it is
//! proved once.
#![tactic(auto)]

#[cfg(test)]
mod gate_tests;
#[cfg(test)]
mod runs;
#[cfg(test)]
mod same;
#[cfg(test)]
mod volumes;
#[cfg(test)]
mod words_tests;
