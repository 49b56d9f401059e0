//! Tests of runs of the program over volumes in memory, by `run_audit`, that are no cases of a
//! table: gates, and a volume each call of which fails in turn. They stand apart from the libraries
//! so that each is proved once.
#![tactic(auto)]

#[cfg(test)]
mod runs;
#[cfg(test)]
mod same;
#[cfg(test)]
mod volumes;
