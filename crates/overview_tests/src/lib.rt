//! Tests of runs of the program over volumes in memory, by `run_overview`: gates, which are no
//! cases of tables. They stand apart from the libraries so that each is proved once.
#![tactic(auto)]

#[cfg(test)]
mod runs;
#[cfg(test)]
mod same;
#[cfg(test)]
mod volumes;
