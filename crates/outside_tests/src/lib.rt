//! Tests of the two files of a machine as a volume, over the public calls of `outside_io`. They
//! stand apart from the library so that it is proved once.
#![tactic(auto)]

#[cfg(test)]
mod file_volumes;
#[cfg(test)]
mod same;
