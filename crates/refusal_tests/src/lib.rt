//! Tests of rows of the program while a growth of memory is refused: each makes its own objects
//! first, and gives up where their memory is refused; from the call of `run` on it asks for the
//! row's answer, or for the status of want of memory with an empty output. `tests/refused.sh` runs
//! each of them once for each growth that there is. With ample memory they ask for the answers.
#![tactic(auto)]

#[cfg(test)]
mod decoders;
#[cfg(test)]
mod rows;
#[cfg(test)]
mod runs;
