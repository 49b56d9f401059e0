//! Tests of works on a bundle that end at a call which has failed and acted, as a kill or a machine
//! may leave one, and of works behind them on the same volume. They stand apart from the libraries
//! so that each is proved once.
#![tactic(auto)]

#[cfg(test)]
mod images;
#[cfg(test)]
mod kills;
#[cfg(test)]
mod levels;
#[cfg(test)]
mod overviews;
#[cfg(test)]
mod same;
#[cfg(test)]
mod works;
