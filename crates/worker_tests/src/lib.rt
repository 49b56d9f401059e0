//! Tests of tiles that are encoded by several workers, over the public calls of the libraries. They
//! stand apart from the libraries so that each library is proved once.
#![tactic(auto)]

#[cfg(test)]
mod gates;
#[cfg(test)]
mod streams;
