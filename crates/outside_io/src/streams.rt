//! Where bytes come from and where they go to: the two traits, their forms in memory and over std,
//! and bytes in memory.

mod bytes;
mod failed;
mod memory_sink;
mod memory_source;
mod more;
mod numbers;
mod retry;
mod sink;
mod source;
mod std_sink;
mod std_source;

pub use bytes::Bytes;
pub use failed::Failed;
pub use memory_sink::MemSink;
pub use memory_source::MemSource;
pub use more::has_more;
pub use numbers::{Numbers, hold_numbers};
pub(crate) use retry::read_some;
pub use sink::{Sink, give_all};
pub use source::{Source, take_all};
pub use std_sink::StdSink;
pub use std_source::StdSource;
