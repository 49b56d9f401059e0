//! Works that rows name: done whole, cut off at each of their calls, or done on what crashes leave.

pub(crate) mod crashes;
pub(crate) mod cuts;
pub(crate) mod works;
