//! Code tables, read and written.

pub(crate) mod chosen_table;
pub(crate) mod table;
