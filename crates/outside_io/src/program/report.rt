//! What a run of a program ends with.

use super::marks::Marks;

/// What a program's run ends with: its exit status, 0 where all went well, and the marks of its
/// work.
#[derive(Drop)]
pub struct Report {
    pub status: u8,
    pub marks: Marks,
}
