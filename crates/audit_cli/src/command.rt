//! What the program is asked for.

ghost use Rattle.std.specs.Prelude.{◌≤◌};

/// What the program is asked for: an audit.
#[derive(Clone, Copy)]
pub struct Command {
    /// How many workers judge tiles, from 1 to 64. It changes nothing of what is given.
    pub workers: u32,
    /// Whether each tile has a line, also one that is whole or summed.
    pub all: bool,
    /// Whether another format and another version count as damage.
    pub strict: bool,
    ghost some: { 1 ≤ workers },
    ghost few: { workers ≤ 64 },
}
