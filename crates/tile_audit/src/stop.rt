/// Why an audit ends before its totals are given. A volume that fails does not end it.
#[derive(Clone, Copy, Debug, PartialEq, Eq)]
pub enum AuditStop {
    /// The output failed.
    Output,
    /// Memory was refused.
    OutOfMemory,
}
