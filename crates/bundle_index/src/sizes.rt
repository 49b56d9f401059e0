// The numbers that every bundle shares.

/// How many slots a bundle has, and entries its index: 128 rows of 128.
pub const SLOT_COUNT: u16 = 16384;

/// The place behind the index, where the records begin: the header's 64 bytes and 8 bytes for each
/// slot stand in front of it. So it is the least length of a bundle that is not empty.
pub const INDEX_END: u64 = 131136;
