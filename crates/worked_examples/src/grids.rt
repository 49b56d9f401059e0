//! Grids that were worked by hand, and are the input of encoders.

/// One row of four numbers of two bytes: 10 11 12 13.
pub const TENS: [u8; 29] = *b"LGR1\x02\x01\0\0\0\x04\0\0\0\x01\0\0\0\
\x01\x01\x01\x01\x0a\0\x0b\0\x0c\0\x0d\0";

/// The same with a second depth: 100 100 100 103.
pub const TENS_DEEP: [u8; 37] = *b"LGR1\x02\x01\0\0\0\x04\0\0\0\x02\0\0\0\
\x01\x01\x01\x01\x0a\0\x64\0\x0b\0\x64\0\x0c\0\x64\0\x0d\0\x67\0";

/// One row of four unsigned bytes: 1 2 3 4.
pub const RISING: [u8; 25] = *b"LGR1\x01\x01\0\0\0\x04\0\0\0\x01\0\0\0\
\x01\x01\x01\x01\x01\x02\x03\x04";
