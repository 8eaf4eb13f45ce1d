//! How a call of the library ended, in a number, since no enum crosses.

/// The answer was written into the memory that was lent for it.
pub const WRITTEN: u32 = 0;

/// The capture is refused, or a table has more bytes than the memory that is lent for it.
pub const REFUSED: u32 = 1;

/// The answers have more bytes than the memory that is lent for them.
pub const TOO_SMALL: u32 = 2;

/// A line of the text cannot be read.
pub const UNREAD: u32 = 3;

/// The text is longer than any that is read.
pub const TOO_LONG: u32 = 4;

/// The numbers are those of no board.
pub const NO_BOARD: u32 = 5;

/// The host's memory ran out.
pub const NO_MEMORY: u32 = 6;

/// The kind of a bearer, or that of the policy, is a number of none.
pub const UNKNOWN_KIND: u32 = 7;
