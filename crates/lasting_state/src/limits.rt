//! The limit of counts.

/// No count passes this one. What would is answered as want of memory: there is no machine that could hold so much.
pub const COUNT_LIMIT: u64 = 1 << 60;
