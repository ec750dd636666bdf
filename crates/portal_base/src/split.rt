//! How a stream of bytes is cut into items.

/// What stands at the front of a stream.
#[derive(Clone, Copy, Debug, PartialEq, Eq)]
pub enum Split {
    /// Too few bytes to tell.
    More,
    /// A whole item.
    Whole {
        /// Its length in bytes.
        len: usize,
    },
    /// An item that breaks a rule.
    Bad {
        /// The number of the rule.
        rule: u32,
    },
}
