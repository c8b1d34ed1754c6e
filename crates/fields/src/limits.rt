// The limits of the format; the rooms of all tables and lists follow from them.

// The most variables.
pub const MOST_VARIABLES: usize = 128;

// The most records, and the most questions.
pub const MOST_ITEMS: usize = 1024;

// The most features of a path.
pub const MOST_FEATURES: usize = 8;
