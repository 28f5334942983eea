// A node's level: an amount in cents and, where the kind has weeks, a count of weeks.
// The kind stands once for the whole record, so that a level has no case of its own; where the kind has no weeks they are 0.
#[derive(Clone, Copy, Debug, Default, PartialEq, Eq)]
pub struct Level {
    pub cents: i64,
    pub weeks: i64,
}
