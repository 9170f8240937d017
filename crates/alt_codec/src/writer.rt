//! Who writes an item.

/// Who made a write: a user by a request, or time to live, which deletes items whose time has passed (Developer Guide, "DynamoDB Streams and
/// Time to Live").
#[derive(Clone, Copy, Debug, PartialEq, Eq)]
pub enum Writer {
    User,
    Expiry,
}
