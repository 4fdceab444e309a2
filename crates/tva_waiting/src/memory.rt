// What memory holds of a node's past.

/// What memory keeps of what a node was given, of what happened there and of what it sent: all of it, or what nobody
/// has taken or read yet.
#[derive(Clone, Copy, Debug, PartialEq, Eq)]
pub enum Memory {
    All,
    Nothing,
}
