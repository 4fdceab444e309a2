// The limits of a link and its queues.

/// The limits of a set of fair queues: so many queues, items in each, bytes in each and bytes
/// in all, the bytes that a turn adds, and the greatest length of an item.
#[derive(Clone, Copy, Debug, PartialEq, Eq)]
pub struct DrrLimits {
    pub queues: u32,
    pub ring: u32,
    pub queue_bytes: u32,
    pub class_bytes: u32,
    pub quantum: u32,
    pub max: u32,
}

/// The limits of a link: nanoseconds per byte, the share of requests (one part in so many),
/// the bytes of requests that may come at once, and the limits of its three classes. On a link
/// with two levels requests are queued by their last nonzero tag and within it by the one
/// before, with at most so many queues behind one tag; on a link with one level by the last
/// alone, and there is no such number.
#[derive(Clone, Copy, Debug, PartialEq, Eq)]
pub struct LinkLimits {
    pub ns_per_byte: u64,
    pub share: u64,
    pub burst: u64,
    pub request: DrrLimits,
    pub regular: DrrLimits,
    pub legacy_ring: u32,
    pub legacy_bytes: u32,
    pub request_inner: Option<u32>,
}
