/// What an offer answers: the item was queued; or there is no queue for its key, and none to give
/// to it; or a limit of its queue or of all queues would be passed. A refusal hands the item back.
#[derive(Debug, Drop)]
pub enum Offered<T> {
    Queued,
    NoQueue(T),
    QueueFull(T),
}
