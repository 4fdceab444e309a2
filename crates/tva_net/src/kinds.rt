// What a network answers.
use tva_base::Event;

/// The next window of a run: what happens in it, by time, by node and in the order of the node's log,
/// or that nothing more happens up to the horizon.
#[derive(Debug, Drop)]
pub enum Window {
    Events(Vec<Event>),
    Ended,
}

/// Why a network goes no further: with the window that comes next there are more events than that
/// number, or memory is wanting.
#[derive(Clone, Copy, Debug, PartialEq, Eq)]
pub enum NetError {
    EventLimit(u64),
    OutOfMemory,
}
