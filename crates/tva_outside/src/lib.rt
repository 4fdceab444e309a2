//! What lies outside the program: a shelf that it reads from, a sink that it writes to, and a gate
//! that is told of each node before it is worked. There are two shelves and two sinks: those of the
//! system, which count their failures, and those in memory, which tell all that they hold and fail at the
//! calls that they are told to fail at. All tell what they were asked for and gave, or took. Its contract
//! promises what each load read and each write appended, and that no failure is answered which was not
//! counted.
#![tactic(auto)]

mod calls;
mod file_shelf;
mod gate;
mod memory_shelf;
mod memory_sink;
mod seen;
mod shelf;
mod sink;
mod std_sink;

pub use file_shelf::FileShelf;
pub use gate::{Gate, OpenGate};
pub use memory_shelf::MemoryShelf;
pub use memory_sink::MemorySink;
pub use shelf::{Loaded, Shelf};
pub use sink::{Sent, Sink, Wrote, write_all};
pub use std_sink::StdSink;
