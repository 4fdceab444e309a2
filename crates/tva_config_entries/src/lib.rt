//! Reads what stands in a configuration: its keys, its tables and their entries, or the first fault in
//! a stated order. Its contract promises exactly the entries, or the fault, that the definitions give
//! for the text; what entries must be to one another is asked above.
#![tactic(auto)]

mod arrays;
mod entries;
mod faults;
mod keys;
mod place;
mod reading;
mod tables;
mod top;
mod values;

pub use entries::{
    EntryLists, HostEntry, LinkEntry, RerouteEntry, RestartEntry, RouteEntry, RouterEntry,
};
pub use faults::{ConfigError, ConfigFault, ConfigRule, ConfigTable};
pub use keys::fault;
pub use place::Place;
pub use reading::read_entries;
