//! Reads a configuration: the plan of a network, or the first fault in a stated order. Its contract
//! promises exactly the plan, or the fault, that the definitions give for the text. What stands at the
//! keys of the entries is read below; here they are compared with one another and joined into the plan.
#![tactic(auto)]

mod changes;
mod joined;
mod links;
mod nodes;
mod plans;
mod reading;
mod routes;

pub use reading::read_config;
pub use tva_config_entries::{ConfigError, ConfigFault, ConfigRule, ConfigTable};
pub use tva_plan::{Config, NodePlan};
