//! Audits: whether a report is the one that a configuration and a trace have, which line is the first
//! that differs, and what each router let through. Whoever is sent a report can check it without
//! trusting who made it. The contract promises of each answer exactly what it says of the run, and that
//! the sums are the definition's over the routers' charges.
#![tactic(auto)]

mod audits;
mod followed;
mod laws;
mod lines;
mod routers;
mod tallies;

pub use audits::{AuditError, Audited, audit, audit_packed};
pub use laws::{audits_have_one_answer, events_tell_charges, sums_are_below_their_limits};
pub use lines::{put_lines, step_and_put};
pub use routers::{RouterSum, sums};
pub use tva_report::Finding;
