//! The plain types that all layers share: addresses, times, rights, grants, events, plans and limits,
//! the small lists and short texts that structs hold, the readers of numbers, addresses and prefixes,
//! the credit of a packet, and the rights that the shims of each version can carry. Its contract promises
//! that each list and text is seen as its elements or bytes, which it is made from and gives back, that
//! each reader is exact on both sides, that a credit is rounded up, and that rights have one number in a
//! version.
#![tactic(auto)]

mod addresses;
mod constants;
mod credits;
mod event;
mod limits;
mod listed;
mod numbers;
mod packet;
mod plan;
mod readers;
mod texts;
mod versions;

pub use addresses::{Address, Prefix};
pub use constants::{LENGTH_MAX, SECOND, TIME_MAX, UNIT, constants_hold};
pub use credits::credit;
pub use event::{BackKind, DataLine, Event, Happened, ReplyLine, ShapeKind, Totals, WhatKind};
pub use limits::{DrrLimits, LinkLimits};
pub use listed::{Caps, Listed};
pub use numbers::decimal;
pub use packet::{
    Cause, Class, DropCause, Fate, Flow, Grant, Outcome, PacketId, Rights, Time, Upper,
    grants_are_ordered,
};
pub use plan::{HostPlan, LinkPlan, PolicyKind, PolicyPlan, Route, RouterPlan};
pub use readers::{address, addresses_are_four_numbers, part, prefix};
pub use texts::{Key, Line, Name};
pub use versions::{
    carries, rights_in, rights_number, rights_size, seconds_max, units_max, version_for,
};
