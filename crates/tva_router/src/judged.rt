// An arrival, and what a router makes of it.
use tva_base::{Cause, Class, Flow, Grant, Time};
use tva_shim::Carried;

/// A packet that arrives: when, on which link (none from the trace), of which flow, and its length in
/// bytes.
#[derive(Clone, Copy, Debug)]
pub struct Arrival {
    pub time: Time,
    pub from: Option<u16>,
    pub flow: Flow,
    pub bytes: u32,
}

/// What a router makes of an arrival before it looks for a link: its class, why it isn't taken as what
/// it claims to be, the grant that it is charged to, and what it carries on. Contracts speak of it; the
/// code has the judgement apart from what the packet carries, which is changed in place.
#[derive(Debug, Drop)]
pub struct Judged {
    pub class: Class,
    pub cause: Option<Cause>,
    pub charge: Option<Grant>,
    pub carried: Carried,
}

/// The same without what it carries on.
#[derive(Clone, Copy, Debug)]
pub(crate) struct Judgement {
    pub class: Class,
    pub cause: Option<Cause>,
    pub charge: Option<Grant>,
}
