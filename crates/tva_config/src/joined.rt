// What entries give that were compared with one another.
use tva_base::{LinkPlan, Route, Time};

/// A route with the number of its router and that of its link.
#[derive(Clone, Copy)]
pub struct OwnedRoute {
    pub router: u16,
    pub route: Route,
}

/// A restart with the number of its router, its time, and the master from then on.
#[derive(Clone, Copy)]
pub struct OwnedRestart {
    pub router: u16,
    pub time: Time,
    pub master: [u8; 32],
}

/// A change of a route with its time, and the route from then on.
#[derive(Clone, Copy)]
pub struct OwnedReroute {
    pub time: Time,
    pub owned: OwnedRoute,
}

/// The routes of all routers, their restarts and the changes of their routes, each in the order of the
/// file.
#[derive(Drop)]
pub struct OwnedLists {
    pub routes: Vec<OwnedRoute>,
    pub restarts: Vec<OwnedRestart>,
    pub reroutes: Vec<OwnedReroute>,
}

/// What the steps across tables give: the links in the order of the file, the number of each host's
/// link out, and what routers own.
#[derive(Drop)]
pub struct JoinedLists {
    pub links: Vec<LinkPlan>,
    pub uplinks: Vec<u16>,
    pub owned: OwnedLists,
}
