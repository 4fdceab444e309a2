// The tables by which a router finds its outgoing links.
ghost use Rattle.std.specs.Prelude.{IfOk};
ghost use Rattle.tva_base.specs.Plan.{IsRouterPlan};
ghost use Rattle.tva_router.specs.Tables.{AreWays};

use crate::places::places_of;
use crate::routes::{RouteTable, table_of};
use std::alloc::{AllocError, Global};
use std::collections::HashMap;
use tva_base::RouterPlan;

/// The routes by their prefixes, and the places of the outgoing links by their numbers.
#[derive(Drop)]
pub(crate) struct Ways {
    pub routes: RouteTable,
    pub places: HashMap<u16, usize>,
}

/// The ways of a plan. The error is want of memory.
pub(crate) fn ways_of(alloc: Global, plan: &RouterPlan) -> Result<Ways, AllocError>
    requires { IsRouterPlan plan.now }
    ensures { IfOk result (λ ways. AreWays plan.now ways) }
{
    Ok(Ways {
        routes: table_of(alloc, plan.routes.as_slice())?,
        places: places_of(alloc, plan.outgoing.as_slice())?,
    })
}
