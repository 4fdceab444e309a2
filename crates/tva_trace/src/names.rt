// The masters of routers.
ghost use Rattle.std.specs.Prelude.{◌≡◌, ◌<◌, length};
ghost use Rattle.tva_trace.specs.Names.{router_master};

use tva_plan::NodePlan;

/// The master of the node of a number, if that is a router.
pub fn master_at(plans: &[NodePlan], number: u16) -> Option<[u8; 32]>
    requires { number < length plans.now }
    ensures { result ≡ router_master plans.now number }
{
    match &plans[usize::from(number)] {
        NodePlan::Router(plan) => Some(plan.master),
        NodePlan::Host(_) => None,
    }
}
