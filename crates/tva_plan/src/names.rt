// The names of nodes, which node has a name, and which are hosts.
ghost use Rattle.std.specs.Prelude.{◌≡◌, ◌≤◌, ◌<◌, IfOk, IfSome, length};
ghost use Rattle.tva_plan.specs.{Names.is_host, Names.is_host_plan, Names.name_at, Names.node_named, Numbers.Numbers};

use crate::config::NodePlan;
use std::alloc::{AllocError, Global};
use std::collections::HashMap;

/// The numbers of the nodes, by their names.
pub fn node_numbers(alloc: Global, plans: &[NodePlan]) -> Result<HashMap<&[u8], u16>, AllocError>
    requires { length plans.now ≤ 65536 }
    ensures { IfOk result (λ map. Numbers plans.now map) }
{
    let mut numbers = HashMap::new(alloc);
    let mut number = plans.len();
    while number > 0 {
        number -= 1;
        numbers.insert(name_at(&plans[number]), number as u16)?;
    }
    Ok(numbers)
}

/// The name of a node, by its plan.
pub fn name_at(plan: &NodePlan) -> &[u8]
    ensures { result.now ≡ name_at plan.now }
{
    match plan {
        NodePlan::Router(plan) => plan.name.as_str().as_bytes(),
        NodePlan::Host(plan) => plan.name.as_str().as_bytes(),
    }
}

/// The number of the node that has a name.
pub fn number_of(plans: &[NodePlan], numbers: &HashMap<&[u8], u16>, name: &[u8]) -> Option<u16>
    requires { Numbers plans.now numbers.now }
    ensures number { result ≡ node_named plans.now name.now }
    ensures within { IfSome result (λ number. number < length plans.now) }
{
    numbers.get(&name).copied()
}

/// Whether the node of a number is a host.
pub fn is_host(plans: &[NodePlan], number: u16) -> bool
    requires { number < length plans.now }
    ensures { result ≡ is_host plans.now number }
{
    is_host_plan(&plans[usize::from(number)])
}

/// Whether a plan is that of a host.
pub fn is_host_plan(plan: &NodePlan) -> bool
    ensures { result ≡ is_host_plan plan.now }
{
    match plan {
        NodePlan::Router(_) => false,
        NodePlan::Host(_) => true,
    }
}
