// The hosts of a plan, and the words that name them.
ghost use Rattle.std.specs.Prelude.{◌≡◌, ◌<◌, ◌++◌, IfOk, OnOk, decimal, length, map, Some, slice_get};
ghost use Rattle.tva_gen.specs.{Draws.host_number, Hosts.address_text, Hosts.hosts_in};

use itoa::Buffer;
use std::alloc::{AllocError, Global};
use tva_base::{Address, HostPlan};
use tva_plan::NodePlan;

/// The hosts of a plan, in the order of its nodes.
pub fn hosts_in(alloc: Global, nodes: &[NodePlan]) -> Result<Vec<&HostPlan>, AllocError>
    ensures { IfOk result (λ hosts. map (λ h. h.now) hosts.items ≡ hosts_in nodes.now) }
{
    let mut hosts = Vec::new(alloc);
    for node in nodes {
        if let NodePlan::Host(plan) = node {
            hosts.push(plan)?;
        }
    }
    Ok(hosts)
}

/// The host of a word.
pub fn host_at<'a>(hosts: &[&'a HostPlan], word: u32) -> &'a HostPlan
    requires { 0 < length hosts.now }
    ensures { slice_get (map (λ h. h.now) hosts.now) (host_number (length hosts.now) word) ≡ Some result.now }
{
    hosts[word as usize % hosts.len()]
}

/// Puts an address behind a text: its four bytes, the highest first, with dots between them.
pub fn put_address(text: &mut Vec<u8>, address: Address) -> Result<(), AllocError>
    ensures { OnOk result (text.new.items ≡ text.old.items ++ address_text address) }
{
    put_number(text, u64::from(address.0 >> 24))?;
    text.push(b'.')?;
    put_number(text, u64::from((address.0 >> 16) % 256))?;
    text.push(b'.')?;
    put_number(text, u64::from((address.0 >> 8) % 256))?;
    text.push(b'.')?;
    put_number(text, u64::from(address.0 % 256))
}

/// Puts a number's decimal digits behind a text.
pub fn put_number(text: &mut Vec<u8>, number: u64) -> Result<(), AllocError>
    ensures { OnOk result (text.new.items ≡ text.old.items ++ decimal number) }
{
    text.extend_from_slice(Buffer::new().format(number).as_bytes())
}
