// Which link leads to a destination. Of the lengths that prefixes have, the longest is looked up first,
// so the time doesn't grow with the number of routes.
ghost use Rattle.std.specs.Prelude.{◌≡◌, ◌≤◌, ◌<◌, ◌-◌, ◌^◌, All, IfOk, IfSome, length, map, position};
ghost use Rattle.std.specs.Option.{option_map};
ghost use Rattle.std.specs.List.{find};
ghost use Rattle.tva_base.specs.Addresses.{kept};
ghost use Rattle.tva_base.specs.Changes.{same_prefix};
ghost use Rattle.tva_base.specs.Plan.{IsPrefix, AreDistinct};
ghost use Rattle.tva_router.specs.Routes.{leads, link_to, rerouted};
ghost use Rattle.tva_router.specs.Tables.{AreMarked, AreRoutePlacesFrom, IsTableOf};

use std::alloc::{AllocError, Global};
use std::collections::HashMap;
use tva_base::{Address, Listed, Prefix, Route};

/// The places of routes by the lengths and the addresses of their prefixes, and which lengths there are.
/// The link of a route stands with the route alone.
#[derive(Drop)]
pub(crate) struct RouteTable {
    lengths: [bool; 33],
    places: HashMap<(u8, u32), usize>,
}

/// The table of these routes. The error is want of memory.
pub(crate) fn table_of(alloc: Global, routes: &[Route]) -> Result<RouteTable, AllocError>
    requires { All (λ route. IsPrefix route.prefix) routes.now }
    ensures { IfOk result (λ table. IsTableOf routes.now table) }
{
    Ok(RouteTable {
        lengths: lengths_of(routes),
        places: places_by_prefix(alloc, routes)?,
    })
}

// Which lengths the prefixes have.
fn lengths_of(routes: &[Route]) -> [bool; 33]
    requires { All (λ route. IsPrefix route.prefix) routes.now }
    ensures { AreMarked routes.now result }
{
    let mut lengths = [false; 33];
    for route in routes {
        lengths[usize::from(route.prefix.bits)] = true;
    }
    lengths
}

// The places by their prefixes. Of two routes with one prefix the first counts.
fn places_by_prefix(
    alloc: Global,
    routes: &[Route],
) -> Result<HashMap<(u8, u32), usize>, AllocError>
    ensures { IfOk result (λ places. AreRoutePlacesFrom 0 routes.now places) }
{
    let mut places = HashMap::with_capacity(alloc, routes.len())?;
    let mut place = routes.len();
    while place > 0 {
        place -= 1;
        let prefix = routes[place].prefix;
        places.insert((prefix.bits, prefix.address.0), place)?;
    }
    Ok(places)
}

/// The link of the longest prefix that the destination begins with.
pub(crate) fn link_to(routes: &[Route], table: &RouteTable, dst: Address) -> Option<u16>
    requires { IsTableOf routes.now table.now }
    ensures { result ≡ link_to routes.now dst }
{
    for shorter in 0..33u8 {
        let link = link_at(routes, table, dst, 32 - shorter);
        if link.is_some() {
            return link;
        }
    }
    None
}

/// Gives the route of a prefix another link. The table finds it, and has nothing to change.
pub(crate) fn reroute(routes: &mut Listed<Route>, table: &RouteTable, prefix: Prefix, link: u16)
    requires table { IsTableOf routes.old table.now }
    requires apart { AreDistinct (map (λ r. r.prefix) routes.old) }
    ensures { routes.new ≡ rerouted prefix link routes.old }
{
    if let Some(place) = place_of_prefix(routes.as_slice(), table, prefix) {
        let route = routes.as_slice()[place];
        routes.set(place, Route { link, ..route });
    }
}

// The place of the route of a prefix.
fn place_of_prefix(routes: &[Route], table: &RouteTable, prefix: Prefix) -> Option<usize>
    requires { IsTableOf routes.now table.now }
    ensures place { result ≡ position (λ r. same_prefix r.prefix prefix) routes.now }
    ensures within { IfSome result (λ place. place < length routes.now) }
{
    table.places.get(&(prefix.bits, prefix.address.0)).copied()
}

// The link of the prefix of that length that the destination begins with.
fn link_at(routes: &[Route], table: &RouteTable, dst: Address, bits: u8) -> Option<u16>
    requires table { IsTableOf routes.now table.now }
    requires bits { bits ≤ 32 }
    ensures { result ≡ option_map (λ route. route.link) (find (leads bits dst) routes.now) }
{
    match place_at(routes, table, dst, bits) {
        Some(place) => Some(routes[place].link),
        None => None,
    }
}

// The place of its route.
fn place_at(routes: &[Route], table: &RouteTable, dst: Address, bits: u8) -> Option<usize>
    requires table { IsTableOf routes.now table.now }
    requires bits { bits ≤ 32 }
    ensures place { result ≡ position (leads bits dst) routes.now }
    ensures within { IfSome result (λ place. place < length routes.now) }
{
    if table.lengths[usize::from(bits)] {
        table.places.get(&(bits, front_of(dst, bits))).copied()
    } else {
        None
    }
}

// The least address with the same first bits.
fn front_of(address: Address, bits: u8) -> u32
    ensures { result ≡ (kept address bits).0 }
{
    let size = size_past(bits);
    (u64::from(address.0) / size * size) as u32
}

// How many addresses have the same first bits.
fn size_past(bits: u8) -> u64
    ensures size { result ≡ 2 ^ (32 - bits) }
    ensures some { 1 ≤ result }
{
    1 << 32u8.saturating_sub(bits)
}
