// Where a link stands among links.
ghost use Rattle.std.specs.Prelude.{◌≡◌, ◌==◌, ◌<◌, IfOk, IfSome, position, length};
ghost use Rattle.tva_router.specs.Tables.{ArePlaces};

use std::alloc::{AllocError, Global};
use std::collections::HashMap;

/// The places of links by their numbers. Of two with one number the first counts. The error is want of
/// memory.
pub(crate) fn places_of<T>(
    alloc: Global,
    links: &[(u16, T)],
) -> Result<HashMap<u16, usize>, AllocError>
    ensures { IfOk result (λ places. ArePlaces links.now places) }
{
    let mut places = HashMap::with_capacity(alloc, links.len())?;
    let mut place = links.len();
    while place > 0 {
        place -= 1;
        places.insert(links[place].0, place)?;
    }
    Ok(places)
}

/// The place of a link, by the places of these links.
pub(crate) fn place_of<T>(
    links: &[(u16, T)],
    places: &HashMap<u16, usize>,
    link: u16,
) -> Option<usize>
    requires { ArePlaces links.now places.now }
    ensures place { result ≡ position (λ o. o.0 == link) links.now }
    ensures within { IfSome result (λ at. at < length links.now) }
{
    places.get(&link).copied()
}
