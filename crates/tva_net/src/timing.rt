// How long a window is.
ghost use Rattle.std.specs.Prelude.{◌≡◌, ◌+◌, ◌≤◌};
ghost use Rattle.tva_run.specs.Windows.{least_delay};

use tva_base::{LinkPlan, Time};

/// The length of a window, in nanoseconds: the least delay of the links, or the horizon and one more
/// where there are none.
pub(crate) fn window_length(horizon: Time, links: &[LinkPlan]) -> u64
    requires { horizon.0 ≤ 1000000000000000 }
    ensures { result ≡ least_delay (horizon.0 + 1) links.now }
{
    if links.is_empty() {
        return horizon.0 + 1;
    }
    let mut least = links[0].delay;
    for link in &links[1..] {
        least = least.min(link.delay);
    }
    least
}
