// The front of a queue.
ghost use Rattle.std.specs.Prelude.{◌≡◌, ◌++◌, drop};
ghost use Rattle.std.specs.Option.{option_to_list};
ghost use Rattle.std.specs.VecDeque.{deque_capacity};

use std::collections::VecDeque;

/// Takes the first element of a queue. A single one is taken from behind, so that the next one stands at its
/// place, which the processor's caches hold.
pub fn take_front<T>(queue: &mut VecDeque<T>) -> Option<T>
    ensures items { queue.old.items ≡ option_to_list result ++ queue.new.items }
    ensures rest { queue.new.items ≡ drop 1 queue.old.items }
    ensures capacity { deque_capacity queue.new ≡ deque_capacity queue.old }
{
    if queue.len() == 1 {
        queue.pop_back()
    } else {
        queue.pop_front()
    }
}
