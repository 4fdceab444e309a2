// What stands at the front, said beside the queues.
ghost use Rattle.tva_drr.specs.Rows.{queues_in};
ghost use Rattle.tva_drr.specs.Front.{IsKnown};

use crate::measured::Measured;
use crate::row::Row;
use crate::turning::Turns;

/// The front's key, how many items it has, and their bytes. Behind most tags there is one queue, and an
/// offer to it that is refused then reads neither the queue nor the tree of keys, which stand elsewhere in
/// memory. Where there is no queue, there are no items.
#[derive(Clone, Copy)]
pub(crate) struct Front {
    pub key: u32,
    pub bytes: u32,
    pub items: usize,
}

/// What is known of the front's queue.
pub(crate) fn front_of<T: Measured>(turns: &Turns<Row<T>>) -> Front
    ensures { IsKnown T.measure result (queues_in turns.now.turns) }
{
    if turns.len() == 0 {
        return Front {
            key: 0,
            bytes: 0,
            items: 0,
        };
    }
    let turn = turns.turn(0);
    Front {
        key: turn.key,
        bytes: turn.source.bytes(),
        items: turn.source.len(),
    }
}
