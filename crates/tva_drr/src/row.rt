ghost use Rattle.std.specs.Prelude.{◌≡◌, ◌+◌, ◌^◌, ◌<◌, [], ◌∷◌, ◌++◌, length, drop, refl};
ghost use Rattle.tva_drr.specs.declared.offered.Offered.TheVariants.{Queued};
ghost use Rattle.tva_drr.specs.Queues.{bytes_in, first};
ghost use Rattle.tva_drr.specs.Rows.{row};

use crate::measured::Measured;
use crate::offered::Offered;
use crate::source::Source;
use circular_buffer::HeapCircularBuffer;
use std::alloc::{AllocError, Global};
use std::marker::Model;
use tva_base::DrrLimits;

/// The items that wait under one key, in a ring whose memory is taken when it is made.
#[derive(Drop)]
pub struct Row<T: Measured> {
    bytes: u32,
    ring: HeapCircularBuffer<T>,
}

impl<T: Measured> Model for Row<T> {
    ghost use Rattle.std.specs.Prelude.{◌≡◌};
    ghost use Rattle.tva_drr.specs.Queues.{bytes_in};
    ghost use Rattle.tva_drr.specs.Rows.{RowOf, row, row_code};

    ghost Value = { RowOf T };

    ghost coded = { row_code T.code };

    ghost view = { λ w. row w.ring.items w.ring.capacity };

    ghost invariant = { λ w. w.bytes ≡ bytes_in T.measure w.ring.items };
}

impl<T: Measured> Row<T> {
    pub(crate) fn bytes(&self) -> u32
        ensures { result ≡ bytes_in T.measure self.now.items }
    {
        self.bytes
    }

    pub(crate) fn len(&self) -> usize
        ensures { result ≡ length self.now.items }
    {
        self.ring.len()
    }
}

impl<T: Measured> Source for Row<T> {
    type Item = T;

    ghost fresh = { λ l. row [] l.ring };

    ghost emptied = { λ r. row [] r.room };

    ghost next = { λ r. first r.items };

    ghost popped = { λ r. row (drop 1 r.items) r.room };

    ghost may_put = { λ r inner item. (length r.items < r.room) × (bytes_in T.measure r.items + T.measure item < 2 ^ 32) };

    ghost answer = { λ r inner item. Queued };

    ghost given = { λ r inner item. row (r.items ++ item ∷ []) r.room };

    fn made(alloc: Global, limits: DrrLimits) -> Result<Self, AllocError> {
        let ring = HeapCircularBuffer::with_capacity(alloc, limits.ring as usize)?;
        Ok(Row { bytes: 0, ring })
    }

    fn next_length(&self) -> Option<u32> {
        match self.ring.front() {
            Some(item) => Some(item.length()),
            None => None,
        }
    }

    #[inline(never)]
    fn pop(&mut self) -> Option<T> {
        let length = self.next_length()?;
        self.bytes -= length;
        self.ring.pop_front()
    }

    /// There is a place for it.
    #[inline(always)]
    fn put(&mut self, _inner: u32, item: T) -> Offered<T> {
        self.bytes += item.length();
        match self.ring.try_push_back(item) {
            Ok(()) => {}
            Err(_item) => unreachable!(),
        }
        Offered::Queued
    }

    ghost fresh_is_empty = { λ l. refl };

    ghost popped_keeps = { λ r. refl };

    ghost given_keeps = { λ r inner item. refl };

    ghost refused_stays = { λ r inner item n. absurd (n refl) };
}

#[cfg(test)]
impl<T: Measured> Row<T> {
    /// Writes the lengths as /LENGTH,LENGTH.
    pub fn show(&self, alloc: Global, text: &mut String) -> Result<(), AllocError> {
        for (at, item) in self.ring.iter().enumerate() {
            let mark = if at == 0 { '/' } else { ',' };
            text.push_str(format!(in alloc; "{mark}{}", item.length())?.as_str())?;
        }
        Ok(())
    }
}
