// A transfer of a file.
ghost use Rattle.std.specs.Prelude.{◌≡◌, ◌≤◌};
ghost use Rattle.tva_shim.specs.Packets.{IsUpper};
ghost use Rattle.tva_transfer.specs.Files.{begun, is_more, segment_of};

use std::cmp;
use tva_base::{Address, Upper};

/// How many numbers of transfers there are: they have 16 bits.
const NUMBERS: usize = 1 << 16;

/// A transfer: its destination, the bytes of the file and of a segment, and how many bytes are
/// acknowledged from the first on.
#[derive(Clone, Copy, Debug, PartialEq, Eq)]
pub struct Transfer {
    pub dst: Address,
    pub size: u32,
    pub segment: u16,
    pub acked: u32,
}

impl Transfer {
    /// A transfer that begins.
    pub(crate) fn begun(dst: Address, size: u32, segment: u16) -> Transfer
        ensures { result ≡ begun dst size segment }
    {
        Transfer {
            dst,
            size,
            segment,
            acked: 0,
        }
    }

    /// Its next segment, by its place among the transfers of its host.
    pub(crate) fn next_segment(&self, place: usize) -> Upper
        requires size { self.now.size ≤ 100000000 }
        requires segment { self.now.segment ≤ 1500 }
        ensures segment { result ≡ segment_of place self.now }
        ensures fits { IsUpper result }
    {
        let left = self.size.saturating_sub(self.acked);
        let bytes = cmp::min(u32::from(self.segment), left);
        Upper::Data {
            transfer: (place % NUMBERS) as u16,
            first: self.acked,
            bytes: bytes as u16,
        }
    }

    /// Whether the source acknowledges more of it.
    pub(crate) fn is_more(&self, source: Address, next: u32) -> bool
        ensures { result ≡ is_more source next self.now }
    {
        self.dst == source && self.acked < next
    }

    /// The same of which so much is acknowledged.
    pub(crate) fn acknowledged(&self, next: u32) -> Transfer
        ensures { result ≡ record self.now { acked = next } }
    {
        Transfer {
            acked: next,
            ..*self
        }
    }
}
