// What holds of the ranges that couriers deliver, and of what they take as acknowledged.
ghost use Rattle.std.specs.Prelude.{◌≡◌, ℕ, ◌≤◌, ◌++◌, Contains, List, Some, length, slice_get};
ghost use Rattle.tva_base.specs.declared.{addresses.Address.Address, event.DataLine.DataLine};
ghost use Rattle.tva_transfer.specs.{declared.transfers.Transfer.Transfer, Files.Act, Files.files_of, Files.next_of};
ghost use Rattle.tva_transfer.specs.Couriers.{AreFrom, Follow, IsWithin, Step, files_at, ranges_of};

/// Whatever comes in at a host, the ranges that it delivers of a source's transfer follow one another
/// from the first byte on, without a gap and without an overlap. Where what comes in from a courier was
/// sent by it, whatever of it is lost, repeated or late, they end at most at the size of that courier's
/// transfer, which is one to the host. A courier's transfers are told apart by numbers of 16 bits.
pub fn ranges_are_delivered_in_order()
    ensures follow { (home : Address) (acts : List Act) (source : Address) (transfer : ℕ)
        → Follow 0 (ranges_of (files_of home acts) source transfer) }
    ensures within { (home : ℕ → Address) (steps : List Step) (receiver sender transfer : ℕ) (r : DataLine) → AreFrom home steps
        → length (files_at home sender steps).transfers ≤ 65536
        → Contains (ranges_of (files_at home receiver steps) (home sender) transfer) r
        → IsWithin (home receiver) r (slice_get (files_at home sender steps).transfers transfer) }
{}

/// Where what comes in from a courier was sent by it, no courier takes more of a transfer to a courier
/// as acknowledged than that one delivered of it. This holds after all steps, and so at each place.
pub fn acknowledged_was_delivered()
    ensures delivered { (home : ℕ → Address) (steps : List Step) (receiver sender transfer : ℕ) (t : Transfer) → AreFrom home steps
        → slice_get (files_at home sender steps).transfers transfer ≡ Some t → t.dst ≡ home receiver
        → t.acked ≤ next_of (files_at home receiver steps) (home sender) transfer }
    ensures at_each_place { (home : ℕ → Address) (steps later : List Step) → AreFrom home (steps ++ later) → AreFrom home steps }
{}
