// Worked logs of a link's port, which show by their numbers what fairness and the bounds speak of.
ghost use Rattle.std.specs.Prelude.{◌≡◌, ◌-◌, ◌*◌, ◌≤◌, List, ◌++◌, Some, length};
ghost use Rattle.tva_base.specs.Plan.{AreLinkLimits};
ghost use Rattle.tva_base.specs.declared.packet.Class.TheVariants.{Request, Regular};
ghost use Rattle.tva_port.specs.Log.{Started};
ghost use Rattle.tva_port.specs.Waiting.{waiting_after};
ghost use Rattle.tva_port.specs.Decide.{MissesNone};
ghost use Rattle.tva_port.specs.Legal.{IsLegal};
ghost use Rattle.tva_port.specs.Bounds.{bytes_with, request_bound, regular_bound, class_queues, start_among, bytes_started, IsNeverEmpty};
ghost use Rattle.tva_port.specs.Worked.{three_queues, regulars_queued, burst_started, regulars_started, long, two_levels, requests_queued, requests_started, tagged, queues_in};

/// In a worked log, which a port can have, something waits all along under two keys while regular packets
/// start: one of them starts 1,620 bytes, the other 2,000.
pub fn worked_keys_are_served_alike()
    ensures limits { AreLinkLimits three_queues }
    ensures legal { IsLegal three_queues (regulars_queued ++ burst_started ++ regulars_started) }
    ensures first { IsNeverEmpty three_queues Regular 1 (regulars_queued ++ burst_started) regulars_started }
    ensures second { IsNeverEmpty three_queues Regular 2 (regulars_queued ++ burst_started) regulars_started }
    ensures bytes { bytes_started three_queues Regular 1 (regulars_queued ++ burst_started) regulars_started ≡ 1620 }
    ensures more { bytes_started three_queues Regular 2 (regulars_queued ++ burst_started) regulars_started ≡ 2000 }
{}

/// Some regular packet waits more than half of its bound, though no start is missed. In a worked log packets
/// wait in three queues, and the ninth, which is queued at 1 ns, starts at 8,480 ns in its turn, after a
/// burst of requests and the turns of the two others. Its bound is 15,972 ns.
pub fn a_regular_packet_waits_half_its_bound()
    ensures limits { AreLinkLimits three_queues }
    ensures legal { IsLegal three_queues (regulars_queued ++ burst_started ++ regulars_started) }
    ensures missed { MissesNone three_queues 10100 (regulars_queued ++ burst_started ++ regulars_started) }
    ensures queues { length (class_queues Regular (waiting_after three_queues regulars_queued)) ≡ 3 }
    ensures start { start_among three_queues Regular 3 (long 9) 0 regulars_queued (burst_started ++ regulars_started)
        ≡ Some (Started 8480 Regular (long 9)) }
    ensures bound { regular_bound three_queues (bytes_with three_queues Regular 3 (long 9) regulars_queued) ≡ 15972 }
    ensures half { 15972 ≤ 2 * (8480 - 1) }
{}

/// Some request waits more than half of its bound on a link with two levels, though no start is missed. In a
/// worked log requests wait in two queues under each of two keys, and the twelfth, which is queued at 1 ns
/// behind another in its queue, starts at 12,940,000 ns. Its bound is 25,814,000 ns.
pub fn a_request_waits_half_its_bound_on_two_levels()
    ensures limits { AreLinkLimits two_levels }
    ensures legal { IsLegal two_levels (requests_queued ++ requests_started) }
    ensures missed { MissesNone two_levels 12941643 (requests_queued ++ requests_started) }
    ensures queues { queues_in (waiting_after two_levels requests_queued).requests ≡ 4 }
    ensures start { start_among two_levels Request 2 (tagged 2 2 1600 12) 1 requests_queued requests_started
        ≡ Some (Started 12940000 Request (tagged 2 2 1600 12)) }
    ensures bound { request_bound two_levels (bytes_with two_levels Request 2 (tagged 2 2 1600 12) requests_queued) ≡ 25814000 }
    ensures half { 25814000 ≤ 2 * (12940000 - 1) }
{}
