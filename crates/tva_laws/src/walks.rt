ghost use Rattle.std.specs.Prelude.{◌≡◌, ℕ, false, true, ◌∷◌, ◌++◌, drop, Some};
ghost use Rattle.tva_plan.specs.Valid.{IsConfig};
ghost use Rattle.tva_router.specs.Boots.{charges_at};
ghost use Rattle.tva_rows.specs.Valid.{AreTraceRows};
ghost use Rattle.tva_run.specs.declared.kinds.Input.TheVariants.{Arrival};
ghost use Rattle.tva_run.specs.Entries.{Arrived, Took};
ghost use Rattle.tva_run.specs.Parts.{charges};
ghost use Rattle.tva_run.specs.Told.{at_time};
ghost use Rattle.tva_run.specs.Reaching.{log_at};
ghost use Rattle.tva_run.specs.Run.{IsRunTo};
ghost use Rattle.tva_laws.specs.Deals.{coming, comings, deals};
ghost use Rattle.tva_laws.specs.Paths.{IsSteadyPath};
ghost use Rattle.tva_laws.specs.Walk.{walk_b, walk_flow, walk_router};
ghost use Rattle.tva_laws.specs.Steady.{IsSteadyIn};
ghost use Rattle.tva_laws.specs.Restarts.{a_nonce, charged_to, demoted, denying_a, early_router, restart_config};
ghost use Rattle.tva_laws.specs.Restarts.{restart_walk, restarting_router};
ghost use Rattle.tva_laws.specs.NewMaster.{new_before_list, new_list, new_log_router, new_logs, new_master, new_rows};
ghost use Rattle.tva_laws.specs.NewMaster.{new_until};
ghost use Rattle.tva_laws.specs.SameMaster.{again, before_again, before_list, before_nonce, renewed_list};
ghost use Rattle.tva_laws.specs.SameMaster.{same_logs, same_rows, same_until};
ghost use Rattle.tva_laws.specs.Detour.{detour_config, detour_logs, detour_rows, detour_until, first_before_list};
ghost use Rattle.tva_laws.specs.Detour.{second_before_list, to_first, to_second, wide_list};
ghost use Rattle.tva_laws.specs.Loss.{late_renewal, late_renewed, loss_before_renewal, loss_config, loss_logs};
ghost use Rattle.tva_laws.specs.Loss.{loss_rows, loss_until, loss_walk};

/// The logs of a walk over a restart are a run: of the network of the worked walk, in which A grants to nobody and the
/// router restarts at 8,000,000 ns with another master, up to just past the time at which the list of a second grant
/// comes.
pub fn a_walk_over_a_new_master_is_a_run()
    ensures valid { IsConfig (restart_config new_master) }
    ensures traced { AreTraceRows (restart_config new_master) new_rows }
    ensures run { IsRunTo (restart_config new_master) new_rows new_until new_logs }
{}

/// In that run the first packet that comes behind the restart is a nonce alone, whose grant was shown in the boot before. It
/// is demoted, and no path is steady up to it, whatever its delay in nanoseconds.
pub fn a_restart_ends_the_path()
    ensures comes { log_at new_logs 0 ≡ early_router
        ++ Took (Arrival (at_time 11010280) 0 (a_nonce 3 0 false))
        (Arrived (Some 0) (a_nonce 3 0 false) (demoted 2) (a_nonce 3 1 true)) ∷ drop 7 new_log_router }
    ensures ends { (delay : ℕ) → IsSteadyPath denying_a (restarting_router new_master) delay (deals walk_b (log_at new_logs 1))
        (comings walk_flow early_router) (charges_at (restarting_router new_master) 11010280 (charges early_router))
        (coming (Arrival (at_time 11010280) 0 (a_nonce 3 0 false)) (a_nonce 3 0 false) (demoted 2)) → ⊥ }
{}

/// In that run A gives its grant up after two notices and asks anew, behind the restart. The path is steady up to the list
/// of the grant that it gets so.
pub fn a_grant_behind_a_restart_comes_steadily()
    ensures { IsSteadyIn new_logs (restart_walk new_master) new_before_list 2111010400 0 (new_list 0 0) (charged_to 2 2)
        (new_list 1 1) }
{}

/// The logs of a walk over a restart with the same master are a run of that network too: a nonce alone is demoted, and A
/// gets a notice and shows its list again; six seconds later it renews its grant. They go on to just past the time at which
/// the list of the second grant comes.
pub fn a_walk_over_the_same_master_is_a_run()
    ensures valid { IsConfig (restart_config walk_router.master) }
    ensures traced { AreTraceRows (restart_config walk_router.master) same_rows }
    ensures run { IsRunTo (restart_config walk_router.master) same_rows same_until same_logs }
{}

/// In that run the path is steady up to the list that is shown again behind the notice, up to a nonce alone behind that,
/// and up to the list of the second grant.
pub fn a_shown_list_and_a_renewed_grant_come_steadily()
    ensures list { IsSteadyIn same_logs (restart_walk walk_router.master) before_again 21010400 0 (again 0 0) (charged_to 0 2)
        (again 1 1) }
    ensures nonce { IsSteadyIn same_logs (restart_walk walk_router.master) before_nonce 31010280 0 (a_nonce 5 0 false)
        (charged_to 0 2) (a_nonce 5 1 false) }
    ensures renewed { IsSteadyIn same_logs (restart_walk walk_router.master) before_list 6011010400 0 (renewed_list 0 0)
        (charged_to 6 2) (renewed_list 1 1) }
{}

/// The logs of a walk by a changed route are a run: A asks B by one router, whose route to B then leads by a second one. That
/// demotes what shows the grant; A gives it up after two notices, and asks anew by both. The logs go on to just past the
/// time at which the list of the second grant comes to the second router.
pub fn a_walk_by_a_changed_route_is_a_run()
    ensures valid { IsConfig detour_config }
    ensures traced { AreTraceRows detour_config detour_rows }
    ensures run { IsRunTo detour_config detour_rows detour_until detour_logs }
{}

/// In that run the path is steady up to the list of the second grant, at the first router, and at the second one, which the
/// changed route brings in and to which the ask of the first grant never came.
pub fn a_grant_by_a_changed_route_comes_steadily()
    ensures first { IsSteadyIn detour_logs to_first first_before_list 2111010480 0 (wide_list 0 0) (charged_to 2 4)
        (wide_list 1 1) }
    ensures second { IsSteadyIn detour_logs to_second second_before_list 2112020960 4 (wide_list 1 1) (charged_to 2 5)
        (wide_list 2 2) }
{}

/// The logs of a walk with a loss are a run: of the network without a restart, where one packet may wait on A's link, and
/// the last of three nonces alone is dropped there. They go on to just past the time at which a renewal comes.
pub fn a_walk_with_a_loss_is_a_run()
    ensures valid { IsConfig loss_config }
    ensures traced { AreTraceRows loss_config loss_rows }
    ensures run { IsRunTo loss_config loss_rows loss_until loss_logs }
{}

/// In that run the path is steady up to the renewal, though a nonce alone before it never came to the router.
pub fn a_lost_packet_ends_no_path_of_lists()
    ensures { IsSteadyIn loss_logs loss_walk loss_before_renewal 6001010400 0 late_renewal (charged_to 0 2) late_renewed }
{}
