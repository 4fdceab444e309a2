// The changes of a router's plan: its restarts, and the changes of its routes.
ghost use Rattle.std.specs.Prelude.{◌≡◌, ◌≤◌, ◌<◌, ◌+◌, true, false, IfOk, IfSome, None, length, map};
ghost use Rattle.tva_base.specs.Plan.{AreRising};
ghost use Rattle.tva_base.specs.Changes.{of_prefix};
ghost use Rattle.tva_node.specs.Changes.{AreByTime, move_time, restart_time};
ghost use Rattle.tva_node.specs.Besides.{IsRoutedBy};
ghost use Rattle.tva_node.specs.Making.{IsMoved, IsNextLater, IsRestarted, IsUpTo, StandsOn};

use crate::role::Routed;
use std::alloc::{AllocError, Global};
use tva_base::{Prefix, Time};

/// How far the changes of a router are made: the boot it is in, which is how many of its restarts were
/// made; and the changes of its routes by time, with how many of them were made.
#[derive(Drop)]
pub struct Changes {
    pub boot: usize,
    pub moves: Vec<(Time, Prefix, u16)>,
    pub moved: usize,
}

impl Changes {
    /// None is made yet of these changes of routes, which rise in time for each prefix. The error is want
    /// of memory.
    pub fn of(alloc: Global, moves: &[(Time, Prefix, u16)]) -> Result<Changes, AllocError>
        requires { (prefix : Prefix) → AreRising (map move_time (of_prefix prefix moves.now)) }
        ensures first { IfOk result (λ changes. (changes.boot ≡ 0) × (changes.moved ≡ 0)) }
        ensures moves { IfOk result (λ changes. AreByTime moves.now changes.moves.items) }
    {
        let mut by_time = moves.to_vec(alloc)?;
        by_time.sort_by_key(|change| change.0.0)?;
        Ok(Changes {
            boot: 0,
            moves: by_time,
            moved: 0,
        })
    }

    /// Passes the restarts that have come by a time, in nanoseconds, and gives the master of the last of
    /// them.
    pub fn restarted_by(&mut self, restarts: &[(Time, [u8; 32])], now: Time) -> Option<[u8; 32]>
        requires { self.old.boot ≤ length restarts.now }
        ensures passed { IsRestarted restarts.now now.0 self.old.boot self.new.boot result }
        ensures ahead { IsNextLater restart_time restarts.now self.new.boot now.0 }
        ensures same { (self.new.moves ≡ self.old.moves) × (self.new.moved ≡ self.old.moved) }
    {
        let mut master = None;
        while self.boot < restarts.len() && restarts[self.boot].0.0 <= now.0 {
            master = Some(restarts[self.boot].1);
            self.boot += 1;
        }
        master
    }

    /// Passes the next change of a route, if it has come by a time, in nanoseconds, and gives it.
    pub fn moved_by(&mut self, now: Time) -> Option<(Prefix, u16)>
        ensures some { IfSome result (IsMoved now.0 self.old self.new) }
        ensures none { result ≡ None
            → (self.new ≡ self.old) × IsNextLater move_time self.old.moves.items self.old.moved now.0 }
    {
        if self.moved < self.moves.len() {
            let (time, prefix, link) = self.moves[self.moved];
            if time.0 <= now.0 {
                self.moved += 1;
                return Some((prefix, link));
            }
        }
        None
    }
}

impl Routed {
    /// Makes the changes that have come by a time, in nanoseconds. Of several restarts the last is made
    /// alone, since nothing came between them.
    pub fn change(&mut self, now: Time)
        requires { IsRoutedBy now.0 self.old }
        ensures done { IsUpTo now.0 self.new }
        ensures goes { StandsOn now.0 self.old self.new }
    {
        self.restart(now);
        while self.reroute(now) {}
    }

    // Restarts, if a restart has come.
    fn restart(&mut self, now: Time)
        requires { IsRoutedBy now.0 self.old }
        ensures done { IsNextLater restart_time self.new.router.built.restarts self.new.changes.boot now.0 }
        ensures goes { StandsOn now.0 self.old self.new }
    {
        if let Some(master) = self.changes.restarted_by(self.router.restarts(), now) {
            self.router.restart(now, master);
        }
    }

    // Makes the next change of a route, if it has come, and tells whether it had.
    fn reroute(&mut self, now: Time) -> bool
        requires { IsRoutedBy now.0 self.old }
        ensures goes { StandsOn now.0 self.old self.new }
        ensures boot { self.new.changes.boot ≡ self.old.changes.boot }
        ensures on { result ≡ true → (self.old.changes.moved < length self.old.changes.moves.items)
            × (self.new.changes.moved ≡ self.old.changes.moved + 1) }
        ensures done { result ≡ false → IsNextLater move_time self.new.changes.moves.items self.new.changes.moved now.0 }
    {
        match self.changes.moved_by(now) {
            Some((prefix, link)) => {
                self.router.reroute(now, prefix, link);
                true
            }
            None => false,
        }
    }
}
