// The secrets that a router keeps.
ghost use Rattle.std.specs.Prelude.{◌≡◌, ◌≤◌, ℕ, ◌+◌, ◌⊎◌, List};
ghost use Rattle.tva_caps.specs.Formula.{secret_of};

use crate::formulas::secret_at;

/// The secrets of an epoch and of the one before. In epoch 0 both are that epoch's.
#[derive(Clone, Copy)]
pub struct Secrets {
    pub epoch: u64,
    pub current: [u8; 32],
    pub previous: [u8; 32],
}

impl Secrets {
    ghost use Rattle.tva_caps.specs.Kept.{AreSecrets};

    // The secrets of an epoch, made anew.
    pub fn new(master: &[u8; 32], epoch: u64) -> Secrets
        ensures epoch { result.epoch ≡ epoch }
        ensures secrets { AreSecrets master.now result }
    {
        Secrets {
            epoch,
            current: secret_at(master, epoch),
            previous: secret_at(master, epoch.saturating_sub(1)),
        }
    }

    // The secrets of an epoch that isn't before these. One secret is made in the next epoch, and
    // none in the same.
    pub fn moved_to(self, master: &[u8; 32], epoch: u64) -> Secrets
        requires later { self.epoch ≤ epoch }
        requires secrets { AreSecrets master.now self }
        ensures epoch { result.epoch ≡ epoch }
        ensures secrets { AreSecrets master.now result }
    {
        if epoch == self.epoch {
            return self;
        }
        if epoch == self.epoch + 1 {
            let current = secret_at(master, epoch);
            let previous = self.current;
            return Secrets {
                epoch,
                current,
                previous,
            };
        }
        Secrets::new(master, epoch)
    }

    // The secret of the epoch or of the one before.
    pub fn of_epoch(&self, epoch: u64) -> [u8; 32]
        requires kept { (epoch ≡ self.now.epoch) ⊎ (epoch + 1 ≡ self.now.epoch) }
        ensures secret { (master : List ℕ) → AreSecrets master self.now → result ≡ secret_of master epoch }
    {
        if epoch < self.epoch {
            self.previous
        } else {
            self.current
        }
    }
}
