// The count of a device's faults.
ghost use Rattle.std.specs.Prelude.{◌≡◌, ◌≤◌};
ghost use Rattle.spqr_edge.specs.Device.{counted};

use crate::Failed;
use std::marker::Model;

/// How often a device failed, up to 2^64 - 1.
#[derive(Drop)]
pub struct Faults {
    count: u64,
}

impl Model for Faults {
    ghost use Rattle.std.specs.Prelude.{ℕ};

    ghost Value = { ℕ };

    ghost view = { λ f. f.count };
}

impl Faults {
    /// None so far.
    pub fn none() -> Self
        ensures { result ≡ 0 }
    {
        Faults { count: 0 }
    }

    /// Counts one more, and returns it.
    pub fn note(&mut self) -> Failed
        ensures counted { self.new ≡ counted self.old }
        ensures never_falls { self.old ≤ self.new }
    {
        self.count = self.count.saturating_add(1);
        Failed
    }
}
