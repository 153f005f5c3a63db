ghost use Rattle.std.specs.Prelude.{◌≡◌, ◌≤◌};
ghost use Rattle.mx_json.specs.Folded.{next_count};

use std::marker::Model;

/// Counts reads of characters of folded texts: each call of `Folded::at` is one, also where it
/// asks past the end, and nothing else is counted. A count that has reached the end of a `u64`
/// stays there.
#[derive(Debug, Drop)]
pub struct Meter {
    count: u64,
}

// Contracts see the count.
impl Model for Meter {
    ghost use Rattle.std.specs.Prelude.{ℕ};

    ghost Value = { ℕ };

    ghost view = { λ m. m.count };
}

impl Meter {
    /// A meter that has counted nothing.
    pub fn new() -> Meter
        ensures { result ≡ 0 }
    {
        Meter { count: 0 }
    }

    /// How many reads were counted.
    pub fn count(&self) -> u64
        ensures { result ≡ self.now }
    {
        self.count
    }

    /// Counts one read.
    #[inline]
    pub(crate) fn rise(&mut self)
        ensures counted { self.new ≡ next_count self.old }
        ensures never_falls { self.old ≤ self.new }
    {
        self.count = self.count.saturating_add(1);
    }
}
