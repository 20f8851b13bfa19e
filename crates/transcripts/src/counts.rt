//! Counts of runs, and of those that are not as wanted.
ghost use Rattle.std.specs.Prelude.{◌≡◌, ◌↔◌, IsTrue};

/// How many runs there were, and how many of them were not as wanted.
#[derive(Clone, Copy)]
pub struct Count {
    /// How many there were.
    pub runs: u64,
    /// How many were not as wanted.
    pub differ: u64,
}

impl Count {
    /// No run.
    pub fn new() -> Count
        ensures differ { result.differ ≡ 0 }
    {
        Count { runs: 0, differ: 0 }
    }

    /// Counts a run.
    pub fn add(&mut self, is_so: bool)
        // Once a run differs, so does the count.
        ensures differ { (self.new.differ ≡ 0) ↔ ((self.old.differ ≡ 0) × IsTrue is_so) }
    {
        self.runs = self.runs.saturating_add(1);
        if !is_so {
            self.differ = self.differ.saturating_add(1);
        }
    }

    /// Whether no run differs.
    pub fn is_well(&self) -> bool
        ensures { IsTrue result ↔ (self.now.differ ≡ 0) }
    {
        self.differ == 0
    }
}
