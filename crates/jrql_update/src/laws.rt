//! Laws of updates. Each function does nothing: its contract is the law.
ghost use Rattle.std.specs.Prelude.{ℕ, ◌<◌, ◌^◌, List};
ghost use Rattle.tree_clock.specs.declared.dots.Dot.{Dot};
ghost use Rattle.jrql_update.specs.UpdateMeaning.{HaveOwnNames};

/// Fresh subjects of one update have different names, each for each solution.
pub fn fresh_subjects_have_own_names()
    ensures { (domain : List ℕ) (dot : Dot) (count : ℕ) → count < 2 ^ 32 → HaveOwnNames domain dot count }
{}
