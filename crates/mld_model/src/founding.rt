//! The durable steps of founding give what the clones of the founded world keep. The function has no code, and its contract is the
//! laws of these steps.
ghost use Rattle.mld_model.specs.FoundingSteps.{FoundingLeads, FoundingFronts};

/// All durable steps of founding together give what each clone of the founded world keeps. Where a front of them stands, each clone
/// keeps nothing yet, or its leaf after so many forks.
pub fn founding_steps_lead()
    ensures lead { FoundingLeads }
    ensures fronts { FoundingFronts }
{}
