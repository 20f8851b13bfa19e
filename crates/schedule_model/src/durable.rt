//! The durable steps of a command give what its clone keeps in the next world. The function has no code, and its contract is
//! the laws of these steps.
ghost use Rattle.schedule_model.specs.DurableSteps.{DurableStepsLead, OneDurableList};

/// Each step of a world, by a command whose clones there are, has durable steps. All of them together give what the
/// command's clone keeps in the next world, and the history of that world; what the other clones keep stays as it was. Those of a
/// crash line are the ones that stand. By each choice the durable steps of a step are one list.
pub fn durable_steps_lead()
    ensures lead { DurableStepsLead }
    ensures once { OneDurableList }
{}
