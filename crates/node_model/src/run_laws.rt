//! The laws of runs.
ghost use Rattle.node_model.specs.NodeLaws.{NodeStepsLead};

/// The banks read, after a run over events, as after the durable steps of the run.
pub fn node_steps_lead()
    ensures { NodeStepsLead }
{}
