//! The laws of runs.
ghost use Rattle.shell_session.specs.ShellRunLaws.{StepsLead};

/// The banks read, after a run over lines, as after the durable steps of the run.
pub fn steps_lead()
    ensures { StepsLead }
{}
