//! A clone alone does what the model's clone does. The function has no code, and its contract is the laws of these steps.
ghost use Rattle.mld_model.specs.LocalStep.{LocalStepsAreTheModels, NoneIsForeign};

/// Where a clone alone stands for a clone of a sound world, and the message that comes to it for one that was sent there, each
/// step of the clone alone is one of the model's clone: with the same reply, to a sound world in which the clone alone stands
/// for the model's, and what it sent for what was sent. None of the world's messages is foreign to it.
///
/// A step is an update, with an effect or none; a message that is taken, held back, known, merged or answered, a leaf that is
/// given or adopted; a question for a leaf or for what is lacking; a journal compacted or truncated; a stop, and what opens
/// by what its device has.
pub fn local_steps_follow()
    ensures steps { LocalStepsAreTheModels }
    ensures foreign { NoneIsForeign }
{}
