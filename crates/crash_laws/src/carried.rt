//! Fronts of the changes of banks, and of durable steps.
ghost use Rattle.crash_laws.specs.CrashLaws.{FrontsStand, CaughtStands, SameCalls, GenerationsGrow};

/// Where changes of banks carry durable steps, what the banks read to after some of the changes stands for what is kept after a front
/// of the steps; once a call was caught, after the front that stands by some choice. They make as many calls, and the generation of what
/// is read is at most one more.
pub fn carried_fronts()
    ensures some { FrontsStand }
    ensures caught { CaughtStands }
    ensures calls { SameCalls }
    ensures generations { GenerationsGrow }
{}
