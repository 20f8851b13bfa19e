//! In which order the patterns of a group are matched, and its filters tested.
#![tactic(auto)]

mod marks;
mod plans;
mod taking;

pub use plans::{BranchPlan, GroupPlan, PatternStage, plan_of};
