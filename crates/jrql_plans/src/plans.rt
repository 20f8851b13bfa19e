//! Plans: stage by stage, what all branches share once.
ghost use Rattle.std.specs.Prelude.{◌≡◌, ◌<◌, [], ◌++◌, length, map, IfOk, OnOk, List};
ghost use Rattle.std.specs.List.{All};
ghost use Rattle.tree_clock.specs.Lists.{Has};
ghost use Rattle.jrql_ast.specs.declared.patterns.Filter.{Filter};
ghost use Rattle.jrql_ast.specs.InForm.{IsGroupInForm, IsPatternWithin, variables_of};
ghost use Rattle.jrql_plans.specs.PlannedGroups.{AreTestsOf, IsPlanBy, IsPlanFor};
ghost use Rattle.jrql_plans.specs.Planning.{AreBranchPlans, AreSortedOut, AreTakenStages, IsBranchPlan, IsTakenStage, is_closed};

use crate::marks::{mark, none_bound};
use crate::taking::{next_place, take_closed, take_whole};
use jrql_ast::{Filter, Group, PatternTriple, Sequence};
use std::alloc::{AllocError, Global};

/// A pattern whose triples are gone over, with those that are wholly bound once it is a triple.
#[derive(Drop)]
pub struct PatternStage<'a> {
    /// The pattern, which binds a variable.
    pub pattern: &'a PatternTriple,
    /// The patterns that are wholly bound then.
    pub checks: Vec<&'a PatternTriple>,
    /// The filters of which both sides are bound then, and weren't before.
    pub tests: Vec<&'a Filter>,
}

/// In which order the patterns of a branch are matched, and those of its group that are left for it.
#[derive(Drop)]
pub struct BranchPlan<'a> {
    /// The patterns that are wholly bound behind the stages that all branches share.
    pub checks: Vec<&'a PatternTriple>,
    /// The stages behind those.
    pub stages: Vec<PatternStage<'a>>,
}

/// In which order the patterns of a group are matched.
#[derive(Drop)]
pub struct GroupPlan<'a> {
    /// The patterns without variables.
    pub checks: Vec<&'a PatternTriple>,
    /// The filters without variables.
    pub tests: Vec<&'a Filter>,
    /// The stages that all branches share.
    pub stages: Vec<PatternStage<'a>>,
    /// What is behind them, branch by branch; none where nothing is.
    pub branches: Vec<BranchPlan<'a>>,
}

// The filters as they stand.
fn all_filters<'a>(alloc: Global, filters: &'a [Filter]) -> Result<Vec<&'a Filter>, AllocError>
    ensures { IfOk result (λ all. map (λ x. x.now) all.items ≡ filters.now) }
{
    let mut all = Vec::with_capacity(alloc, filters.len())?;
    for filter in filters {
        all.push(filter)?;
    }
    Ok(all)
}

// Adds patterns where they stand.
fn add_patterns<'a>(
    left: &mut Vec<&'a PatternTriple>,
    patterns: &'a [PatternTriple],
) -> Result<(), AllocError>
    ensures { OnOk result (map (λ x. x.now) left.new.items ≡ map (λ x. x.now) left.old.items ++ patterns.now) }
{
    for pattern in patterns {
        left.push(pattern)?;
    }
    Ok(())
}

// Two lists of patterns, where they stand.
fn all_patterns<'a>(
    alloc: Global,
    patterns: &'a [PatternTriple],
    more: &'a [PatternTriple],
) -> Result<Vec<&'a PatternTriple>, AllocError>
    ensures { IfOk result (λ left. map (λ x. x.now) left.items ≡ patterns.now ++ more.now) }
{
    let mut left = Vec::new(alloc);
    add_patterns(&mut left, patterns)?;
    add_patterns(&mut left, more)?;
    Ok(left)
}

// The stage of the pattern at a place, which is taken out of the patterns that are left, and binds its variables.
fn take_stage<'a>(
    alloc: Global,
    place: usize,
    left: &mut Vec<&'a PatternTriple>,
    open: &mut Vec<&'a Filter>,
    bound: &mut Vec<bool>,
) -> Result<PatternStage<'a>, AllocError>
    requires there { place < length left.old.items }
    requires within { All (λ pattern. IsPatternWithin (length bound.old.items) 0 pattern.now) left.old.items }
    ensures stage { IfOk result (λ stage. IsTakenStage left.old.items bound.old.items stage left.new.items bound.new.items) }
    ensures tests { IfOk result (λ stage.
        AreSortedOut (λ test. is_closed bound.new.items test.now) open.old.items stage.tests.items open.new.items) }
{
    let pattern = left.remove(place);
    mark(pattern, bound);
    let checks = take_whole(alloc, left, bound)?;
    let tests = take_closed(alloc, open, bound)?;
    Ok(PatternStage {
        pattern,
        checks,
        tests,
    })
}

// The stages of the patterns that are left, each the one with the most bound places, as long as no pattern of these branches has more.
// They are taken out.
fn take_stages<'a>(
    alloc: Global,
    branches: &[Sequence<PatternTriple>],
    left: &mut Vec<&'a PatternTriple>,
    open: &mut Vec<&'a Filter>,
    bound: &mut Vec<bool>,
) -> Result<Vec<PatternStage<'a>>, AllocError>
    requires { All (λ pattern. IsPatternWithin (length bound.old.items) 0 pattern.now) left.old.items }
    ensures stages { IfOk result (λ stages.
        AreTakenStages left.old.items bound.old.items stages.items left.new.items bound.new.items) }
    ensures all { IfOk result (λ stages. branches.now ≡ [] → left.new.items ≡ []) }
    ensures tests { IfOk result (λ stages. (filters : List Filter) → All (λ test. Has filters test.now) open.old.items
        → AreTestsOf filters stages.items) }
    ensures open { IfOk result (λ stages. (filters : List Filter) → All (λ test. Has filters test.now) open.old.items
        → All (λ test. Has filters test.now) open.new.items) }
{
    let mut stages = Vec::new(alloc);
    'staging: while let Some(place) = next_place(left, branches, bound) {
        stages.push(take_stage(alloc, place, left, open, bound)?)?;
    }
    Ok(stages)
}

// The plan of a branch, behind what is bound: it has its patterns and those that are left, and tests filters that are open.
fn plan_branch<'a>(
    alloc: Global,
    branch: &'a [PatternTriple],
    left: &[&'a PatternTriple],
    open: &[&'a Filter],
    bound: &[bool],
) -> Result<BranchPlan<'a>, AllocError>
    requires branch { All (IsPatternWithin (length bound.now) 0) branch.now }
    requires left { All (λ pattern. IsPatternWithin (length bound.now) 0 pattern.now) left.now }
    ensures { IfOk result (IsBranchPlan left.now open.now bound.now branch.now) }
{
    let mut left = Vec::from_slice(alloc, left)?;
    add_patterns(&mut left, branch)?;
    let mut open = Vec::from_slice(alloc, open)?;
    let mut bound = Vec::from_slice(alloc, bound)?;
    let checks = take_whole(alloc, &mut left, &bound)?;
    let stages = take_stages(alloc, &[], &mut left, &mut open, &mut bound)?;
    Ok(BranchPlan { checks, stages })
}

// The plans of branches.
fn plan_branches<'a>(
    alloc: Global,
    branches: &'a [Sequence<PatternTriple>],
    left: &[&'a PatternTriple],
    open: &[&'a Filter],
    bound: &[bool],
) -> Result<Vec<BranchPlan<'a>>, AllocError>
    requires branches { All (All (IsPatternWithin (length bound.now) 0)) branches.now }
    requires left { All (λ pattern. IsPatternWithin (length bound.now) 0 pattern.now) left.now }
    ensures { IfOk result (λ plans. AreBranchPlans left.now open.now bound.now branches.now plans.items) }
{
    let mut plans = Vec::new(alloc);
    for branch in branches {
        plans.push(plan_branch(alloc, branch.as_slice(), left, open, bound)?)?;
    }
    Ok(plans)
}

// How many variables a group has.
fn variables_of(group: &Group) -> usize
    requires { IsGroupInForm group.now }
    ensures { result ≡ variables_of group.now }
{
    group.names.len() + group.hidden as usize
}

// A plan for the patterns of a group, with more that all share, and these branches.
fn plan_with<'a>(
    alloc: Global,
    group: &'a Group,
    more: &'a [PatternTriple],
    branches: &'a [Sequence<PatternTriple>],
) -> Result<GroupPlan<'a>, AllocError>
    requires form { IsGroupInForm group.now }
    requires more { All (IsPatternWithin (variables_of group.now) 0) more.now }
    requires branches { All (All (IsPatternWithin (variables_of group.now) 0)) branches.now }
    ensures { IfOk result (IsPlanBy (group.now.patterns ++ more.now) branches.now group.now.filters (variables_of group.now)) }
{
    let mut left = all_patterns(alloc, group.patterns.as_slice(), more)?;
    let mut open = all_filters(alloc, group.filters.as_slice())?;
    let mut bound = none_bound(alloc, variables_of(group))?;
    let checks = take_whole(alloc, &mut left, &bound)?;
    let tests = take_closed(alloc, &mut open, &bound)?;
    let stages = take_stages(alloc, branches, &mut left, &mut open, &mut bound)?;
    let branches = plan_branches(alloc, branches, &left, &open, &bound)?;
    Ok(GroupPlan {
        checks,
        tests,
        stages,
        branches,
    })
}

/// The order in which the patterns of a group are matched, and its filters tested. Each stage has the pattern with the most bound places,
/// the first one on a tie. What several branches share is matched once, as long as no pattern of a branch has more bound places.
pub fn plan_of<'a>(alloc: Global, group: &'a Group) -> Result<GroupPlan<'a>, AllocError>
    requires { IsGroupInForm group.now }
    ensures { IfOk result (IsPlanFor group.now) }
{
    let branches = group.branches.as_slice();
    if branches.len() == 1 {
        plan_with(alloc, group, branches[0].as_slice(), &[])
    } else {
        plan_with(alloc, group, &[], branches)
    }
}
