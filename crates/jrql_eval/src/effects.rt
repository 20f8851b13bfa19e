//! The effects of updates.
ghost use Rattle.std.specs.Prelude.{◌≡◌, ◌≤◌, length, IfOk, IsErrOf, IsTrue};
ghost use Rattle.std.specs.List.{filter, flat_map};
ghost use Rattle.jrql_rows.specs.graph_index.Matching.{is_of};
ghost use Rattle.jrql_rows.specs.text_rules.Domain.{is_domain};
ghost use Rattle.jrql_rows.specs.jrql_ast.InForm.{IsPlanInForm};
ghost use Rattle.jrql_rows.specs.jrql_ast.QueryAnswers.{solution_limit};
ghost use Rattle.jrql_rows.specs.mld_ops.InOrder.{IsPutInOrder};
ghost use Rattle.jrql_rows.specs.rdf_terms.Order.{triple_cmp};
ghost use Rattle.jrql_eval.specs.PlanEffects.{HasTooMany, IsEffectBy, IsPlanEffect, OneEffect};

use crate::faults::EvalFault;
use crate::solving::solutions;
use crate::templates::made_in_any_order;
use jrql_rows::graph_index::Graph;
use jrql_rows::jrql_ast::{Row, UpdatePlan};
use jrql_rows::mld_ops::{Effect, Tagged};
use jrql_rows::rdf_terms::{Triple, cmp_triples};
use jrql_rows::tree_clock::Dot;
use std::alloc::{AllocError, Global};

// Puts triples in order, each once.
fn put_triples(triples: &mut Vec<Triple>)
    ensures { IsPutInOrder triple_cmp triples.old.items triples.new.items }
{
    triples.sort_unstable_by(|triple, other| cmp_triples(triple, other));
    triples.dedup_by(|triple, other| cmp_triples(triple, other).is_eq());
}

// The pairs of triples, one triple after another.
fn pairs_of(alloc: Global, graph: &Graph, triples: &[Triple]) -> Result<Vec<Tagged>, AllocError>
    ensures { IfOk result
        (λ pairs. pairs.items ≡ flat_map (λ triple. filter (is_of triple) graph.now.pairs) triples.now) }
{
    let mut pairs = Vec::new(alloc);
    for triple in triples {
        let mut found = graph.of_triple(alloc, triple)?;
        pairs.append(&mut found)?;
    }
    Ok(pairs)
}

// The effect of a plan by its solutions.
fn effect_by(
    alloc: Global,
    graph: &Graph,
    plan: &UpdatePlan,
    domain: &str,
    dot: &Dot,
    rows: &[Row],
) -> Result<Effect, AllocError>
    requires name { IsTrue (is_domain domain.now) }
    requires few { length rows.now ≤ solution_limit }
    ensures { IfOk result (IsEffectBy domain.now dot.now graph.now.pairs plan.now rows.now) }
{
    let fresh = plan.fresh;
    let to_delete = plan.deletes.as_slice();
    let to_insert = plan.inserts.as_slice();
    let mut gone = made_in_any_order(alloc, domain, dot, fresh, to_delete, rows)?;
    put_triples(&mut gone);
    let deletes = pairs_of(alloc, graph, &gone)?;
    let inserts = made_in_any_order(alloc, domain, dot, fresh, to_insert, rows)?;
    Ok(Effect::new(deletes, inserts))
}

/// What an update does, in a domain and at its dot: for each solution of its group it deletes the pairs of the triples that its
/// templates to delete make, and inserts the triples that its templates to insert make, each once. A fresh subject is an IRI
/// `http://DOMAIN/.well-known/genid/DOT.NUMBER`, of its own for each solution. A template makes no triple where a variable is unbound,
/// or where the subject or the predicate is a literal (SPARQL 1.1 Update, section 3.1.3). It is refused with `TooMany` where the group
/// has more than 1,048,576 solutions.
pub fn effect(
    alloc: Global,
    graph: &Graph,
    plan: &UpdatePlan,
    domain: &str,
    dot: &Dot,
) -> Result<Effect, EvalFault>
    requires form { IsPlanInForm plan.now }
    requires name { IsTrue (is_domain domain.now) }
    ensures effect { IfOk result (IsPlanEffect domain.now dot.now graph.now.pairs plan.now) }
    ensures too_many { IsErrOf result EvalFault.TooMany → HasTooMany graph.now.pairs plan.now }
{
    let rows = solutions(alloc, graph, &plan.group)?;
    Ok(effect_by(alloc, graph, plan, domain, dot, &rows)?)
}

/// A plan in form has one effect. It does nothing.
pub fn one_effect()
    ensures { OneEffect }
{}
