//! Plans that take an operation back.
ghost use Rattle.std.specs.Prelude.{◌≡◌, ◌↔◌, [], ◌∷◌, List, ℕ, IfOk, IsTrue};
ghost use Rattle.clone_history.specs.UndoParts.{AreTemplates};
ghost use Rattle.clone_history.specs.Undoing.{IsPutBack, IsTakenOut, TakesBack};
ghost use Rattle.mld_ops.specs.Entry.{IsEntry};
ghost use Rattle.mld_ops.specs.Ready.{last_dot};
ghost use Rattle.jrql_ast.specs.InForm.{IsPlanInForm};
ghost use Rattle.jrql_ast.specs.Templates.{no_group, template_of};
ghost use Rattle.mld_ops.specs.declared.tagged.Tagged.{Tagged};
ghost use Rattle.rdf_terms.specs.declared.terms.Triple.{Triple};

use crate::checks::last_dot;
use graph_index::Graph;
use jrql_ast::{Group, PatternTriple, Sequence, Slot, UpdatePlan};
use mld_ops::{Entry, Tagged, copy_pairs};
use rdf_terms::{Term, Triple};
use std::alloc::{AllocError, Global};
use tree_clock::Dot;

/// The plan that takes back the operation of an entry over the pairs of a graph.
pub(crate) fn plan_against(
    alloc: Global,
    entry: &Entry,
    pairs: &Graph,
) -> Result<UpdatePlan, AllocError>
    ensures plan { IfOk result (TakesBack entry.now pairs.now.pairs) }
    ensures form { IfOk result IsPlanInForm }
    ensures entry { IsEntry entry.now }
{
    // It tells that the entry is one.
    entry.range();
    let gone = taken_out(alloc, entry, pairs)?;
    let back = put_back(alloc, entry.deletes(), pairs)?;
    Ok(UpdatePlan {
        group: no_group(alloc),
        deletes: Sequence::from_vec(gone),
        inserts: Sequence::from_vec(back),
        fresh: 0,
    })
}

// The templates of the triples that are taken out.
fn taken_out(alloc: Global, entry: &Entry, pairs: &Graph) -> Result<Vec<PatternTriple>, AllocError>
    ensures { IfOk result (λ templates. AreTemplates (λ (insert : Triple × ℕ).
        IsTakenOut (last_dot entry.now.range) entry.now.deletes pairs.now.pairs insert.0) (λ insert. insert.0)
        entry.now.inserts templates.items) }
{
    let others = graph_of(alloc, entry)?;
    alone_of(alloc, &last_dot(entry), entry.inserts(), pairs, &others)
}

// The pairs that an entry deletes.
fn graph_of(alloc: Global, entry: &Entry) -> Result<Graph, AllocError>
    ensures { IfOk result (λ graph. graph.pairs ≡ entry.now.deletes) }
{
    // It tells that they ascend.
    entry.range();
    let pairs = copy_pairs(alloc, entry.deletes())?;
    Graph::from_list(alloc, pairs)
}

// The templates of the triples that have this dot alone, and of which the others have no pair.
fn alone_of(
    alloc: Global,
    own: &Dot,
    inserts: &[(Triple, u32)],
    pairs: &Graph,
    others: &Graph,
) -> Result<Vec<PatternTriple>, AllocError>
    ensures { IfOk result (λ templates.
        AreTemplates (λ (insert : Triple × ℕ). IsTakenOut own.now others.now.pairs pairs.now.pairs insert.0)
        (λ insert. insert.0) inserts.now templates.items) }
{
    let mut templates = Vec::new(alloc);
    for (triple, _) in inserts {
        let goes = is_taken_out(alloc, own, triple, pairs, others)?;
        if goes {
            templates.push(template(triple.share()?))?;
        }
    }
    Ok(templates)
}

// Whether a triple has this dot alone, and the others have no pair of it.
fn is_taken_out(
    alloc: Global,
    own: &Dot,
    triple: &Triple,
    pairs: &Graph,
    others: &Graph,
) -> Result<bool, AllocError>
    ensures { IfOk result (λ alone.
        IsTrue alone ↔ IsTakenOut own.now others.now.pairs pairs.now.pairs triple.now) }
{
    if others.has_triple(triple) {
        return Ok(false);
    }
    let dots = pairs.tags_of(alloc, triple)?;
    Ok(is_just(&dots, own))
}

// Whether the dots are just this one.
fn is_just(dots: &[Dot], own: &Dot) -> bool
    ensures { IsTrue result ↔ (dots.now ≡ own.now ∷ []) }
{
    match dots {
        [dot] => is_same(dot, own),
        _ => false,
    }
}

// Whether two dots are the same.
fn is_same(dot: &Dot, other: &Dot) -> bool
    ensures { IsTrue result ↔ (dot.now ≡ other.now) }
{
    *dot == *other
}

// The templates of the triples that are put back.
fn put_back(
    alloc: Global,
    deletes: &[Tagged],
    pairs: &Graph,
) -> Result<Vec<PatternTriple>, AllocError>
    ensures { IfOk result (λ templates. AreTemplates (IsPutBack pairs.now.pairs) (λ (pair : Tagged). pair.triple)
        deletes.now templates.items) }
{
    let mut templates = Vec::new(alloc);
    for pair in deletes {
        if !pairs.has_triple(&pair.triple) {
            templates.push(template(pair.triple.share()?))?;
        }
    }
    Ok(templates)
}

// The group of no pattern. It takes no memory.
fn no_group(alloc: Global) -> Group
    ensures { result ≡ no_group }
{
    Group {
        names: Sequence::new(alloc),
        hidden: 0,
        patterns: Sequence::new(alloc),
        branches: Sequence::new(alloc),
        filters: Sequence::new(alloc),
    }
}

// A triple as a template. It takes no memory.
fn template(triple: Triple) -> PatternTriple
    ensures { result ≡ template_of triple }
{
    let Triple { s, p, o } = triple;
    PatternTriple {
        s: Slot::Term(Term::Iri(s)),
        p: Slot::Term(Term::Iri(p)),
        o: Slot::Term(o),
    }
}
