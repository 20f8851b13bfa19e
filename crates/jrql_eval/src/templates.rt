//! What templates make for the solutions of an update, where those without variables make it once.
ghost use Rattle.std.specs.Prelude.{◌≡◌, ◌≤◌, length, not, IfOk, IsTrue};
ghost use Rattle.std.specs.List.{filter};
ghost use Rattle.jrql_rows.specs.text_rules.Domain.{is_domain};
ghost use Rattle.jrql_rows.specs.jrql_ast.FreshNames.{fresh_name};
ghost use Rattle.jrql_rows.specs.jrql_ast.QueryAnswers.{solution_limit};
ghost use Rattle.jrql_eval.specs.ConstantTemplates.{is_fixed, is_constant, AreMadeBy};

use jrql_rows::jrql_ast::{PatternTriple, Row, Slot, made_triples};
use jrql_rows::rdf_terms::Triple;
use jrql_rows::tree_clock::Dot;
use std::alloc::{AllocError, Global};

// Whether a slot is a term.
fn is_fixed(slot: &Slot) -> bool
    ensures { result ≡ is_fixed slot.now }
{
    match slot {
        Slot::Term(_) => true,
        Slot::Var(_) => false,
        Slot::Fresh(_) => false,
    }
}

// Whether a template has neither variables nor fresh subjects, and so makes the same for all solutions.
fn is_constant(template: &PatternTriple) -> bool
    ensures { result ≡ is_constant template.now }
{
    is_fixed(&template.s) && is_fixed(&template.p) && is_fixed(&template.o)
}

// A copy of a template, which shares its texts.
fn copy_of(template: &PatternTriple) -> Result<PatternTriple, AllocError>
    ensures { IfOk result (λ copy. copy ≡ template.now) }
{
    Ok(PatternTriple {
        s: template.s.share()?,
        p: template.p.share()?,
        o: template.o.share()?,
    })
}

// The templates that are constant, and the others.
fn parted(
    alloc: Global,
    templates: &[PatternTriple],
) -> Result<(Vec<PatternTriple>, Vec<PatternTriple>), AllocError>
    ensures constant { IfOk result (λ parts. parts.0.items ≡ filter is_constant templates.now) }
    ensures others { IfOk result
        (λ parts. parts.1.items ≡ filter (λ template. not (is_constant template)) templates.now) }
{
    let mut constant = Vec::new(alloc);
    let mut others = Vec::new(alloc);
    for template in templates {
        if is_constant(template) {
            constant.push(copy_of(template)?)?;
        } else {
            others.push(copy_of(template)?)?;
        }
    }
    Ok((constant, others))
}

// The triples that templates make for several solutions, in no order.
#[inline(never)]
fn made_parted(
    alloc: Global,
    domain: &str,
    dot: &Dot,
    fresh: u32,
    templates: &[PatternTriple],
    rows: &[Row],
) -> Result<Vec<Triple>, AllocError>
    requires name { IsTrue (is_domain domain.now) }
    requires some { 1 ≤ length rows.now }
    requires few { length rows.now ≤ solution_limit }
    ensures { IfOk result
        (λ triples. AreMadeBy (fresh_name domain.now dot.now fresh) templates.now rows.now triples.items) }
{
    let (constant, others) = parted(alloc, templates)?;
    let mut triples = made_triples(alloc, domain, dot, fresh, &others, rows)?;
    let mut once = made_triples(alloc, domain, dot, fresh, &constant, &rows[..1])?;
    triples.append(&mut once)?;
    Ok(triples)
}

// The triples that templates make for solutions, in no order. A template that makes the same for all solutions makes it for one alone.
#[inline(always)]
pub(crate) fn made_in_any_order(
    alloc: Global,
    domain: &str,
    dot: &Dot,
    fresh: u32,
    templates: &[PatternTriple],
    rows: &[Row],
) -> Result<Vec<Triple>, AllocError>
    requires name { IsTrue (is_domain domain.now) }
    requires few { length rows.now ≤ solution_limit }
    ensures { IfOk result
        (λ triples. AreMadeBy (fresh_name domain.now dot.now fresh) templates.now rows.now triples.items) }
{
    if rows.len() > 1 {
        return made_parted(alloc, domain, dot, fresh, templates, rows);
    }
    made_triples(alloc, domain, dot, fresh, templates, rows)
}
