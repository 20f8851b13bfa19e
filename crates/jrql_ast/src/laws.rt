//! Laws of solutions and answers. Each function does nothing: its contract is the law.
ghost use Rattle.std.specs.Prelude.{◌≡◌, List, Option};
ghost use Rattle.std.specs.List.Sorted.{IsPermutation};
ghost use Rattle.rdf_terms.specs.declared.terms.Term.{Term};
ghost use Rattle.rdf_terms.specs.declared.terms.Triple.{Triple};
ghost use Rattle.jrql_ast.specs.declared.answers.Answer.{Answer};
ghost use Rattle.jrql_ast.specs.declared.patterns.Group.{Group};
ghost use Rattle.jrql_ast.specs.declared.patterns.PatternTriple.{PatternTriple};
ghost use Rattle.jrql_ast.specs.declared.queries.Query.{Query};
ghost use Rattle.jrql_ast.specs.InForm.{IsGroupInForm};
ghost use Rattle.jrql_ast.specs.QueryAnswers.{IsAnswer, IsSolutions};
ghost use Rattle.jrql_ast.specs.Solutions.{matches_from};

/// A graph and a query have one answer, and a graph and a group in form one list of solutions.
pub fn one_answer()
    ensures answer { (graph : List Triple) (query : Query) (answer other : Answer) → IsAnswer graph query answer
        → IsAnswer graph query other
        → answer ≡ other }
    ensures solutions { (graph : List Triple) (group : Group)
        (rows others : List (List (Option Term))) → IsGroupInForm group
        → IsSolutions graph group rows → IsSolutions graph group others → rows ≡ others }
{}

/// The order of patterns makes no difference to what matches them.
pub fn patterns_in_any_order()
    ensures { (graph : List Triple) (patterns others : List PatternTriple) → IsPermutation patterns others
        → (row : List (Option Term))
        → IsPermutation (matches_from graph patterns row) (matches_from graph others row) }
{}
