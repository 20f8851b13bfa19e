//! Laws of names. They hold for all names, triples and filters.
ghost use Rattle.std.specs.Prelude.{◌≡◌, ℕ, ◌≤◌, List, Ok};
ghost use Rattle.std.specs.List.{All};
ghost use Rattle.jrql_ast.specs.InForm.{IsPatternWithin, IsGroupInForm, IsQueryInForm, IsPlanInForm};
ghost use Rattle.jrql_ast.specs.declared.patterns.Filter.{Filter};
ghost use Rattle.jrql_ast.specs.declared.patterns.PatternTriple.{PatternTriple};
ghost use Rattle.jrql_ast.specs.declared.patterns.Slot.{Slot};
ghost use Rattle.jrql_ast.specs.declared.queries.What.{What};
ghost use Rattle.jsonld_values.specs.Numbering.{IsMetBehind, IsPatternOf, IsFilterOf, IsAskedOf, HasGrown, numbered_triples, group_read, plan_read};
ghost use Rattle.jsonld_values.specs.VariableNames.{NamesValue, IsNames, no_names, variables_met, meet_variable, marked};

/// A variable that is met stands behind the names that were met before; a mark leaves these as they are; at first there are none.
pub fn meeting_grows()
    ensures variable { (names : NamesValue) (name : List ℕ) (met : NamesValue × Slot)
        → meet_variable names name ≡ Ok met → IsMetBehind names met }
    ensures mark { (names : NamesValue) → HasGrown names (marked names) × (IsNames names → IsNames (marked names)) }
    ensures nothing { IsNames no_names }
{}

/// What keeps to names keeps to them as they grow, and growing goes on.
pub fn growing_keeps()
    ensures triples { (before after : NamesValue) (fresh more : ℕ) (triples : List PatternTriple)
        → HasGrown before after → fresh ≤ more → All (IsPatternOf before fresh) triples
        → All (IsPatternOf after more) triples }
    ensures filters { (before after : NamesValue) (filters : List Filter)
        → HasGrown before after → All (IsFilterOf before) filters → All (IsFilterOf after) filters }
    ensures asked { (before after : NamesValue) (what : What)
        → HasGrown before after → IsAskedOf before what → IsAskedOf after what }
    ensures goes_on { (first second third : NamesValue)
        → HasGrown first second → HasGrown second third → HasGrown first third }
    ensures begins { (names : NamesValue) → HasGrown names names }
{}

/// What was read is in form once its variables are numbered: triples, a group, a query, and a plan.
pub fn numbering_gives_form()
    ensures triples { (names : NamesValue) (fresh : ℕ) (triples : List PatternTriple) → IsNames names
        → All (IsPatternOf names fresh) triples
        → All (IsPatternWithin (variables_met names) fresh) (numbered_triples names triples) }
    ensures group { (names : NamesValue) (patterns : List PatternTriple) (branches : List (List PatternTriple))
        (filters : List Filter) → IsNames names → All (IsPatternOf names 0) patterns
        → All (All (IsPatternOf names 0)) branches → All (IsFilterOf names) filters
        → IsGroupInForm (group_read names patterns branches filters) }
    ensures query { (names : NamesValue) (patterns : List PatternTriple) (branches : List (List PatternTriple))
        (filters : List Filter) (what : What) → IsNames names → All (IsPatternOf names 0) patterns
        → All (All (IsPatternOf names 0)) branches → All (IsFilterOf names) filters → IsAskedOf names what
        → IsQueryInForm (record { group = group_read names patterns branches filters; what = what }) }
    ensures plan { (names : NamesValue) (patterns deletes inserts : List PatternTriple)
        (branches : List (List PatternTriple)) (filters : List Filter) → IsNames names
        → All (IsPatternOf names 0) patterns → All (All (IsPatternOf names 0)) branches → All (IsFilterOf names) filters
        → All (IsPatternOf names 0) deletes → All (IsPatternOf names names.fresh) inserts
        → IsPlanInForm (plan_read names (group_read names patterns branches filters) deletes inserts) }
{}
