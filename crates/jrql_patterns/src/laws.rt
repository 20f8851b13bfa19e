//! Laws of groups that are read. They hold for all contexts, values and groups.
ghost use Rattle.std.specs.Prelude.{◌≡◌, Ok};
ghost use Rattle.serde_json.specs.Data.{Data};
ghost use Rattle.jsonld_context.specs.Context.{ContextValue};
ghost use Rattle.jrql_patterns.specs.OpenGroups.{OpenGroup};
ghost use Rattle.jrql_patterns.specs.GroupsKept.{ReadsOn};
ghost use Rattle.jrql_patterns.specs.WhereReading.{read_where};
ghost use Rattle.jrql_patterns.specs.QueryReading.{standing_variables, every_column, AreInNameOrder};

/// All columns are the variables that stand in a triple, each once, in the byte order of their names.
pub fn every_column_in_order()
    ensures { (group : OpenGroup) → AreInNameOrder group.names.named (standing_variables group) (every_column group) }
{}

/// What `@where` adds to a group keeps to the names that are met, and so does the group then.
pub fn reading_where_keeps_to_names()
    ensures { (context : ContextValue) (value : Data) (before after : OpenGroup) → read_where context value before ≡ Ok after
        → ReadsOn before after }
{}
