//! Laws of subjects. They hold for all contexts, subjects and values.
ghost use Rattle.std.specs.Prelude.{◌≡◌, ℕ, List, None, Ok, true};
ghost use Rattle.std.specs.List.{All};
ghost use Rattle.jrql_ast.specs.declared.answers.Described.{Described};
ghost use Rattle.jrql_ast.specs.declared.patterns.Slot.{Slot};
ghost use Rattle.serde_json.specs.Data.{Data};
ghost use Rattle.jsonld_context.specs.Context.{ContextValue, IsContext};
ghost use Rattle.jsonld_values.specs.Literals.{made_of};
ghost use Rattle.jsonld_values.specs.VariableNames.{NamesValue};
ghost use Rattle.jsonld_subjects.specs.GivingBack.{IsGivenBack, IsTripleGivenBack, GivesBack};
ghost use Rattle.jsonld_subjects.specs.NamesKept.{KeepsToNames, ObjectKeepsToNames};
ghost use Rattle.jsonld_subjects.specs.ObjectReading.{ObjectFound, stands_alone, object_alone, object_read, put_object};
ghost use Rattle.jsonld_subjects.specs.OwnSubjects.{HasOwnSubjects};
ghost use Rattle.jsonld_subjects.specs.SubjectReading.{Found, OpenSubject, read_values, subjects_read};
ghost use Rattle.jsonld_subjects.specs.SubjectWriting.{SaysSubject};
ghost use Rattle.jsonld_subjects.specs.declared.places.Place.{Place};

/// A subject that was written is read as its triples under the same context, wherever no scheme of its IRIs is a prefix of the context.
pub fn reading_gives_back()
    ensures { (context : ContextValue) (place : Place) (names : NamesValue) (described : Described)
        (written : Data) → IsContext context
        → IsGivenBack context described.id → All (IsTripleGivenBack context described.id) described.triples
        → SaysSubject context described written → GivesBack context place names described written }
{}

/// A value that may stand alone is read as a value of any key without a type is.
pub fn object_is_a_value()
    ensures { (context : ContextValue) (place : Place) (key : List ℕ) (property : Slot) (value : Data)
        (so_far : OpenSubject)
        → stands_alone value ≡ true → read_values context place key value None property so_far
        ≡ made_of (object_alone context place value so_far.found) (put_object so_far property) }
{}

/// What is read keeps to the names that are met: their variables stand in it and no others, and fresh subjects only in an
/// insert.
pub fn reading_keeps_to_names()
    ensures subjects { (context : ContextValue) (place : Place) (names : NamesValue) (value : Data) (found : Found)
        → subjects_read context place names value ≡ Ok found → KeepsToNames place names found }
    ensures objects { (context : ContextValue) (place : Place) (names : NamesValue) (value : Data) (read : ObjectFound)
        → object_read context place names value ≡ Ok read → ObjectKeepsToNames place names read }
{}

/// Each subject without an id that is read is one of its own, with a number in the order in which they begin: a hidden variable of a pattern,
/// a fresh subject of an insert.
pub fn each_subject_is_its_own()
    ensures { (context : ContextValue) (place : Place) (names : NamesValue) (value : Data) (found : Found)
        → subjects_read context place names value ≡ Ok found → HasOwnSubjects place names value found }
{}

/// A subject is said by one object under a context.
pub fn one_object_says_a_subject()
    ensures { (context : ContextValue) (described : Described) (object_said other : Data)
        → SaysSubject context described object_said → SaysSubject context described other → object_said ≡ other }
{}
