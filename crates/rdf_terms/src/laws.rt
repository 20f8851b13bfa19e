//! Laws of the grammar of triples. They hold for all texts.
ghost use Rattle.std.specs.Prelude.{◌≡◌, ◌++◌, ℕ, List, IsTrue};
ghost use Rattle.rdf_terms.specs.declared.terms.Triple.{Triple};
ghost use Rattle.rdf_terms.specs.Grammar.{is_blanks, SpellsTriple};
ghost use Rattle.rdf_terms.specs.Places.{IsPlace};
ghost use Rattle.rdf_terms.specs.Spelling.{triple_text};
ghost use Rattle.rdf_terms.specs.Written.{IsWritable};

/// One text spells one triple.
#[tactic(auto, using(crate::proofs::Complete::one_spelled))]
pub fn one_triple()
    ensures { (text : List ℕ) (t u : Triple) → SpellsTriple text t → SpellsTriple text u → t ≡ u }
{}

/// What is written for a triple spells it, whatever blanks follow.
#[tactic(auto, using(crate::proofs::Written::written_spelled))]
pub fn written_again()
    ensures { (t : Triple) (blanks : List ℕ)
        → IsWritable t → IsTrue (is_blanks blanks) → SpellsTriple (triple_text t ++ blanks) t }
{}

/// A text stops being the beginning of a triple's text at one place.
pub fn one_place()
    ensures { (text : List ℕ) (m n : ℕ) → IsPlace text m → IsPlace text n → m ≡ n }
{}
