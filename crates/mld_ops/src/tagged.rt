//! Tagged triples.
use rdf_terms::Triple;
use std::alloc::AllocError;
use tree_clock::Dot;

/// A triple with the dot of the operation that inserted it. Pairs are ordered by triple, then by dot.
#[derive(Debug, Drop, PartialEq, Eq, PartialOrd, Ord)]
pub struct Tagged {
    /// The triple.
    pub triple: Triple,
    /// The dot of its operation.
    pub dot: Dot,
}

impl Tagged {
    ghost use Rattle.std.specs.Prelude.{◌≡◌, IfOk};

    /// A copy of the pair, which shares its texts.
    pub fn share(&self) -> Result<Tagged, AllocError>
        ensures { IfOk result (λ copy. copy ≡ self.now) }
    {
        Ok(Tagged {
            triple: self.triple.share()?,
            dot: self.dot,
        })
    }
}
