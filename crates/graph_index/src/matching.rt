//! Tests of pairs.
use mld_ops::Tagged;
use pair_orders::chunked_list::Test;
use tree_clock::Range;

/// The pairs whose dot is one of the range.
#[derive(Drop)]
pub(crate) struct OfRange<'a> {
    pub(crate) range: &'a Range,
}

impl<'a> Test<Tagged> for OfRange<'a> {
    ghost use Rattle.graph_index.specs.Matching.{is_within_range};

    ghost passes = { λ given pair. is_within_range given.range.now pair.dot };

    fn passes(&self, pair: &Tagged) -> bool {
        pair.dot.path == self.range.path
            && self.range.first <= pair.dot.tick
            && pair.dot.tick <= self.range.last
    }
}
