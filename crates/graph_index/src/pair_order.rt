//! The order of pairs.
use mld_ops::Tagged;
use pair_orders::chunked_list::Order;
use std::cmp::Ordering;

/// By triple, then by dot.
pub(crate) struct PairOrder;

impl Order<Tagged> for PairOrder {
    ghost use Rattle.mld_ops.specs.Tagged.{tagged_cmp};
    ghost use Rattle.mld_ops.proofs.TaggedLaws.{tagged_total, tagged_exact};
    ghost use Rattle.graph_index.specs.SubjectLaws.{pairs_by_subject};

    ghost order = { λ _. tagged_cmp };

    ghost total = { λ _. tagged_total };

    ghost exact = { λ _. tagged_exact };

    ghost by_key = { λ _. pairs_by_subject };

    fn compare(&self, a: &Tagged, b: &Tagged) -> Ordering {
        a.cmp(b)
    }
}
