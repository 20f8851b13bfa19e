//! The pairs of a range of dots.
ghost use Rattle.std.specs.Prelude.{IfOk};
ghost use Rattle.mld_ops.specs.Applies.{IsOfRange};
ghost use Rattle.mld_ops.specs.Tagged.{tagged_cmp};
ghost use Rattle.tree_clock.specs.Lists.{IsAscending};

use crate::copies::copy_found;
use crate::matching::OfRange;
use mld_ops::Tagged;
use pair_orders::chunked_list::Chunked;
use std::alloc::{AllocError, Global};
use tree_clock::Range;

/// The pairs whose dot is one of the range, ascending. It looks at each pair.
pub(crate) fn found_among_all(
    alloc: Global,
    pairs: &Chunked<Tagged>,
    range: &Range,
) -> Result<Vec<Tagged>, AllocError>
    requires { IsAscending tagged_cmp pairs.now.elements }
    ensures { IfOk result (λ found. IsOfRange range.now pairs.now.elements found.items) }
{
    let found = pairs.find_all(alloc, &OfRange { range })?;
    copy_found(alloc, &found)
}
