//! Copies of lists and of what stands in them. They share the texts of terms and of names.
ghost use Rattle.std.specs.Prelude.{◌≡◌, IfOk};

use crate::patterns::{Filter, Group, PatternTriple};
use crate::plans::UpdatePlan;
use crate::queries::{Query, Select, Target, What};
use crate::sequences::Sequence;
use std::alloc::{AllocError, Global};
use text_rules::Text;

/// What can be copied in an allocator.
pub trait CopyIn: Drop {
    /// A copy, which shares the texts.
    fn copy_in(&self, alloc: Global) -> Result<Self, AllocError>
        ensures { IfOk result (λ copy. copy ≡ self.now) };
}

impl CopyIn for u16 {
    fn copy_in(&self, _: Global) -> Result<u16, AllocError> {
        Ok(*self)
    }
}

impl CopyIn for Text {
    fn copy_in(&self, _: Global) -> Result<Text, AllocError> {
        self.share()
    }
}

/// Copies of items, in their order.
fn copy_each<T: CopyIn>(alloc: Global, items: &[T]) -> Result<Vec<T>, AllocError>
    ensures { IfOk result (λ copies. copies.items ≡ items.now) }
{
    let mut copies = Vec::with_capacity(alloc, items.len())?;
    for item in items {
        copies.push(item.copy_in(alloc)?)?;
    }
    Ok(copies)
}

impl<T: CopyIn> CopyIn for Sequence<T> {
    fn copy_in(&self, alloc: Global) -> Result<Sequence<T>, AllocError> {
        Ok(Sequence::from_vec(copy_each(alloc, self.as_slice())?))
    }
}

impl CopyIn for PatternTriple {
    fn copy_in(&self, _: Global) -> Result<PatternTriple, AllocError> {
        Ok(PatternTriple {
            s: self.s.share()?,
            p: self.p.share()?,
            o: self.o.share()?,
        })
    }
}

impl CopyIn for Filter {
    fn copy_in(&self, _: Global) -> Result<Filter, AllocError> {
        Ok(Filter {
            op: self.op,
            left: self.left.share()?,
            right: self.right.share()?,
        })
    }
}

impl CopyIn for Group {
    fn copy_in(&self, alloc: Global) -> Result<Group, AllocError> {
        Ok(Group {
            names: self.names.copy_in(alloc)?,
            hidden: self.hidden,
            patterns: self.patterns.copy_in(alloc)?,
            branches: self.branches.copy_in(alloc)?,
            filters: self.filters.copy_in(alloc)?,
        })
    }
}

impl CopyIn for Target {
    fn copy_in(&self, _: Global) -> Result<Target, AllocError> {
        match self {
            Target::Iri(iri) => Ok(Target::Iri(iri.share()?)),
            Target::Var(number) => Ok(Target::Var(*number)),
        }
    }
}

impl CopyIn for Select {
    fn copy_in(&self, alloc: Global) -> Result<Select, AllocError> {
        Ok(Select {
            vars: self.vars.copy_in(alloc)?,
            distinct: self.distinct,
            offset: self.offset,
            limit: self.limit,
        })
    }
}

impl CopyIn for What {
    fn copy_in(&self, alloc: Global) -> Result<What, AllocError> {
        match self {
            What::Select(select) => Ok(What::Select(select.copy_in(alloc)?)),
            What::Describe(targets) => Ok(What::Describe(targets.copy_in(alloc)?)),
        }
    }
}

impl CopyIn for Query {
    fn copy_in(&self, alloc: Global) -> Result<Query, AllocError> {
        Ok(Query {
            group: self.group.copy_in(alloc)?,
            what: self.what.copy_in(alloc)?,
        })
    }
}

impl CopyIn for UpdatePlan {
    fn copy_in(&self, alloc: Global) -> Result<UpdatePlan, AllocError> {
        Ok(UpdatePlan {
            group: self.group.copy_in(alloc)?,
            deletes: self.deletes.copy_in(alloc)?,
            inserts: self.inserts.copy_in(alloc)?,
            fresh: self.fresh,
        })
    }
}
