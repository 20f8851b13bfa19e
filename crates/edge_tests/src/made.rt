//! What several tests call: values in boxes and lists, and answers that failed. Only here is a value let go for which there is no memory.
ghost use Rattle.std.specs.Prelude.{◌≡◌, IfOk};

use mld_io::IoFault;
use std::alloc::{AllocError, Global};

/// The value in a box.
pub(crate) fn boxed<T: Drop>(alloc: Global, value: T) -> Result<Box<T>, AllocError>
    ensures { IfOk result (λ it. it.value ≡ value) }
{
    Ok(Box::new(alloc, value)?)
}

/// Puts a value behind those of a list.
pub(crate) fn push<T: Drop>(list: &mut Vec<T>, value: T) -> Result<(), AllocError> {
    list.push(value)?;
    Ok(())
}

/// Whether a call failed.
pub(crate) fn is_failed<T: Drop>(answer: Result<T, IoFault>) -> bool {
    matches!(answer, Err(IoFault::Failed))
}
