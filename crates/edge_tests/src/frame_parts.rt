//! Parts that an assembly takes, and parts that it doesn't.
use crate::made::boxed;
use mld_io::Piece;
use std::alloc::{AllocError, Global};
use std::test::Fail;
use wire_frames::{Assembled, Assembly, AssemblyFault};

/// The most bytes of a part.
const FULL: usize = 1_048_576;

/// The number of a part's message, its index, and how many there are.
type Head = (u32, u32, u32);

/// Whether a part comes behind the first one of three, its head, how many bytes it has, and how many parts are left then, if it is taken.
type Part = (bool, Head, usize, Option<u32>);

const PARTS: &[Part] = &[
    (false, (0, 0, 2), FULL, Some(1)),
    (false, (0, 0, 1_024), FULL, Some(1_023)),
    (false, (0, 0, 1_025), FULL, None),
    (false, (1, 0, 2), FULL, None),
    (false, (0, 1, 3), FULL, None),
    (false, (0, 0, 2), FULL - 1, None),
    (false, (0, 0, 2), FULL + 1, None),
    (false, (0, 0, 0), 1, None),
    (false, (0, 0, 1), 0, None),
    (false, (0, 0, 1), 1, None),
    (true, (0, 1, 3), FULL, Some(1)),
    (true, (0, 0, 3), FULL, None),
    (true, (0, 1, 4), FULL, None),
    (true, (1, 1, 3), FULL, None),
    (true, (0, 1, 3), 1, None),
];

/// Whether so many parts are left by what an assembly gave, or the part was bad where none is wanted.
fn is_told(added: &Result<Assembled, AssemblyFault>, wanted: Option<u32>) -> bool {
    match added {
        Ok(Assembled::Waiting(left)) => wanted == Some(*left),
        Ok(Assembled::Whole(_)) => false,
        Err(AssemblyFault::BadPart) => wanted.is_none(),
        Err(AssemblyFault::NoMemory) => false,
    }
}

/// Whether so many parts are left behind one of so many bytes 7, by which no message begins, and the assembly is good where it is taken.
fn leaves(
    alloc: Global,
    assembly: &mut Assembly,
    (number, index, count): Head,
    size: usize,
    wanted: Option<u32>,
) -> Result<bool, AllocError> {
    if !assembly.is_good() {
        return Ok(false);
    }
    let piece = Piece::from_vec(Vec::from_elem(alloc, 7, size)?);
    let added = boxed(alloc, assembly.add(number, index, count, piece))?;
    Ok(is_told(&added, wanted) && assembly.is_good() == wanted.is_some())
}

/// Whether so many parts are left behind a part as it says.
fn is_taken_so(alloc: Global, (begun, head, size, wanted): Part) -> Result<bool, AllocError> {
    let mut assembly = boxed(alloc, Assembly::new(alloc))?;
    if begun && !leaves(alloc, &mut assembly, (0, 0, 3), FULL, Some(2))? {
        return Ok(false);
    }
    leaves(alloc, &mut assembly, head, size, wanted)
}

#[test]
fn only_the_next_part_is_taken(rt: HostRuntime) -> Result<(), Fail> {
    for part in PARTS {
        assert!(rt; is_taken_so(rt.alloc(), *part)?, "{part:?}");
    }
    Ok(())
}
