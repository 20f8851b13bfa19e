//! A call is stopped at a call of its device, the device crashes, and what it keeps is mounted.
use crate::faults::{Fault, Tried};
use crate::lines::{Row, cut_word};
use crate::making::{Made, NOTHING, banks_of_begun, do_next, first_made, make};
use crate::telling::{Told, put_clone};
use clone_core::{Adopted, MldClone, Mounted};
use disk_model::MemoryBanks;
use mld_io::CrashBanks;
use std::alloc::Global;
use std::thread::Threads;

/// Puts what comes of a call behind steps, on a device that is armed as the row says: how the call ends, and what is mounted then.
pub fn put_crash<R: Threads + Sync>(
    rt: &R,
    alloc: Global,
    told: &mut Told,
    steps: &str,
    call: &str,
    row: Row<'_>,
) {
    if cut_word(call).0 != row.word {
        told.push_str("no such call");
    } else if steps == NOTHING {
        put_left(rt, alloc, told, first_made(rt, alloc, call, Some(row)));
    } else if call == "mount" {
        put_mount(rt, alloc, told, make(rt, alloc, steps), row);
    } else {
        put_step(rt, alloc, told, make(rt, alloc, steps), call, row);
    }
}

/// Puts what comes of a mount of the banks of a clone, which stops before.
fn put_mount<R: Threads + Sync>(rt: &R, alloc: Global, told: &mut Told, made: Made, row: Row<'_>) {
    let Made { begun, ended } = made;
    let mut banks = banks_of_begun(begun);
    banks.arm(row.calls, row.leave);
    let mounted = MldClone::mount(rt, alloc, banks);
    let ended = if is_mounted(&mounted) {
        ended
    } else {
        Err(Fault::Device)
    };
    put_kept(rt, alloc, told, ended, banks_of_mounted(mounted));
}

/// Whether banks were mounted.
fn is_mounted(mounted: &Mounted<MemoryBanks>) -> bool {
    !matches!(mounted, Mounted::Refused(_, _))
}

/// The banks that were mounted, or were not.
fn banks_of_mounted(mounted: Mounted<MemoryBanks>) -> MemoryBanks {
    match mounted {
        Mounted::Live(clone) => clone.stop(),
        Mounted::Empty(blank) => blank.into_banks(),
        Mounted::Refused(_fault, banks) => banks,
    }
}

/// Puts what comes of a step of a clone.
fn put_step<R: Threads + Sync>(
    rt: &R,
    alloc: Global,
    told: &mut Told,
    made: Made,
    call: &str,
    row: Row<'_>,
) {
    let mut made = made;
    arm(&mut made, row);
    made.ended = do_next(rt, alloc, &mut made, call);
    put_left(rt, alloc, told, made);
}

/// Arms the device of a clone as a row says.
fn arm(made: &mut Made, row: Row<'_>) {
    if let Adopted::Joined(clone) = &mut made.begun {
        clone.arm(row.calls, row.leave);
    }
}

/// Puts what comes of the last step of what was made.
fn put_left<R: Threads + Sync>(rt: &R, alloc: Global, told: &mut Told, made: Made) {
    let Made { begun, ended } = made;
    put_kept(rt, alloc, told, ended, banks_of_begun(begun));
}

/// Puts what comes of a call that ended so, and left these banks.
fn put_kept<R: Threads + Sync>(
    rt: &R,
    alloc: Global,
    told: &mut Told,
    ended: Tried<()>,
    banks: MemoryBanks,
) {
    told.push_str(match ended {
        Ok(()) => "done, ",
        Err(Fault::Device) => "refused, ",
        Err(Fault::Amiss) => "no such step, or a refusal, ",
        Err(Fault::NoMemory) => "out of memory, ",
    });
    let mut banks = banks;
    banks.revive();
    let mounted = MldClone::mount(rt, alloc, banks);
    put_mounted(told, &mounted);
    banks_of_mounted(mounted);
}

/// Puts what was mounted.
fn put_mounted(told: &mut Told, mounted: &Mounted<MemoryBanks>) {
    match mounted {
        Mounted::Live(clone) => put_clone(told, clone),
        Mounted::Empty(_blank) => told.push_str(NOTHING),
        Mounted::Refused(fault, _banks) => told.push_printed(fault),
    }
}
