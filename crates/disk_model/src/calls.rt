//! Which calls of a bank in memory fail.
ghost use Rattle.std.specs.Prelude.{◌≡◌, ◌≢◌, ◌↔◌, IsTrue, ◌++◌, [], ◌∷◌, OnOk, OnErr};
ghost use Rattle.mld_io.specs.Arm.{Caught};
ghost use Rattle.disk_model.specs.CountedCalls.{BeginsCall, Ends, arm_of, counted_call, leave_of, armed_calls, revived_calls};

use mld_io::{IoFault, Leave};
use std::alloc::{AllocError, Global};
use std::marker::Model;

/// How a bank is armed.
#[derive(Clone, Copy, Debug)]
pub enum Arming {
    /// It isn't.
    Unarmed,
    /// So many calls that write or sync are still done, and the crash then leaves this.
    Armed(u32, Leave),
    /// A call was caught, and the crash leaves this.
    Caught(Leave),
}

/// The number of the next call, the numbers of those that are to fail, the counts of faults and
/// the arm.
#[derive(Debug, Drop)]
pub struct Calls {
    next: u64,
    fails: Vec<u64>,
    faults: u64,
    real_faults: u64,
    arm: Arming,
}

impl Model for Calls {
    ghost use Rattle.disk_model.specs.CountedCalls.{CallsValue};

    ghost Value = { CallsValue };

    ghost view = { λ c. record { next = c.next; fails = c.fails.items; faults = c.faults; real_faults = c.real_faults; arming = c.arm } };
}

impl Calls {
    /// No call yet, none that is to fail, and no arm.
    pub fn new(alloc: Global) -> Calls
        ensures { result ≡ record { next = 0; fails = []; faults = 0; real_faults = 0; arming = Arming.Unarmed } }
    {
        Calls {
            next: 0,
            fails: Vec::new(alloc),
            faults: 0,
            real_faults: 0,
            arm: Arming::Unarmed,
        }
    }

    /// Has the call of this number fail.
    pub fn fail(&mut self, call: u64) -> Result<(), AllocError>
        ensures ok { OnOk result (self.new ≡ record self.old { fails = self.old.fails ++ call ∷ [] }) }
        ensures err { OnErr result (self.new ≡ self.old) }
    {
        self.fails.push(call)?;
        Ok(())
    }

    /// Begins a call, which is refused where one was caught, or where its number is to fail.
    pub fn begin(&mut self) -> Result<(), IoFault>
        ensures { BeginsCall self.old result self.new }
    {
        if self.is_caught() {
            self.next = self.next.saturating_add(1);
            self.faults = self.faults.saturating_add(1);
            return Err(IoFault::Failed);
        }
        if self.fails.contains(&self.next) {
            self.next = self.next.saturating_add(1);
            self.faults = self.faults.saturating_add(1);
            self.real_faults = self.real_faults.saturating_add(1);
            return Err(IoFault::Failed);
        }
        Ok(())
    }

    /// Ends a call that read.
    pub fn end_read(&mut self)
        ensures { self.new ≡ counted_call self.old }
    {
        self.next = self.next.saturating_add(1);
    }

    /// Ends a call that wrote or is to sync: it lowers the arm, or is caught.
    pub fn end_change(&mut self) -> Result<(), IoFault>
        requires { arm_of self.old.arming ≢ Caught }
        ensures { Ends self.old result self.new }
    {
        self.next = self.next.saturating_add(1);
        match self.arm {
            Arming::Armed(0, leave) => {
                self.arm = Arming::Caught(leave);
                self.faults = self.faults.saturating_add(1);
                Err(IoFault::Failed)
            }
            Arming::Armed(calls, leave) => {
                self.arm = Arming::Armed(calls - 1, leave);
                Ok(())
            }
            _ => Ok(()),
        }
    }

    /// Whether a call was caught.
    pub fn is_caught(&self) -> bool
        ensures { IsTrue result ↔ (arm_of self.now.arming ≡ Caught) }
    {
        matches!(self.arm, Arming::Caught(_))
    }

    /// Has so many calls that write or sync done, and catches the next one; the crash then leaves
    /// this.
    pub fn arm(&mut self, calls: u32, leave: Leave)
        ensures { self.new ≡ armed_calls calls leave self.old }
    {
        if !self.is_caught() {
            self.arm = Arming::Armed(calls, leave);
        }
    }

    /// What the next crash leaves of the writes that aren't synced.
    pub fn leave(&self) -> Leave
        ensures { result ≡ leave_of self.now.arming }
    {
        match self.arm {
            Arming::Unarmed => Leave::Lose,
            Arming::Armed(_, leave) | Arming::Caught(leave) => leave,
        }
    }

    /// Takes the arm away.
    pub fn revive(&mut self)
        ensures { self.new ≡ revived_calls self.old }
    {
        self.arm = Arming::Unarmed;
    }
}
