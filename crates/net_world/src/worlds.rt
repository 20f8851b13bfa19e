//! The world: its clones, and every message ever sent.

use crate::commands::answer;
use crate::founding::found_clones;
use crate::settling::{ask_live, number_of};
use crate::summaries::Summary;
use crate::summarizing::{clones_of, summarize};
use clone_core::journal_store::Blank;
use mld_io::{Banks, CrashBanks};
use mld_ops::kept_properties;
use schedule_text::Setup;
use schedule_text::schedule_model::Command;
use std::alloc::{AllocError, Global};
use std::marker::Model;
use std::thread::Threads;
use world_commands::stopping::stop_all;
use world_commands::{Parts, WorldFault, copy_named};

/// A world that runs, each clone on banks of its own.
#[derive(Drop)]
pub struct World<B: CrashBanks> {
    parts: Parts<B>,
    steps: u32,
}

impl<B: CrashBanks> Model for World<B> {
    ghost use Rattle.std.specs.Prelude.{◌≡◌, vec_len};
    ghost use Rattle.mld_model.specs.Local.{IsNamed};
    ghost use Rattle.mld_model.specs.World.{clone_count};
    ghost use Rattle.world_commands.specs.WorldBanks.{BankedWorld};
    ghost use Rattle.world_commands.specs.WorldParts.{running_of};

    ghost Value = { BankedWorld B };

    ghost view = { λ w. running_of w.parts w.steps };

    ghost invariant = { λ w. (vec_len w.parts.clones ≡ clone_count) × IsNamed w.parts.domain w.parts.properties.items };
}

impl<B: CrashBanks> World<B> {
    ghost use Rattle.std.specs.Prelude.{◌≡◌, ◌+◌, ◌<◌, vec_len, IsTrue, IfOk, IfErr, OnOk, OnErr};
    ghost use Rattle.std.specs.Result.{result_err};
    ghost use Rattle.schedule_text.specs.schedule_model.WorldStep.{step_limit};
    ghost use Rattle.text_rules.specs.Domain.{is_domain};
    ghost use Rattle.mld_model.specs.World.{World as ModelWorld, clone_count};
    ghost use Rattle.world_commands.specs.WorldBanks.{StandsOnBanks, AllBanksStandFor, banks_of, MetersGoOn, HadNoFaults, RefusesFounding, HasFaultsFor, OthersStay, memory_of};
    ghost use Rattle.schedule_text.specs.schedule_model.Schedule.{IsSetup};
    ghost use Rattle.schedule_text.specs.schedule_model.Step.{HasCloneNumbers, IsCommandInForm, number_of_clone};
    ghost use Rattle.schedule_text.specs.ReadLines.{setup_of};
    ghost use Rattle.net_world.specs.Founding.{StandsFounded};
    ghost use Rattle.net_world.specs.FoundingLeft.{LeavesFounded};
    ghost use Rattle.net_world.specs.CrashedWorlds.{AreUnarmed};
    ghost use Rattle.net_world.specs.LeftBehind.{LeavesBanks};
    ghost use Rattle.net_world.specs.DeviceUses.{UsesDeviceOf};
    ghost use Rattle.net_world.specs.SettledWorlds.{SettlesWorld, SettlesFounded};
    ghost use Rattle.world_commands.specs.Worlds.{IsStanding, Stepped};
    ghost use Rattle.net_world.specs.WorldSummary.{Tells};

    /// The founded world: the clones from 0 on are live, each with a leaf of its own, and the others are absent. Each has banks of its
    /// own, of which there are as many as clones; the banks of the live ones keep them from then on.
    ///
    /// # Errors
    ///
    /// `Device` where the device of a clone failed; all banks are given back, in order. The clone was in the middle of a durable step of
    /// founding: whatever a crash leaves of the banks, the steps before that one stand, that one may, and no later one does. `NoMemory`,
    /// with which no banks are given back.
    pub fn found<R: Threads + Sync>(
        rt: &R,
        alloc: Global,
        setup: &Setup,
        blanks: Vec<Blank<B>>,
    ) -> Result<World<B>, (WorldFault, Vec<B>)>
        requires setup { IsSetup (setup_of setup.now) }
        requires count { vec_len blanks ≡ clone_count }
        ensures founded { IfOk result (λ world. StandsFounded B.log (setup_of setup.now) world) }
        ensures standing { IfOk result (IsStanding B.log) }
        ensures steps { IfOk result (λ world. world.steps ≡ 0) }
        ensures meters { IfOk result (λ world. MetersGoOn B.meter blanks.items (banks_of world)) }
        ensures quiet { IfOk result (λ world. HadNoFaults B.meter blanks.items (banks_of world)) }
        ensures err { IfErr result (λ refused. RefusesFounding B.meter blanks.items refused.0 refused.1.items) }
        ensures settled { IfOk result (SettlesFounded B.log blanks.items) }
        ensures left { IfErr result (λ refused. LeavesFounded B.log (setup_of setup.now) refused.0 refused.1.items) }
    {
        let Ok(named) = copy_named(alloc, &setup.domain, setup.props.as_slice()) else {
            return Err((WorldFault::NoMemory, Vec::new(alloc)));
        };
        let kept = Setup {
            domain: named.domain,
            clones: setup.clones,
            props: kept_properties(named.properties),
        };
        let clones = found_clones(rt, alloc, &kept, blanks)?;
        Ok(World {
            parts: Parts {
                domain: kept.domain,
                properties: kept.props,
                clones,
                messages: Vec::new(alloc),
            },
            steps: 0,
        })
    }

    /// The name of the domain.
    pub fn domain(&self) -> &str
        ensures text { result.now ≡ self.now.domain }
        ensures name { IsTrue (is_domain self.now.domain) }
    {
        self.parts.domain.as_str()
    }

    /// What there is to tell of the world, of each world of the model that it stands for; and the banks of the clones, by number: live
    /// ones stop. They stand for the world. The messages are let go first, and the pairs are moved out of the clones, one after another.
    pub fn into_summary(self, alloc: Global) -> Result<(Summary, Vec<B>), AllocError>
        ensures tells { IfOk result (λ told. Tells (memory_of self) told.0) }
        ensures banks { IfOk result (λ told. told.1.items ≡ banks_of self) }
        ensures stand { (world : ModelWorld) → StandsOnBanks B.log self world
            → IfOk result (λ told. AllBanksStandFor B.log world told.1.items) }
    {
        let (summary, banks) = summarize(alloc, clones_of(self.parts))?;
        Ok((summary, banks))
    }

    /// The banks of the clones, by number: live ones stop. They stand for the world.
    pub fn into_banks(self, alloc: Global) -> Result<Vec<B>, AllocError>
        ensures banks { IfOk result (λ banks. banks.items ≡ banks_of self) }
        ensures stand { (world : ModelWorld) → StandsOnBanks B.log self world
            → IfOk result (λ banks. AllBanksStandFor B.log world banks.items) }
    {
        let mut banks = Vec::with_capacity(alloc, self.parts.clones.len())?;
        stop_all(self.parts.clones, &mut banks);
        Ok(banks)
    }

    /// Does a command or a crash line, and adds the text of its reply to the output. No banks may be armed; a crash line arms those of its
    /// clone by its own call and leave, and none is armed behind it. A command calls the device where it has durable steps or
    /// opens a clone that is down, and nowhere else. A command uses the banks of its clone alone, and whatever it answers, a crash leaves of them
    /// what it might have left before, or what stands for the clone after a front of the command's durable steps. Where a crash left of all banks
    /// what stands for their clones, it does so again behind a command that was done. After `Device` and `NoMemory` the world may have done a part
    /// of it, and is only asked for its banks; the output is as it was.
    ///
    /// # Errors
    ///
    /// `Device` where the device of the command's clone failed, which it names and the command needs, and no arm caught the call; and `NoMemory`.
    pub fn step<R: Threads + Sync>(
        &mut self,
        rt: &R,
        alloc: Global,
        command: &Command,
        out: &mut Vec<u8>,
    ) -> Result<(), WorldFault>
        requires few { self.old.steps < step_limit }
        requires standing { IsStanding B.log self.old }
        requires numbers { HasCloneNumbers command.now }
        requires form { IsCommandInForm command.now }
        requires unarmed { AreUnarmed B.meter (banks_of self.old) }
        ensures done { OnOk result (Stepped B.log self.old command.now self.new out.old.items out.new.items) }
        ensures standing { OnOk result (IsStanding B.log self.new) }
        ensures steps { OnOk result (self.new.steps ≡ self.old.steps + 1) }
        ensures meters { MetersGoOn B.meter (banks_of self.old) (banks_of self.new) }
        ensures faults { HasFaultsFor (number_of_clone command.now) B.meter
            (banks_of self.old) (banks_of self.new) result }
        ensures device { UsesDeviceOf B.log B.meter self.old command.now (banks_of self.new) (result_err result) }
        ensures left { LeavesBanks B.log self.old command.now (banks_of self.new) }
        ensures settled { OnOk result (SettlesWorld B.log self.old command.now self.new) }
        ensures others { OthersStay (number_of_clone command.now) (banks_of self.old) (banks_of self.new) }
        ensures out { OnErr result (out.new.items ≡ out.old.items) }
    {
        answer(rt, alloc, &mut self.parts, command, out)?;
        ask_live(self.parts.clones.as_slice(), number_of(command));
        self.steps += 1;
        Ok(())
    }
}
