//! What follows from the contract of `run`: where nothing stops a run it does all, unless memory runs out; and how much it reads at most.
ghost use Rattle.std.specs.Prelude.{◌≡◌, vec_len};
ghost use Rattle.mld_model.specs.World.{clone_count};
ghost use Rattle.net_world.specs.CrashedWorlds.{AreUnarmed};
ghost use Rattle.mld_replay.specs.Completeness.{ReplaysComplete, SeedsComplete, ReplaysReadFew, RunsCompletely};
ghost use Rattle.mld_replay.specs.ReplayWords.{texts_of};

use crate::run::{Ran, run};
use mld_io::{CrashBanks, Sink, Source};
use std::alloc::Global;
use std::thread::Threads;

/// A run of which the clauses of `run` hold, whose banks were empty, and in which neither the source nor the sink nor a device failed, ends
/// by 0 with the whole text of its lines, if none of them is bad or too large, and with the counts, if they are those of a seed; or it ends by 5.
pub fn complete_runs<S, K, B>()
    ensures replay { ReplaysComplete S K B }
    ensures seed { SeedsComplete S K B }
{}

/// By the word `replay` a run of which the clauses of `run` hold reads at most 16,777,217 bytes of a source that tells its bytes, whatever its
/// end: as many as an input may have, and one. By other words nothing is read.
pub fn few_bytes_are_read<S, K, B>()
    ensures { ReplaysReadFew S K B }
{}

/// Does what `run` does, and says it all in one record, with what follows from it.
pub fn run_completely<R: Threads + Sync, S: Source, K: Sink, B: CrashBanks>(
    rt: &R,
    alloc: Global,
    words: &Vec<String>,
    source: &mut S,
    sink: &mut K,
    banks: Vec<B>,
) -> Ran<B>
    requires { (vec_len banks ≡ clone_count) × AreUnarmed B.meter banks.items }
    ensures { RunsCompletely
        (record {
          left = S.left;
          read_faults = S.faults;
          held = K.held;
          write_faults = K.faults;
          log = B.log;
          meter = B.meter;
        })
        (record {
          words = texts_of words.now.items;
          source = source.old;
          source_now = source.new;
          sink = sink.old;
          sink_now = sink.new;
          banks = banks;
          ran = result;
        }) }
{
    run(rt, alloc, words, source, sink, banks)
}
