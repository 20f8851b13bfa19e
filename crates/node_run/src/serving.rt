//! The run: all that the node does, over the words, the wire and the banks that it is handed.
ghost use Rattle.std.specs.Prelude.{◌≡◌, Some, map};
ghost use Rattle.std.specs.String.{string_bytes};
ghost use Rattle.node_core.specs.shell_session.SessionLines.{Meters};
ghost use Rattle.node_core.specs.shell_session.RunEnds.{TellsUsage, IfFound};
ghost use Rattle.node_run.specs.declared.node.NodeWords.{NodeWords};
ghost use Rattle.node_run.specs.Words.{AreRefused, AreWords};
ghost use Rattle.node_run.specs.ServiceStatuses.{service_status, damaged_of, LeavesWireAndBanks, CountsWire};
ghost use Rattle.node_run.specs.ServiceTurns.{KeepsTurns, HasServed};
ghost use Rattle.node_run.specs.ServiceEnds.{ServiceEnds};

use crate::begins::begin;
use crate::node::read_words;
use crate::stops::{NodeRan, NodeStop, end_run, words_stop};
use crate::turns::take_turns;
use mld_io::{Banks, Wire};
use std::alloc::Global;
use std::thread::Threads;

/// Does all that the program does: it keeps one clone on the banks, as the words say, takes events from the wire, of which none was taken
/// before, and sends what the clone has to say. A clone that the banks keep is served whatever the role is, with the properties that it
/// has; banks that keep nothing become those of the first clone of the domain, or of one who asks for a leaf.
///
/// # Statuses
/// 0: `End` came, or a request to halt was answered. 1: the words aren't those of a node; no bank is called, and no event is taken. 5: no
/// memory. 6: the banks failed. 8: as many events as the words say were taken. 9: the wire failed. 10: a side of the banks is damaged. 11:
/// the banks keep a clone of another id or domain. What an event sends is sent before the next one is taken. A clone that is live at the
/// end is stopped.
pub fn serve<R: Threads + Sync, W: Wire, B: Banks>(
    rt: &R,
    alloc: Global,
    words: &Vec<String>,
    wire: &mut W,
    banks: B,
) -> NodeRan<B>
    // No event was taken before.
    requires { W.taken wire.old ≡ 0 }
    ensures status { result.status ≡ service_status result.fault }
    ensures usage { TellsUsage NodeStop.Usage NodeStop.NoMemory result.fault
        (AreRefused (map (λ w. string_bytes w) words.now.items)) }
    // At 1 nothing is taken or sent, and no bank is called.
    ensures untouched { result.fault ≡ Some NodeStop.Usage → LeavesWireAndBanks wire.old wire.new banks result.banks }
    ensures damaged { result.damaged ≡ damaged_of result.fault }
    ensures turns { result.turns ≡ W.taken wire.new }
    // No more events are taken than the words say, and at 8 as many.
    ensures bounded { (node : NodeWords) → AreWords (map (λ w. string_bytes w) words.now.items) node
        → KeepsTurns result.fault result.turns node.turns }
    // At 0 and 8 the events taken are a run of the model's node, and a wire that tells its log tells that of the run, whatever the banks tell: at
    // 0 the node has ended, by `End` or by a request to halt that was answered; at 8 it hasn't.
    ensures served { HasServed result.fault result.turns (W.log wire.old) (W.log wire.new) }
    // How the run ended over banks that tell their log: by what was found on them at first and the words the node began, the events that were
    // taken are a run of the model's node, of which none was taken once it had ended, or behind the last turn; and where the wire tells its log
    // it tells that of the run.
    //
    // 0: the node has ended. 8: it hasn't, and all turns were taken. 9: the wire gave no event more, or it took a front of what is to be sent
    // for the last one. 6: the last event wasn't done, and nothing was sent for it; or the banks failed before the first. 10, 11: no event was
    // taken, since a side is damaged, or the clone is another. 5: any of these.
    //
    // Wire and banks were called in one order: an event was taken, then it was done on the banks, and then what it sends was sent, part by
    // part, while the banks stayed as they were and all that the node keeps was found on whatever a crash leaves of them. So it is in the end
    // of the events that were done; and where one was not, of a front of its durable steps.
    //
    // Where the same was found on all that a crash might have left at first, so it is at each moment of what a front of the run's durable
    // steps makes of that.
    ensures ends { IfFound (B.log banks) (λ found. ServiceEnds result.fault found (record {
      texts = map (λ w. string_bytes w) words.now.items;
      turns = result.turns;
      before = W.log wire.old;
      after = W.log wire.new;
      old = B.log banks;
      now = B.log result.banks;
    })) }
    // 6 comes just where the banks had a fault, which was a real one if they aren't armed.
    ensures meter { Meters (B.meter banks) (B.meter result.banks) (result.fault ≡ Some NodeStop.Device) }
    // 9 comes just where the wire had one.
    ensures wire { CountsWire (W.faults wire.old) (W.faults wire.new) result.fault }
{
    let words = match read_words(alloc, words) {
        Ok(words) => words,
        Err(fault) => return end_run(Some(words_stop(fault)), 0, banks),
    };
    let turns = words.turns;
    match begin(rt, alloc, banks, words) {
        Ok(state) => take_turns(rt, alloc, wire, state, turns),
        Err((stop, banks)) => end_run(Some(stop), 0, banks),
    }
}
