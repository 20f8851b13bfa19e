//! How a node begins over its banks: the clone that they keep runs again, or one is made, or a leaf is asked for.
ghost use Rattle.std.specs.Prelude.{◌≡◌, ◌↔◌, Some, IsTrue, IfOk, IfErr};
ghost use Rattle.text_rules.specs.Domain.{is_domain};
ghost use Rattle.mld_io.specs.Disk.{Log};
ghost use Rattle.node_core.specs.shell_session.SessionLines.{Meters};
ghost use Rattle.node_core.specs.NodeStates.{IsOpen};
ghost use Rattle.node_core.specs.journal_store.Standing.{KeepsNothing};
ghost use Rattle.node_core.specs.shell_session.Shells.{Nothing};
ghost use Rattle.node_run.specs.ServiceStatuses.{IsAtFirst};
ghost use Rattle.node_run.specs.NodeBegun.{BeginsOn, BeginsShort, IsOfWords, RunsAsFound, RefusesOther, banks_begun, found_on, FailsToBegin};

use crate::node::NodeWords;
use crate::stops::{NodeStop, make_stop, mount_stop};
use mld_io::Banks;
use node_core::NodeState;
use node_core::clone_core::{Asker, MldClone, Mounted};
use node_core::journal_store::Blank;
use std::alloc::Global;
use std::thread::Threads;

/// Begins over these banks, as the words say. A clone that they keep runs again, whatever the role is; where they keep nothing the first
/// clone of the domain is made on them, or a leaf is asked for.
///
/// # Errors
///
/// `Damaged`, `OtherClone` where the banks keep a clone of another id or domain, `Device`, and `NoMemory`. The banks are given back.
pub fn begin<R: Threads + Sync, B: Banks>(
    rt: &R,
    alloc: Global,
    banks: B,
    words: NodeWords,
) -> Result<NodeState<B>, (NodeStop, B)>
    requires { IsTrue (is_domain words.domain) }
    ensures begun { IfOk result (λ state. (log : Log) → B.log banks ≡ Some log
        → BeginsOn B.log words (found_on log) (B.log banks) state) }
    ensures opened { IfOk result IsOpen }
    ensures kind { IfErr result (λ refused. IsAtFirst refused.0) }
    ensures short { IfErr result (λ refused. (log : Log) → B.log banks ≡ Some log
        → BeginsShort refused.0 words (found_on log) (B.log banks) (B.log refused.1)) }
    ensures meter { Meters (B.meter banks) (B.meter (banks_begun result)) (FailsToBegin result) }
{
    match MldClone::mount(rt, alloc, banks) {
        Mounted::Live(clone) => run_again(clone, &words),
        Mounted::Empty(blank) => begin_anew(alloc, blank, words),
        Mounted::Refused(fault, banks) => Err((mount_stop(fault), banks)),
    }
}

/// The clone that was found runs, where it is that of the words.
fn run_again<B: Banks>(clone: MldClone<B>, words: &NodeWords) -> Result<NodeState<B>, (NodeStop, B)>
    ensures ok { IfOk result (RunsAsFound words.now clone) }
    ensures err { IfErr result (RefusesOther words.now clone) }
{
    if !is_of_words(&clone, words) {
        return Err((NodeStop::OtherClone, clone.stop()));
    }
    Ok(NodeState::Live(clone))
}

/// Whether a clone has the id and the domain of the words.
fn is_of_words<B: Banks>(clone: &MldClone<B>, words: &NodeWords) -> bool
    ensures { IsTrue result ↔ IsOfWords words.now clone.now.local }
{
    clone.id() == words.id && clone.domain() == words.domain.as_str()
}

/// A node begins over banks that keep nothing, by its role.
fn begin_anew<B: Banks>(
    alloc: Global,
    blank: Blank<B>,
    words: NodeWords,
) -> Result<NodeState<B>, (NodeStop, B)>
    requires { IsTrue (is_domain words.domain) }
    ensures begun { IfOk result (λ state. (log : Log) → B.log blank ≡ Some log → KeepsNothing log
        → BeginsOn B.log words Nothing (B.log blank) state) }
    ensures opened { IfOk result IsOpen }
    ensures kind { IfErr result (λ refused. IsAtFirst refused.0) }
    ensures short { IfErr result (λ refused. (log : Log) → B.log blank ≡ Some log
        → BeginsShort refused.0 words Nothing (B.log blank) (B.log refused.1)) }
    ensures meter { Meters (B.meter blank) (B.meter (banks_begun result)) (FailsToBegin result) }
{
    let NodeWords {
        id,
        domain,
        join,
        props,
        ..
    } = words;
    if join {
        return Ok(NodeState::Asking(Asker::new(blank, id, domain, props)));
    }
    match MldClone::genesis(alloc, blank, id, domain, props) {
        Ok(clone) => {
            clone.tell_banks_keep();
            Ok(NodeState::Live(clone))
        }
        Err((fault, banks)) => Err((make_stop(fault), banks)),
    }
}
