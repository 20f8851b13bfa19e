//! `mld_node --id UUID --domain D --role genesis|join --dir DIR --listen ADDR [--peer ADDR] [--turns N] [IRI ...]`
//! keeps one clone in a folder, and serves it to clients and to other nodes over TCP.
#![tactic(auto)]

use std::process::ExitCode;
use tcp_node::run_process;

fn main(rt: HostRuntime) -> ExitCode {
    ExitCode::from(run_process(&rt))
}
