//! What the words say of a node.
ghost use Rattle.std.specs.Prelude.{◌≡◌, ◌≢◌, ◌≤◌, ◌∷◌, IsTrue, length, map, IfOk, IsErrOf};
ghost use Rattle.std.specs.String.{string_bytes};
ghost use Rattle.clap.specs.Words.{found_of, kind_of, rows_of};
ghost use Rattle.text_rules.specs.Domain.{is_domain};
ghost use Rattle.node_run.specs.WordSpelling.{iri_count};
ghost use Rattle.node_run.specs.Words.{AreReadAs, AreRefused, AreWords, ReadsBy, node_name};

use crate::faults::NodeWordsFault;
use crate::given::{NODE_NAME, find_in, iris_of, text_of};
use crate::spelled::{
    read_domain, read_id, read_iris, read_name, read_peer, read_role, read_turns,
};
use clap::error::ErrorKind;
use clap::{ArgMatches, Error};
use rdf_terms::Iri;
use std::alloc::{AllocError, Global};
use text_rules::Text;
use uuid::Uuid;

/// What the words say of a node.
#[derive(Drop)]
pub struct NodeWords {
    /// The id of its clone.
    pub id: Uuid,
    /// The domain of its clone.
    pub domain: Text,
    /// Whether it joins a clone that is there, and does not begin a new one.
    pub join: bool,
    /// The folder of its banks.
    pub dir: Text,
    /// The address that it listens at.
    pub listen: Text,
    /// The address that it connects to.
    pub peer: Option<Text>,
    /// How many events it takes at most.
    pub turns: u64,
    /// The single-valued properties, in the order of the words.
    pub props: Vec<Iri>,
}

/// Reads the words behind the program's name:
/// `--id UUID --domain D --role genesis|join --dir DIR --listen ADDR [--peer ADDR] [--turns N] [IRI ...]`, in any order.
///
/// # Errors
/// `Usage` where they are anything else: clap refuses them, `--help` among them, a value isn't valid, or there are more than 16 IRIs.
pub fn read_words(alloc: Global, words: &Vec<String>) -> Result<NodeWords, NodeWordsFault>
    ensures ok { IfOk result (AreWords (map (λ w. string_bytes w) words.now.items)) }
    ensures usage { IsErrOf result NodeWordsFault.Usage → AreRefused (map (λ w. string_bytes w) words.now.items) }
    ensures domain { IfOk result (λ node. IsTrue (is_domain node.domain)) }
    ensures turns { IfOk result (λ node. 1 ≤ node.turns) }
    ensures props { IfOk result (λ node. length node.props.items ≤ iri_count) }
{
    let named = named_words(alloc, words)?;
    match find_in(alloc, named.as_slice()) {
        Ok(found) => read_node(alloc, &found),
        Err(error) => Err(fault_told(&error)),
    }
}

/// The words behind the name of the program.
fn named_words<'a>(alloc: Global, words: &'a Vec<String>) -> Result<Vec<&'a str>, AllocError>
    ensures { IfOk result
        (λ named. map (λ w. w.now) named.items ≡ node_name ∷ map (λ w. string_bytes w) words.entry.now.items) }
{
    let mut named = Vec::new(alloc);
    named.push(NODE_NAME)?;
    for word in words {
        named.push(word.as_str())?;
    }
    Ok(named)
}

/// What was found, read by the rule of each value.
fn read_node(alloc: Global, found: &ArgMatches) -> Result<NodeWords, NodeWordsFault>
    ensures { ReadsBy (AreReadAs (rows_of (found_of found.now))) result }
{
    let id = read_id(text_of(found, "id"))?;
    let join = read_role(text_of(found, "role"))?;
    let turns = read_turns(text_of(found, "turns"))?;
    let domain = read_domain(alloc, text_of(found, "domain"))?;
    let dir = read_name(alloc, text_of(found, "dir"))?;
    let listen = read_name(alloc, text_of(found, "listen"))?;
    let peer = read_peer(alloc, text_of(found, "peer"))?;
    let props = read_iris(alloc, iris_of(found))?;
    Ok(NodeWords {
        id,
        domain,
        join,
        dir,
        listen,
        peer,
        turns,
        props,
    })
}

/// A refusal for another cause than memory is one of the words.
fn fault_told(error: &Error) -> NodeWordsFault
    ensures { result ≡ NodeWordsFault.Usage → kind_of error.now ≢ ErrorKind.OutOfMemory }
{
    if error.kind() == ErrorKind::OutOfMemory {
        return NodeWordsFault::NoMemory;
    }
    NodeWordsFault::Usage
}
