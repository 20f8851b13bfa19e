//! The domain line, which sets up.
ghost use Rattle.std.specs.Prelude.{◌≡◌, Some, IsTrue, IfOk, IfErr, IsErrOf, MatchOption};
ghost use Rattle.text_rules.specs.Domain.{is_domain};
ghost use Rattle.schedule_model.specs.Schedule.{Setup as ModelSetup, SpellsSetup, SpellsSingle, with_property};
ghost use Rattle.schedule_text.specs.ReadLines.{Finds, setup_of, SetupIs, IsBadSetup};

use crate::numbers::read_count;
use crate::refusals::LineRefusal;
use crate::words::{behind, is_nothing, split_at_space};
use rdf_terms::{Iri, read_iri};
use std::alloc::{AllocError, Global};
use text_rules::{Text, is_domain};

/// How many lines may set a single-valued property, repeats included.
const SINGLE_LIMIT: usize = 16;

/// What a domain is set up with.
#[derive(Debug, Drop)]
pub struct Setup {
    /// The name of the domain.
    pub domain: Text,
    /// How many clones are founded, 1 to `CLONE_COUNT`.
    pub clones: u8,
    /// The single-valued properties, as the lines set them, repeats included.
    pub props: Vec<Iri>,
}

/// What a line was before the clones are founded.
#[derive(Debug, Drop)]
pub enum SetupLine {
    /// It sets up the domain, which is set up so from then on.
    Setup(Setup),
    /// It sets up nothing, and this is what there was before it.
    Other(Option<Setup>),
}

/// Reads a line, without its LF, while no clone is founded, with what is set up so far.
///
/// While no domain line has come this is `domain D clones N`, or `Other` for an empty line or a comment. From then on it is
/// `single <IRI>`, as long as no more than 16 lines are; any other line is `Other`, whatever it holds: it is for `read_command` to say
/// what it is.
pub fn read_setup(
    alloc: Global,
    line: &[u8],
    so_far: Option<Setup>,
) -> Result<SetupLine, LineRefusal>
    ensures ok { IfOk result (SetupIs line.now so_far) }
    ensures bad { IsErrOf result LineRefusal.BadLine → IsBadSetup line.now so_far }
{
    match so_far {
        Some(setup) => read_later(alloc, line, setup),
        None => read_first(alloc, line),
    }
}

/// Reads a line while no domain line has come.
fn read_first(alloc: Global, line: &[u8]) -> Result<SetupLine, LineRefusal>
    ensures ok { IfOk result (SetupIs line.now None) }
    ensures bad { IsErrOf result LineRefusal.BadLine → IsBadSetup line.now None }
{
    if is_nothing(line) {
        return Ok(SetupLine::Other(None));
    }
    match domain_line(alloc, line)? {
        Some(setup) => Ok(SetupLine::Setup(setup)),
        None => Err(LineRefusal::BadLine),
    }
}

/// Reads a line once the domain is set up.
fn read_later(alloc: Global, line: &[u8], setup: Setup) -> Result<SetupLine, LineRefusal>
    ensures ok { IfOk result (SetupIs line.now (Some setup)) }
    ensures err { IfErr result (λ fault. fault ≡ LineRefusal.NoMemory) }
{
    if setup.props.len() >= SINGLE_LIMIT {
        return Ok(SetupLine::Other(Some(setup)));
    }
    let Some(property) = single_line(alloc, line)? else {
        return Ok(SetupLine::Other(Some(setup)));
    };
    Ok(SetupLine::Setup(with_property(setup, property)?))
}

/// What is set up, with one more single-valued property.
fn with_property(mut setup: Setup, property: Iri) -> Result<Setup, AllocError>
    ensures { IfOk result (λ next. setup_of next ≡ with_property (setup_of setup) property) }
{
    setup.props.push(property)?;
    Ok(setup)
}

/// `single <IRI>`, where the line spells it: the IRI.
fn single_line(alloc: Global, line: &[u8]) -> Result<Option<Iri>, AllocError>
    ensures { IfOk result (Finds (SpellsSingle line.now)) }
{
    let Some(rest) = behind(line, b"single ") else {
        return Ok(None);
    };
    let Ok(text) = str::from_utf8(rest) else {
        return Ok(None);
    };
    read_iri(alloc, text)
}

/// `domain D clones N`, where the line spells it.
fn domain_line(alloc: Global, line: &[u8]) -> Result<Option<Setup>, AllocError>
    ensures { IfOk result (λ found. MatchOption found ((setup : ModelSetup) → ¬ SpellsSetup line.now setup)
        (λ setup. SpellsSetup line.now (setup_of setup))) }
{
    let Some(rest) = behind(line, b"domain ") else {
        return Ok(None);
    };
    let Some((name, rest)) = split_at_space(rest) else {
        return Ok(None);
    };
    let Some(number) = behind(rest, b"clones ") else {
        return Ok(None);
    };
    let Some(domain) = read_domain(alloc, name)? else {
        return Ok(None);
    };
    let Some(clones) = read_count(number) else {
        return Ok(None);
    };
    Ok(Some(Setup {
        domain,
        clones,
        props: Vec::new(alloc),
    }))
}

/// The name of a domain.
pub fn read_domain(alloc: Global, text: &[u8]) -> Result<Option<Text>, AllocError>
    ensures { IfOk result (λ found. MatchOption found (¬ IsTrue (is_domain text.now))
        (λ domain. IsTrue (is_domain text.now) × (domain ≡ text.now))) }
{
    let Ok(text) = str::from_utf8(text) else {
        return Ok(None);
    };
    if !is_domain(text) {
        return Ok(None);
    }
    Ok(Some(Text::new(alloc, text)?))
}
