//! Heads and records as they are written.
ghost use Rattle.std.specs.Prelude.{◌≡◌, ◌++◌, ◌∷◌, [], All, IsTrue, OnOk, IfOk};
ghost use Rattle.std.specs.List.{AllByRecursion};
ghost use Rattle.text_rules.specs.Domain.{is_domain};
ghost use Rattle.text_rules.specs.Iri.{is_absolute};
ghost use Rattle.mld_bytes.specs.Bytes.{piece_bytes};
ghost use Rattle.mld_ops.specs.Messages.{IsGoodSnapshot};
ghost use Rattle.op_codec.specs.MessageBytes.{snapshot_bytes};
ghost use Rattle.op_codec.specs.Paths.{path_bytes};
ghost use Rattle.op_codec.specs.Stored.{IsShort, IsShortEntry, IsShortSnapshot, IsId, IsPath, IsSnapshot, IsStoredEntry};
ghost use Rattle.journal_sides.specs.Format.{open_gate, closed_gate};
ghost use Rattle.journal_sides.specs.Heads.{head_value, props_bytes, head_bytes};
ghost use Rattle.journal_sides.specs.RecordBytes.{EntryRecord, record_bytes, blocks};
ghost use Rattle.journal_sides.specs.SideReadings.{volume_bytes};
ghost use Rattle.journal_sides.specs.StoredVolumes.{IsGoodHead, AreGoodEntries, IsText, IsStoredHead, IsVolume};
ghost use Rattle.journal_sides.specs.WrittenRecords.{entry_records, volume_of};

use crate::head_reading::HEAD_MARK;
use crate::heads::Head;
use crate::record_reading::{ENTRY_KIND, FORK_KIND, OPEN_GATE};
use mld_bytes::{put_bytes, put_u8, put_u32, put_u64};
use mld_ops::{Entry, PairList};
use op_codec::{append_path, write_clock, write_entry, write_tagged};
use rdf_terms::Iri;
use std::alloc::{AllocError, Global};
use text_rules::Text;
use tree_clock::{Clock, Path};
use uuid::Uuid;

/// A closed gate.
const CLOSED_GATE: u8 = 0;

/// The record of a fork with the closed gate behind it.
pub const FORK_BODY: [u8; 2] = [FORK_KIND, CLOSED_GATE];

/// Appends the text of an IRI behind its length.
fn append_iri(out: &mut Vec<u8>, iri: &Iri) -> Result<(), AllocError>
    ensures ok { OnOk result (out.new.items ≡ out.old.items ++ piece_bytes iri.now) }
    ensures stored { IsText is_absolute iri.now }
{
    put_bytes(out, iri.as_str().as_bytes())
}

/// Appends single-valued properties.
fn append_props(out: &mut Vec<u8>, props: &[Iri]) -> Result<(), AllocError>
    requires { IsShort props.now }
    ensures ok { OnOk result (out.new.items ≡ out.old.items ++ props_bytes props.now) }
    ensures stored { OnOk result (AllByRecursion (IsText is_absolute) props.now) }
{
    put_u32(out, props.len() as u32)?;
    for iri in props {
        append_iri(out, iri)?;
    }
    Ok(())
}

/// Appends the name of a domain.
fn append_domain(out: &mut Vec<u8>, domain: &Text) -> Result<(), AllocError>
    requires { IsTrue (is_domain domain.now) }
    ensures ok { OnOk result (out.new.items ≡ out.old.items ++ piece_bytes domain.now) }
    ensures stored { IsText is_domain domain.now }
{
    put_bytes(out, domain.as_str().as_bytes())
}

/// Appends the id of a clone.
fn append_own_id(out: &mut Vec<u8>, id: &Uuid) -> Result<(), AllocError>
    ensures ok { OnOk result (out.new.items ≡ out.old.items ++ id.now) }
    ensures stored { IsId id.now }
{
    let bytes = id.into_bytes();
    out.extend_from_slice(&bytes)
}

/// Appends a path.
fn append_own_path(out: &mut Vec<u8>, path: &Path) -> Result<(), AllocError>
    ensures ok { OnOk result (out.new.items ≡ out.old.items ++ path_bytes path.now) }
    ensures stored { IsPath path.now }
{
    let _count = path.len();
    append_path(out, path)
}

/// Appends the base of a head.
fn append_base(out: &mut Vec<u8>, base: &Clock, tagged: &PairList) -> Result<(), AllocError>
    requires good { IsGoodSnapshot (record { ticks = base.now.ticks; pairs = tagged.now }) }
    requires short { IsShortSnapshot (record { ticks = base.now.ticks; pairs = tagged.now }) }
    ensures ok { OnOk result
        (out.new.items ≡ out.old.items ++ snapshot_bytes (record { ticks = base.now.ticks; pairs = tagged.now })) }
    ensures stored { OnOk result (IsSnapshot (record { ticks = base.now.ticks; pairs = tagged.now })) }
{
    write_clock(out, base)?;
    write_tagged(out, tagged)
}

/// Appends a head with its generation.
fn append_head(out: &mut Vec<u8>, generation: u64, head: &Head) -> Result<(), AllocError>
    requires { IsGoodHead (head_value head.now) }
    ensures ok { OnOk result
        (out.new.items ≡ out.old.items ++ head_bytes (record { generation = generation; head = head_value head.now })) }
    ensures stored { OnOk result (IsStoredHead (head_value head.now)) }
{
    out.extend_from_slice(HEAD_MARK)?;
    put_u64(out, generation)?;
    append_own_id(out, &head.id)?;
    append_domain(out, &head.domain)?;
    append_props(out, &head.props)?;
    append_own_path(out, &head.path)?;
    append_base(out, &head.base, &head.tagged)
}

/// Appends the record of an entry.
#[tactic(auto, unfolding(crate::specs::RecordBytes::record_bytes))]
fn append_record(out: &mut Vec<u8>, entry: &Entry) -> Result<(), AllocError>
    requires { IsShortEntry entry.now }
    ensures ok { OnOk result (out.new.items ≡ out.old.items ++ record_bytes (EntryRecord entry.now)) }
    ensures stored { OnOk result (IsStoredEntry entry.now) }
{
    put_u8(out, ENTRY_KIND)?;
    write_entry(out, entry)
}

/// Appends the records of entries, each behind its open gate.
fn append_blocks(out: &mut Vec<u8>, entries: &[Entry]) -> Result<(), AllocError>
    requires { All IsShortEntry entries.now }
    ensures ok { OnOk result (out.new.items ≡ out.old.items ++ blocks (entry_records entries.now)) }
    ensures stored { OnOk result (AllByRecursion IsStoredEntry entries.now) }
{
    for entry in entries {
        put_u8(out, OPEN_GATE)?;
        append_record(out, entry)?;
    }
    Ok(())
}

/// Puts the record of an entry, with the closed gate behind it, in place of what a buffer holds. The room that the buffer has
/// is kept.
pub fn fill_entry_body(body: &mut Vec<u8>, entry: &Entry) -> Result<(), AllocError>
    requires { IsShortEntry entry.now }
    ensures ok { OnOk result (body.new.items ≡ record_bytes (EntryRecord entry.now) ++ closed_gate ∷ []) }
    ensures stored { OnOk result (IsStoredEntry entry.now) }
{
    body.clear();
    append_record(body, entry)?;
    put_u8(body, CLOSED_GATE)
}

/// What stands behind the first gate of a side that has a head and entries, with the closed gate behind it.
pub fn side_body(
    alloc: Global,
    generation: u64,
    head: &Head,
    entries: &[Entry],
) -> Result<Vec<u8>, AllocError>
    requires head { IsGoodHead (head_value head.now) }
    requires entries { AreGoodEntries (head_value head.now).base.ticks entries.now }
    ensures ok { IfOk result (λ body. open_gate ∷ body.items
        ≡ volume_bytes (volume_of generation (head_value head.now) entries.now) ++ closed_gate ∷ []) }
    ensures stored { OnOk result (IsVolume (volume_of generation (head_value head.now) entries.now)) }
{
    let mut body = Vec::new(alloc);
    append_head(&mut body, generation, head)?;
    append_blocks(&mut body, entries)?;
    put_u8(&mut body, CLOSED_GATE)?;
    Ok(body)
}
