//! Tests of what the writers ask for: that counts and lengths have four bytes. They count, and take no memory.
ghost use Rattle.std.specs.Prelude.{◌≡◌, ◌+◌, ◌≤◌, ◌^◌, ◌↔◌, length, IsTrue};
ghost use Rattle.mld_ops.specs.Messages.{snapshot_value, message_value};
ghost use Rattle.mld_ops.specs.PairLists.{rows_pairs};
ghost use Rattle.op_codec.specs.Stored.{IsShort, IsShortTriple, AreShortPairs, AreShortInserts, IsShortEntry, IsShortSnapshot, IsShortMessage};
ghost use Rattle.rdf_terms.specs.Grammar.{IsTripleWithin};
ghost use Rattle.rdf_terms.specs.Literal.{lexical_form, lexical_limit};
ghost use Rattle.rdf_terms.specs.declared.terms.Term.TheVariants as terms;
ghost use Rattle.rdf_terms.specs.declared.terms.Triple.{Triple};
ghost use Rattle.text_rules.specs.Escaped.{escaped, escaped_byte};

use mld_ops::{Entry, Message, PairList, PairRow, Snapshot, Tagged, row_ref};
use rdf_terms::{Literal, Term, Triple};
use tree_clock::{Clock, Path};

/// One more than the greatest number of four bytes.
const COUNT_LIMIT: usize = 4_294_967_296;

/// How many bytes are written for a byte of a lexical form.
fn escaped_count(byte: u8) -> usize
    ensures count { result ≡ length (escaped_byte byte) }
    ensures bounded { result ≤ 2 }
{
    match byte {
        b'"' => 2,
        b'\\' => 2,
        b'\n' => 2,
        b'\r' => 2,
        _ => 1,
    }
}

/// How many bytes are written for a lexical form between its quotes.
fn lexical_count(lexical: &[u8]) -> usize
    requires { length lexical.now ≤ lexical_limit }
    ensures { result ≡ length (escaped lexical.now) }
{
    let mut count = 0;
    for byte in lexical {
        count += escaped_count(*byte);
    }
    count
}

/// How many bytes are written for a triple but for the language tag of its object.
fn count_without_tag(triple: &Triple, literal: &Literal) -> usize
    requires within { IsTripleWithin triple.now }
    requires lexical { length (lexical_form literal.now) ≤ lexical_limit }
    ensures count { result
        ≡ length triple.now.s + length triple.now.p + length (escaped (lexical_form literal.now)) + 11 }
    ensures bounded { result ≤ 2 ^ 32 }
{
    let iris = triple.s.as_str().len() + triple.p.as_str().len();
    iris + lexical_count(literal.lexical().as_bytes()) + 11
}

/// Whether the written form of a triple of this literal has fewer than 2^32 bytes: it has, unless the language tag is long.
fn is_short_literal(triple: &Triple, literal: &Literal) -> bool
    requires within { IsTripleWithin triple.now }
    requires object { triple.now.o ≡ terms.Literal literal.now }
    ensures { IsTrue result ↔ IsShortTriple triple.now }
{
    match literal.language() {
        None => true,
        Some(tag) => tag.len() < COUNT_LIMIT - count_without_tag(triple, literal),
    }
}

/// Whether the written form of a triple has fewer than 2^32 bytes.
fn is_short_triple(triple: &Triple) -> bool
    ensures { IsTrue result ↔ IsShortTriple triple.now }
{
    triple.kept();
    match &triple.o {
        Term::Iri(_) => true,
        Term::Literal(literal) => is_short_literal(triple, literal),
    }
}

/// Whether a clock has fewer than 2^32 paths with ticks.
pub fn is_short_clock(clock: &Clock) -> bool
    ensures { IsTrue result ↔ IsShort clock.now.ticks }
{
    clock.has_fewer_than(COUNT_LIMIT)
}

/// Whether a list has fewer than 2^32 pairs, and the written form of each triple fewer than 2^32 bytes.
pub fn is_short_list(pairs: &[Tagged]) -> bool
    ensures { IsTrue result ↔ AreShortPairs pairs.now }
{
    if pairs.len() >= COUNT_LIMIT {
        return false;
    }
    for pair in pairs {
        if !is_short_triple(&pair.triple) {
            return false;
        }
    }
    true
}

/// Whether there are fewer than 2^32 rows, and the written form of each triple has fewer than 2^32 bytes.
fn are_short_rows(paths: &[Path], rows: &[PairRow]) -> bool
    ensures { IsTrue result ↔ AreShortPairs (rows_pairs paths.now rows.now) }
{
    if rows.len() >= COUNT_LIMIT {
        return false;
    }
    for row in rows {
        if !is_short_triple(row_ref(paths, row).triple) {
            return false;
        }
    }
    true
}

/// Whether a list has fewer than 2^32 pairs, and the written form of each triple fewer than 2^32 bytes, as `is_short_list`
/// tells of a plain one.
pub fn is_short_pairs(pairs: &PairList) -> bool
    ensures { IsTrue result ↔ AreShortPairs pairs.now }
{
    let (paths, rows) = pairs.parts();
    are_short_rows(paths, rows)
}

/// Whether a list has fewer than 2^32 inserts, and the written form of each triple fewer than 2^32 bytes.
fn are_short_inserts(inserts: &[(Triple, u32)]) -> bool
    ensures { IsTrue result ↔ AreShortInserts inserts.now }
{
    if inserts.len() >= COUNT_LIMIT {
        return false;
    }
    for (triple, _) in inserts {
        if !is_short_triple(triple) {
            return false;
        }
    }
    true
}

/// Whether the lists of an entry are such lists.
pub fn is_short_entry(entry: &Entry) -> bool
    ensures { IsTrue result ↔ IsShortEntry entry.now }
{
    is_short_clock(entry.time())
        && is_short_list(entry.deletes())
        && are_short_inserts(entry.inserts())
}

/// Whether the lists of a snapshot are such lists.
fn is_short_snapshot(snapshot: &Snapshot) -> bool
    ensures { IsTrue result ↔ IsShortSnapshot (snapshot_value snapshot.now) }
{
    is_short_clock(&snapshot.clock) && is_short_pairs(&snapshot.tagged)
}

/// Whether the lists of a message are such lists.
pub fn is_short_message(message: &Message) -> bool
    ensures { IsTrue result ↔ IsShortMessage (message_value message.now) }
{
    match message {
        Message::Range(entry) => is_short_entry(entry),
        Message::Want(clock) => is_short_clock(clock),
        Message::Snapshot(snapshot) => is_short_snapshot(snapshot),
        Message::JoinAsk(_) => true,
        Message::JoinGive(give) => is_short_snapshot(&give.give().snapshot),
    }
}
