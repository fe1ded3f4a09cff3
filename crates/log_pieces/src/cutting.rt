//! Cuts the logs of a guest's harts into pieces.

ghost use Rattle.std.specs.Prelude.{◌≡◌, ℕ, ◌≤◌, ◌<◌, length, filter, nat_lt, nat_le, IfOk, OnOk, OnErr};
ghost use Rattle.ft_types.specs.Counts.{IsWithin, count_at};
ghost use Rattle.fragment_codec.specs.Rules.{count_of, AreInOrder, IsFragment};
ghost use Rattle.log_pieces.specs.Pieces.{AreEdgesOf, AreInputsOf, IsCut, hart_log, book_log, mark_of};
ghost use Rattle.page_book.specs.machinery.Words.{counts_of};
ghost use Rattle.log_pieces.specs.machinery.Cutting.{MayCut, CutsHart, end_of, log_of_records};

use crate::merging::records_between;
use crate::sealed::Sealed;
use edge_log::EdgeLog;
use fragment_codec::{Fragment, Frame, Key, RECORD_LIMIT, Record, SPAN_LIMIT};
use ft_types::{COUNT_LIMIT, Count, Counts, Guest, Hart, Memory, Term};
use input_log::{InputLog, NoteLog};
use page_book::{Book, Recording};
use std::alloc::Global;

/// Whose pieces are cut, and up to which count.
#[derive(Clone, Copy)]
struct Origin {
    guest: Guest,
    term: Term,
    hart: Hart,
    settled: Count,
}

/// Where the piece ends that begins at a count with these records: at the first one that it has no room for, and behind as many
/// counts as a fragment tells of.
fn end_of_piece(records: &[Record], from: Count, settled: Count) -> Count
    requires { from < COUNT_LIMIT }
    ensures { result ≡ end_of records.now from settled }
{
    let end = match records.get(RECORD_LIMIT) {
        Some(record) => record.count(),
        None => settled,
    };
    end.min(from + (SPAN_LIMIT - 1))
}

/// The records below a count, and the others.
fn split_below(records: &[Record], end: Count) -> (&[Record], &[Record])
    requires { AreInOrder records.now }
    ensures below { result.0.now ≡ filter (λ fact. nat_lt (count_of fact) end) records.now }
    ensures behind { result.1.now ≡ filter (λ fact. nat_le end (count_of fact)) records.now }
{
    records.split_at(records.partition_point(|fact| fact.count() < end))
}

/// A piece of these records, which keep the rules.
fn piece_of(
    alloc: Global,
    origin: &Origin,
    place: u32,
    from: Count,
    to: Count,
    records: &[Record],
) -> Result<Fragment, Memory>
    requires { IsFragment (record {
      guest = origin.now.guest;
      key = record { term = origin.now.term; hart = origin.now.hart; place = place };
      from = from;
      to = to;
      records = records.now;
    }) }
    ensures { IfOk result (λ f. f ≡ record {
      guest = origin.now.guest;
      key = record { term = origin.now.term; hart = origin.now.hart; place = place };
      from = from;
      to = to;
      records = records.now;
    }) }
{
    let key = Key {
        term: origin.term,
        hart: origin.hart,
        place,
    };
    let records = Vec::from_slice(alloc, records)?;
    Ok(Fragment::new(origin.guest, key, from, to, records).unwrap())
}

/// Cuts the records of one hart.
fn cut_hart(
    alloc: Global,
    origin: &Origin,
    records: &[Record],
    sealed: &mut Sealed,
    frames: &mut Vec<Frame>,
) -> Result<(), Memory>
    requires there { origin.now.hart < length sealed.old.reached }
    requires may { MayCut origin.now records.now (mark_of sealed.old origin.now.hart) }
    ensures { OnOk result (CutsHart (log_of_records origin.now records.now) sealed.old frames.old.items sealed.new frames.new.items) }
{
    let mut rest = records;
    let mut from = sealed.reached(origin.hart);
    while from < origin.settled {
        let Some(place) = sealed.next_place(origin.hart) else {
            break;
        };
        let to = end_of_piece(rest, from, origin.settled);
        let (part, later) = split_below(rest, to);
        let piece = piece_of(alloc, origin, place, from, to, part)?;
        frames.push(Frame::Log(piece))?;
        sealed.advance(origin.hart, to);
        (from, rest) = (to, later);
    }
    Ok(())
}

/// Cuts what the logs say from the sealed counts to the settled ones into pieces, and seals it. Where memory is refused
/// nothing is cut, and `sealed` is as it was.
pub fn cut_logs(
    alloc: Global,
    edges: &EdgeLog,
    inputs: &InputLog,
    notes: &NoteLog,
    settled: &Counts,
    guest: &Guest,
    term: Term,
    sealed: &mut Sealed,
) -> Result<Vec<Frame>, Memory>
    requires granted { 1 ≤ term }
    requires settled_harts { length settled.now ≡ guest.now.harts }
    requires sealed_harts { length sealed.old.reached ≡ guest.now.harts }
    requires within { IsWithin sealed.old.reached settled.now }
    requires edges { AreEdgesOf guest.now.harts edges.now }
    requires inputs { AreInputsOf guest.now.harts inputs.now }
    ensures cut { IfOk result (λ frames. IsCut (hart_log guest.now term edges.now inputs.now notes.now settled.now) guest.now.harts sealed.old frames.items sealed.new) }
    ensures kept { OnErr result (sealed.new ≡ sealed.old) }
{
    let mut frames = Vec::new(alloc);
    let mut next = *sealed;
    for number in 0..guest.harts() {
        let hart = Hart::new(number);
        let origin = Origin {
            guest: *guest,
            term,
            hart,
            settled: settled.get(hart),
        };
        let from = next.reached(hart);
        let records = records_between(alloc, edges, inputs, notes, hart, from, origin.settled)?;
        cut_hart(alloc, &origin, &records, &mut next, &mut frames)?;
    }
    *sealed = next;
    Ok(frames)
}

/// Cuts what a recording book's log says from the sealed counts to the settled ones into pieces of this term, and seals it:
/// each hart in order, as long as it has places. Where memory is refused nothing is cut, and `sealed` is as it was.
pub fn cut_pieces(
    alloc: Global,
    book: &Book<Recording>,
    guest: &Guest,
    term: Term,
    sealed: &mut Sealed,
) -> Result<Vec<Frame>, Memory>
    requires granted { 1 ≤ term }
    requires book_harts { length book.now.machine.harts ≡ guest.now.harts }
    requires sealed_harts { length sealed.old.reached ≡ guest.now.harts }
    requires within { (hart : ℕ) → count_at sealed.old.reached hart ≤ counts_of book.now.machine hart }
    ensures cut { IfOk result (λ frames. IsCut (book_log guest.now term book.now) guest.now.harts sealed.old frames.items sealed.new) }
    ensures kept { OnErr result (sealed.new ≡ sealed.old) }
{
    let settled = book.counts();
    cut_logs(
        alloc,
        book.edges(),
        book.inputs(),
        book.notes(),
        &settled,
        guest,
        term,
        sealed,
    )
}
