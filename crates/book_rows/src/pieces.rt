//! Pieces of a recording book, and of a log of many counts.

ghost use Rattle.std.specs.Prelude.{◌≡◌};

use edge_log::EdgeLog;
use fixtures::{Crew, hart, image_of, recorder};
use fragment_codec::Frame;
use ft_types::{Count, Counts, Guest, Memory};
use input_log::{InputLog, NoteLog};
use log_pieces::{Sealed, cut_logs, cut_pieces};
use page_book::{Book, Keep, Recording};
use std::alloc::Global;
use std::test::Fail;

/// lui x1, f0000; lw x2, 0(x1); sw x2, 8(x1), an output; sw x0, 20(x1), which halts.
static SAYS_ITS_WORD: &[u8] = b"harts 2\npages 1\nf00000b7\n0000a103\n0020a423\n0000aa23\n";

fn two_harts() -> Guest
    ensures { result.harts ≡ 2 }
{
    Guest::new([7; 32], 2).unwrap()
}

/// Cuts a book with the term 3, again where memory was refused, which must have sealed nothing.
fn cut(alloc: Global, book: &Book<Recording>, sealed: &mut Sealed) -> Result<Vec<Frame>, Fail> {
    let counts = book.counts();
    if counts.harts() != 2 || !sealed.is_within(&counts) {
        return Err("harts".into());
    }
    let guest = two_harts();
    match cut_pieces(alloc, book, &guest, 3, sealed) {
        Ok(frames) => Ok(frames),
        Err(Memory) => Ok(cut_pieces(alloc, book, &guest, 3, sealed)?),
    }
}

/// The book after one more lease of its second hart, of so many turns: each is a step, or a page that it lacks.
fn run_once(alloc: Global, book: Book<Recording>, turns: u32) -> Book<Recording> {
    let mut crew = Crew::new(book);
    let _lent = crew.lend(alloc, hart(1));
    let _steps = crew.go(hart(1), turns);
    let _settled = crew.settle(hart(1), Keep::All);
    crew.end()
}

/// A piece: hart, place, from, to and the number of records.
type Shape = (u8, u32, Count, Count, usize);

/// The one piece that these frames are. None, where they are something else.
fn shape(frames: &[Frame]) -> Option<Shape> {
    let [Frame::Log(piece)] = frames else {
        return None;
    };
    let key = piece.key();
    if key.term != 3 {
        return None;
    }
    Some((
        key.hart.number(),
        key.place,
        piece.from(),
        piece.to(),
        piece.records().len(),
    ))
}

/// Whether these frames are the one piece, and nothing more is to be cut of the book.
fn is_all(
    alloc: Global,
    book: &Book<Recording>,
    sealed: &mut Sealed,
    want: Shape,
) -> Result<bool, Fail> {
    let frames = cut(alloc, book, sealed)?;
    let more = cut(alloc, book, sealed)?;
    Ok(shape(&frames) == Some(want) && more.is_empty())
}

/// Whether the places at which the two harts' next pieces come are these.
fn are_next(sealed: &Sealed, first: u32, second: u32) -> bool {
    sealed.next_place(hart(0)) == Some(first) && sealed.next_place(hart(1)) == Some(second)
}

/// So many turns of the second hart, and the piece that then is to be cut: first one without records, then one that goes on where that one ended.
static TURNS: [(u32, Shape); 2] = [(2, (1, 0, 0, 1, 0)), (9, (1, 1, 1, 4, 0))];

#[test]
fn a_book_in_pieces(rt: HostRuntime) -> Result<(), Fail> {
    let mut sealed = Sealed::new(Counts::zero(2));
    let mut book = recorder(rt.alloc(), &image_of(rt.alloc(), SAYS_ITS_WORD)?, &[9, 9])?;
    let mut right = cut(rt.alloc(), &book, &mut sealed)?.is_empty();
    for (turns, want) in &TURNS {
        book = run_once(rt.alloc(), book, *turns);
        right = is_all(rt.alloc(), &book, &mut sealed, *want)? && right;
    }
    assert!(rt; right && are_next(&sealed, 0, 2));
    Ok(())
}

fn one_hart() -> Guest
    ensures { result.harts ≡ 1 }
{
    Guest::new([7; 32], 1).unwrap()
}

/// The frames of a hart that has no facts and is settled at a count.
fn plain_pieces(alloc: Global, settled: Count) -> Result<Vec<Frame>, Fail> {
    let (zero, guest) = (Counts::zero(1), one_hart());
    let Some(settled) = Counts::from_slice(&[settled]) else {
        return Err("a count".into());
    };
    let (edges, inputs) = (EdgeLog::new(alloc, zero), InputLog::new(alloc));
    let notes = NoteLog::new(alloc);
    let mut sealed = Sealed::new(zero);
    Ok(cut_logs(
        alloc,
        &edges,
        &inputs,
        &notes,
        &settled,
        &guest,
        1,
        &mut sealed,
    )?)
}

fn is_long(frame: &Frame, length: Count) -> bool {
    match frame {
        Frame::Log(piece) => piece.to().saturating_sub(piece.from()) == length,
        _ => false,
    }
}

/// Whether these frames are pieces of so many counts.
fn are_long(frames: &[Frame], lengths: &[Count]) -> bool {
    let mut rest = lengths;
    for frame in frames {
        match rest {
            [length, behind @ ..] if is_long(frame, *length) => rest = behind,
            _ => return false,
        }
    }
    rest.is_empty()
}

/// Whether the pieces of a hart that is settled at a count have so many counts.
fn have_lengths(alloc: Global, settled: Count, lengths: &[Count]) -> Result<bool, Fail> {
    Ok(are_long(&plain_pieces(alloc, settled)?, lengths))
}

/// Where a hart is settled, and how many counts each piece has. It ends behind as many as version 2 of frames tells of.
static PIECES: [(Count, &[Count]); 2] = [
    (4_294_967_295, &[4_294_967_295]),
    (8_589_934_592, &[4_294_967_295, 4_294_967_295, 2]),
];

#[test]
fn many_counts_in_pieces(rt: HostRuntime) -> Result<(), Fail> {
    let mut right = true;
    for (settled, lengths) in &PIECES {
        right = right && have_lengths(rt.alloc(), *settled, lengths)?;
    }
    assert!(rt; right);
    Ok(())
}
