//! Frames, and what a store holds, written as frames or as words.

ghost use Rattle.std.specs.Prelude.{◌≡◌, ◌⊎◌, ◌++◌, map, IfOk, IfErr};
ghost use Rattle.std.specs.List.{flat_map};
ghost use Rattle.ft_types.specs.Devices.{Writes};
ghost use Rattle.fragment_codec.specs.Streams.{spelling};
ghost use Rattle.log_join.specs.Stores.{opening_at, fragment_at};
ghost use Rattle.log_streams.specs.declared.faults.StreamsFault.TheVariants.{Write, Memory as NoMemory};
ghost use Rattle.log_streams.specs.Streams.{OfStreams};
ghost use Rattle.log_streams.specs.Writing.{WritesOne};
ghost use Rattle.log_streams.specs.Stores.{opening_bytes, fragment_bytes, openings_text, fragments_text, IsListOf, IsStoreText, IsSizeOf, size_line};
ghost use Rattle.log_streams.specs.Stores.{chain_line, position_head, position_line, IsCutText, IsCutOf, IsCutCause};

use crate::faults::StreamsFault;
use crate::lines::{write_counts_line, write_terms};
use crate::reading::read_store;
use closed_cut::{Position, chain, position};
use fragment_codec::{Frame, Key, write_frame};
use ft_types::{Failed, LineBuffer, Memory, Sink, Source, Term, write_all};
use guest_image::Image;
use log_join::{Found, Store};
use std::alloc::Global;

/// How many keys a store has, by what stands at them.
#[derive(Clone, Copy, PartialEq, Eq)]
pub struct StoreSize {
    /// Openings with one content.
    pub openings: usize,
    /// Fragments with one content.
    pub fragments: usize,
    /// Keys with several contents.
    pub clashes: usize,
}

/// The keys of a store at which one content stands, in the order in which they are written.
#[derive(Drop)]
pub struct StoreList {
    /// Of openings.
    pub terms: Vec<Term>,
    /// Of fragments.
    pub keys: Vec<Key>,
}

fn write_one<W: Sink>(frame: &Frame, out: &mut W) -> Result<(), StreamsFault>
    ensures { Writes result (W.bytes out.old) (W.bytes out.new) (W.failures out.old) (W.failures out.new) (spelling frame.now) }
{
    match write_frame(frame, out) {
        Ok(()) => Ok(()),
        Err(_) => Err(StreamsFault::Write),
    }
}

/// Writes frames, in their order.
pub fn write_frames<W: Sink>(frames: &[Frame], out: &mut W) -> Result<(), StreamsFault>
    ensures { Writes result (W.bytes out.old) (W.bytes out.new) (W.failures out.old) (W.failures out.new) (flat_map spelling frames.now) }
{
    for frame in frames {
        write_one(frame, out)?;
    }
    Ok(())
}

/// Writes the opening of the term, where it has one content.
fn write_opening<W: Sink>(store: &Store, term: Term, out: &mut W) -> Result<(), Failed>
    ensures { Writes result (W.bytes out.old) (W.bytes out.new) (W.failures out.old) (W.failures out.new) (opening_bytes (opening_at store.now term)) }
{
    match store.opening(term) {
        Found::Absent => Ok(()),
        Found::One(frame) => write_frame(frame, out),
        Found::Clash => Ok(()),
    }
}

/// Writes the fragment with the key, where it has one content.
fn write_fragment<W: Sink>(store: &Store, key: Key, out: &mut W) -> Result<(), Failed>
    ensures { Writes result (W.bytes out.old) (W.bytes out.new) (W.failures out.old) (W.failures out.new) (fragment_bytes (fragment_at store.now key)) }
{
    match store.get(key) {
        Found::Absent => Ok(()),
        Found::One(frame) => write_frame(frame, out),
        Found::Clash => Ok(()),
    }
}

fn write_openings<W: Sink>(store: &Store, terms: &[Term], out: &mut W) -> Result<(), Failed>
    ensures { Writes result (W.bytes out.old) (W.bytes out.new) (W.failures out.old) (W.failures out.new) (openings_text store.now terms.now) }
{
    for term in terms {
        write_opening(store, *term, out)?;
    }
    Ok(())
}

fn write_fragments<W: Sink>(store: &Store, keys: &[Key], out: &mut W) -> Result<(), Failed>
    ensures { Writes result (W.bytes out.old) (W.bytes out.new) (W.failures out.old) (W.failures out.new) (fragments_text store.now keys.now) }
{
    for key in keys {
        write_fragment(store, *key, out)?;
    }
    Ok(())
}

fn write_listed<W: Sink>(
    store: &Store,
    terms: &[Term],
    keys: &[Key],
    out: &mut W,
) -> Result<(), Failed>
    ensures { Writes result (W.bytes out.old) (W.bytes out.new) (W.failures out.old) (W.failures out.new) (openings_text store.now terms.now ++ fragments_text store.now keys.now) }
{
    write_openings(store, terms, out)?;
    write_fragments(store, keys, out)
}

/// Lists the keys of a store at which one content stands.
pub fn list_store(alloc: Global, store: &Store) -> Result<StoreList, Memory>
    ensures { IfOk result (λ list. IsListOf store.now list) }
{
    let terms = store.terms(alloc)?;
    let keys = store.keys(alloc)?;
    Ok(StoreList { terms, keys })
}

/// Writes the openings, then the fragments, of a store that was listed, each by rising key. It takes no memory.
pub fn write_list<W: Sink>(
    store: &Store,
    list: &StoreList,
    out: &mut W,
) -> Result<StoreSize, StreamsFault>
    requires { IsListOf store.now list.now }
    ensures written { WritesOne Write (IsStoreText store.now) result (W.bytes out.old) (W.bytes out.new) (W.failures out.old) (W.failures out.new) }
    ensures size { IfOk result (λ size. IsSizeOf store.now size) }
    ensures fault { IfErr result (λ fault. fault ≡ Write) }
{
    match write_listed(store, &list.terms, &list.keys, out) {
        Ok(()) => Ok(StoreSize {
            openings: list.terms.len(),
            fragments: list.keys.len(),
            clashes: store.clashes(),
        }),
        Err(_) => Err(StreamsFault::Write),
    }
}

/// Writes the openings, then the fragments, each by rising key. A key with several contents is passed over.
pub fn write_store<W: Sink>(
    alloc: Global,
    store: &Store,
    out: &mut W,
) -> Result<StoreSize, StreamsFault>
    ensures written { WritesOne Write (IsStoreText store.now) result (W.bytes out.old) (W.bytes out.new) (W.failures out.old) (W.failures out.new) }
    ensures size { IfOk result (λ size. IsSizeOf store.now size) }
    ensures fault { IfErr result (λ fault. (fault ≡ Write) ⊎ (fault ≡ NoMemory)) }
{
    let list = list_store(alloc, store)?;
    write_list(store, &list, out)
}

/// Writes how many keys a store has.
#[tactic(auto, unfolding(crate::specs::Stores::size_line))]
pub fn write_size<W: Sink>(size: &StoreSize, out: &mut W) -> Result<(), Failed>
    ensures { Writes result (W.bytes out.old) (W.bytes out.new) (W.failures out.old) (W.failures out.new) (size_line size.now) }
{
    let mut text = LineBuffer::new();
    text.push(b"openings ");
    text.push_number(size.openings as u64);
    text.push(b" fragments ");
    text.push_number(size.fragments as u64);
    text.push(b" clashes ");
    text.push_number(size.clashes as u64);
    text.write(out)
}

fn write_chain<W: Sink>(terms: &[Term], out: &mut W) -> Result<(), Failed>
    ensures { Writes result (W.bytes out.old) (W.bytes out.new) (W.failures out.old) (W.failures out.new) (chain_line terms.now) }
{
    write_all(out, b"chain")?;
    write_terms(terms, out)?;
    write_all(out, b"\n")
}

/// What stands before a position's counts.
#[tactic(auto, unfolding(crate::specs::Stores::position_head))]
fn head_of(position: &Position) -> LineBuffer
    ensures { result ≡ position_head position.now }
{
    let mut head = LineBuffer::new();
    head.push(b"position term ");
    head.push_number(u64::from(position.term));
    head.push(b" top ");
    head.push_number(u64::from(position.top));
    head.push(b" counts");
    head
}

fn write_counted<W: Sink>(position: &Position, out: &mut W) -> Result<(), Failed>
    ensures { Writes result (W.bytes out.old) (W.bytes out.new) (W.failures out.old) (W.failures out.new) (position_line position.now) }
{
    let head = head_of(position);
    write_counts_line(head.as_slice(), position.counts.as_slice(), out)
}

/// Writes the terms of a chain and a position.
fn write_position<W: Sink>(terms: &[Term], position: &Position, out: &mut W) -> Result<(), Failed>
    ensures { Writes result (W.bytes out.old) (W.bytes out.new) (W.failures out.old) (W.failures out.new) (chain_line terms.now ++ position_line position.now) }
{
    write_chain(terms, out)?;
    write_counted(position, out)
}

/// Writes the chain and the position of a store.
fn write_cut<W: Sink>(alloc: Global, store: &Store, out: &mut W) -> Result<(), StreamsFault>
    ensures written { WritesOne Write (IsCutText store.now) result (W.bytes out.old) (W.bytes out.new) (W.failures out.old) (W.failures out.new) }
    ensures fault { IfErr result (λ fault. (fault ≡ Write) ⊎ (fault ≡ NoMemory)) }
{
    let terms = chain(alloc, store)?;
    let position = position(alloc, store)?;
    match write_position(&terms, &position, out) {
        Ok(()) => Ok(()),
        Err(_) => Err(StreamsFault::Write),
    }
}

/// Writes the chain and the position of the frames of the streams.
pub fn cut_streams<R: Source, W: Sink>(
    alloc: Global,
    image: &Image,
    readers: &mut [R],
    out: &mut W,
) -> Result<(), StreamsFault>
    // Nothing is written before all streams are read, and then the chain and the position of the join of their frames.
    ensures written { OfStreams (map R.left readers.old) (λ streams. WritesOne Write (IsCutOf image.now streams) result (W.bytes out.old) (W.bytes out.new) (W.failures out.old) (W.failures out.new)) }
    // A fault is the first one of the streams, or that of memory or the writer.
    ensures fault { IfErr result (λ fault. OfStreams (map R.left readers.old) (λ streams. IsCutCause image.now streams fault)) }
{
    let store = read_store(alloc, &image.guest(), readers)?;
    write_cut(alloc, &store, out)
}
