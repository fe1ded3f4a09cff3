//! A piece of a hart's log, and the opening of a term.

ghost use Rattle.std.specs.Prelude.{◌+◌, ◌-◌, nat_lt, ◌≡◌, ◌↔◌, ℕ, suc, ◌<◌, ◌≤◌, Option, Some, None, length, List, All, IsTrue, IsSome, IfSome, IfOk};
ghost use Rattle.ft_types.specs.declared.names.TheConstants.{HART_LIMIT};
ghost use Rattle.fragment_codec.specs.Rules.{IsKey, AreRecords, FragmentParts, OpeningParts, IsFragment, IsOpening, has_note};
ghost use Rattle.fragment_codec.specs.machinery.Slots.{is_source, note_slot, said_after, slot_after};

use crate::types::{FIRST_HARTS, Key, RECORD_LIMIT, Record, SPAN_LIMIT};
use ft_types::{COUNT_LIMIT, Count, Counts, Guest, HART_LIMIT, Hart, INPUT_LIMIT, Memory, Term};
use input_log::Input;
use std::alloc::Global;
use std::marker::Model;

/// What happened to a hart from one count to a later one.
pub struct Fragment {
    guest: Guest,
    key: Key,
    from: Count,
    to: Count,
    records: Vec<Record>,
}

impl Drop for Fragment {
    fn drop(self) {
        let Fragment {
            guest: _,
            key: _,
            from: _,
            to: _,
            records: _,
        } = self;
    }
}

impl Model for Fragment {
    ghost use Rattle.fragment_codec.specs.Rules.{FragmentParts, IsFragment};

    ghost Value = { FragmentParts };

    ghost view = { λ a. record { guest = a.guest; key = a.key; from = a.from; to = a.to; records = a.records.items } };

    ghost invariant = { λ a. IsFragment (record { guest = a.guest; key = a.key; from = a.from; to = a.to; records = a.records.items }) };
}

/// How a term begins: with which counts of which earlier term.
pub struct Opening {
    guest: Guest,
    term: Term,
    parent: Term,
    base: Counts,
}

impl Drop for Opening {
    fn drop(self) {
        let Opening {
            guest: _,
            term: _,
            parent: _,
            base: _,
        } = self;
    }
}

impl Model for Opening {
    ghost use Rattle.fragment_codec.specs.Rules.{OpeningParts, IsOpening};

    ghost Value = { OpeningParts };

    ghost view = { λ a. record { guest = a.guest; term = a.term; parent = a.parent; base = a.base } };

    ghost invariant = { λ a. IsOpening (record { guest = a.guest; term = a.term; parent = a.parent; base = a.base }) };
}

/// A frame of a log.
#[derive(Drop)]
pub enum Frame {
    /// A piece of a hart's log.
    Log(Fragment),
    /// The opening of a term.
    Opening(Opening),
}

fn is_key(harts: u8, key: &Key) -> bool
    ensures { IsTrue result ↔ IsKey harts key.now }
{
    // proof: a place has 32 bits.
    let _place = key.place;
    key.hart.number() < harts && 1 <= key.term
}

fn keeps_source(harts: u8, input: Input) -> bool
    ensures { result ≡ is_source harts input }
{
    match input {
        Input::Timer | Input::Word(_) => true,
        Input::Bell(source) => source.number() < harts,
    }
}

/// The slot of a note at its count: one for each hart's edge stands before it, and one for each input.
const NOTE_SLOT: u8 = HART_LIMIT + INPUT_LIMIT as u8;

/// The slot behind a record, where it keeps the rules, and the number that was noted last is this one.
#[tactic(auto, unfolding(crate::specs::machinery::Slots::slot_after))]
fn next_slot(
    harts: u8,
    hart: Hart,
    to: Count,
    at: Count,
    slot: u8,
    said: u64,
    fact: &Record,
) -> Option<u8>
    requires { slot ≤ suc note_slot }
    ensures slot { result ≡ slot_after harts hart to at slot said fact.now }
{
    match fact {
        Record::Edge(edge) => {
            let free = if at == edge.at { slot } else { 0 };
            if at <= edge.at
                && edge.at < to
                && edge.hart == hart
                && edge.other.number() < harts
                && edge.other != hart
                && 0 < edge.after
                && edge.after < COUNT_LIMIT
                && free <= edge.other.number()
            {
                Some(edge.other.number() + 1)
            } else {
                None
            }
        }
        Record::Input(count, input) => {
            let free = if at == *count { slot } else { 0 };
            let place = free.max(HART_LIMIT);
            if at <= *count && *count < to && keeps_source(harts, *input) && place < NOTE_SLOT {
                Some(place + 1)
            } else {
                None
            }
        }
        Record::Note(count, number) => {
            let free = if at == *count { slot } else { 0 };
            if at <= *count
                && *count < to
                && said < *number
                && *number <= *count
                && free <= NOTE_SLOT
            {
                Some(NOTE_SLOT + 1)
            } else {
                None
            }
        }
    }
}

/// The number that was noted last, where this one was before the record.
fn said_after(said: u64, fact: &Record) -> u64
    ensures { result ≡ said_after said fact.now }
{
    match fact {
        Record::Edge(_) | Record::Input(_, _) => said,
        Record::Note(_, number) => *number,
    }
}

/// Whether one of the records is a note.
fn has_note(records: &[Record]) -> bool
    ensures { result ≡ has_note records.now }
{
    for record in records {
        if let Record::Note(_, _) = record {
            return true;
        }
    }
    false
}

#[tactic(auto, unfolding(crate::specs::machinery::Slots::are_right))]
fn are_records(records: &[Record], harts: u8, hart: Hart, from: Count, to: Count) -> bool
    requires { harts ≤ HART_LIMIT }
    ensures { IsTrue result ↔ AreRecords harts hart from to records.now }
{
    if records.len() > RECORD_LIMIT {
        return false;
    }
    let mut at = from;
    let mut slot = 0;
    let mut said = 0;
    for record in records {
        match next_slot(harts, hart, to, at, slot, said, record) {
            None => return false,
            Some(next) => {
                at = record.count();
                slot = next;
                said = said_after(said, record);
            }
        }
    }
    true
}

fn are_zero(base: &[Count]) -> bool
    ensures { IsTrue result ↔ All (λ n. n ≡ 0) base.now }
{
    base.iter().all(|count| *count == 0)
}

/// Whether these are so few counts that the second version can tell of them in one fragment.
pub(crate) fn is_short(from: Count, to: Count) -> bool
    ensures value { result ≡ nat_lt (to - from) SPAN_LIMIT }
    ensures exact { IsTrue result ↔ (to - from < SPAN_LIMIT) }
{
    to.saturating_sub(from) < SPAN_LIMIT
}

fn is_fragment(guest: &Guest, key: &Key, from: Count, to: Count, records: &[Record]) -> bool
    ensures { let parts : FragmentParts = record { guest = guest.now; key = key.now; from = from; to = to; records = records.now } in
        IsTrue result ↔ IsFragment parts }
{
    let harts = guest.harts();
    is_key(harts, key)
        && from < to
        && to < COUNT_LIMIT
        && (is_short(from, to) || (harts <= FIRST_HARTS && !has_note(records)))
        && are_records(records, harts, key.hart, from, to)
}

fn is_opening(guest: &Guest, term: Term, parent: Term, base: Counts) -> bool
    ensures { let parts : OpeningParts = record { guest = guest.now; term = term; parent = parent; base = base } in
        IsTrue result ↔ IsOpening parts }
{
    base.harts() == guest.harts()
        && 1 <= term
        && parent < term
        && (parent != 0 || are_zero(base.as_slice()))
}

impl Fragment {
    /// The fragment of these parts, or `None` exactly where they break a rule.
    pub fn new(guest: Guest, key: Key, from: Count, to: Count, records: Vec<Record>) -> Option<Self>
        ensures exact { let parts : FragmentParts = record { guest = guest; key = key; from = from; to = to; records = records.items } in
            IsSome result ↔ IsFragment parts }
        ensures parts { IfSome result (λ f. f ≡ record { guest = guest; key = key; from = from; to = to; records = records.items }) }
    {
        if is_fragment(&guest, &key, from, to, &records) {
            Some(Fragment {
                guest,
                key,
                from,
                to,
                records,
            })
        } else {
            None
        }
    }

    /// An equal fragment.
    pub fn copy(&self, alloc: Global) -> Result<Fragment, Memory>
        ensures { IfOk result (λ f. f ≡ self.now) }
    {
        let Fragment {
            guest,
            key,
            from,
            to,
            records,
        } = self;
        let mut copies = Vec::with_capacity(alloc, records.len())?;
        copies.extend_from_slice(records)?;
        Ok(Fragment {
            guest: *guest,
            key: *key,
            from: *from,
            to: *to,
            records: copies,
        })
    }

    /// The guest whose log it is of.
    pub fn guest(&self) -> Guest
        ensures { result ≡ self.now.guest }
    {
        self.guest
    }

    /// Which fragment it is.
    pub fn key(&self) -> Key
        ensures { result ≡ self.now.key }
    {
        self.key
    }

    /// The count at which it begins.
    pub fn from(&self) -> Count
        ensures { result ≡ self.now.from }
    {
        self.from
    }

    /// The count up to which it goes.
    pub fn to(&self) -> Count
        ensures { result ≡ self.now.to }
    {
        self.to
    }

    /// The records, in their order.
    pub fn records(&self) -> &[Record]
        ensures records { result.now ≡ self.now.records }
        ensures rules { IsFragment self.now }
    {
        &self.records
    }
}

impl Opening {
    /// The opening of these parts, or `None` exactly where they break a rule.
    pub fn new(guest: Guest, term: Term, parent: Term, base: Counts) -> Option<Self>
        ensures exact { let parts : OpeningParts = record { guest = guest; term = term; parent = parent; base = base } in
            IsSome result ↔ IsOpening parts }
        ensures parts { IfSome result (λ o. o ≡ record { guest = guest; term = term; parent = parent; base = base }) }
    {
        if is_opening(&guest, term, parent, base) {
            Some(Opening {
                guest,
                term,
                parent,
                base,
            })
        } else {
            None
        }
    }

    /// An equal opening.
    pub fn copy(&self) -> Opening
        ensures { result ≡ self.now }
    {
        let Opening {
            guest,
            term,
            parent,
            base,
        } = self;
        Opening {
            guest: *guest,
            term: *term,
            parent: *parent,
            base: *base,
        }
    }

    /// The guest whose term it opens.
    pub fn guest(&self) -> Guest
        ensures { result ≡ self.now.guest }
    {
        self.guest
    }

    /// The term that it opens.
    pub fn term(&self) -> Term
        ensures { result ≡ self.now.term }
    {
        self.term
    }

    /// The term from which it goes on: 0 for boot.
    pub fn parent(&self) -> Term
        ensures { result ≡ self.now.parent }
    {
        self.parent
    }

    /// The counts at which the parent is left.
    pub fn base(&self) -> Counts
        ensures base { result ≡ self.now.base }
        ensures rules { IsOpening self.now }
    {
        self.base
    }
}

impl Frame {
    /// An equal frame.
    pub fn copy(&self, alloc: Global) -> Result<Frame, Memory>
        ensures { IfOk result (λ f. f ≡ self.now) }
    {
        match self {
            Frame::Log(fragment) => Ok(Frame::Log(fragment.copy(alloc)?)),
            Frame::Opening(opening) => Ok(Frame::Opening(opening.copy())),
        }
    }
}
