//! The calls of the board.
ghost use Rattle.std.specs.Prelude.{◌≡◌, ◌≢◌, ℕ, ◌+◌, ◌*◌, ◌<◌, ◌≤◌, ◌⊎◌, [], ◌∷◌, ◌++◌, length, replicate, slice_index, slice_index_or, IfOk, IfErr};
ghost use Rattle.ack_core.specs.Lists.{last_count, Rises, StartsWith, IsZeroOrIn};
ghost use Rattle.ack_core.specs.Rule.{known_at};
ghost use Rattle.ack_core.specs.Seats.{term_of, harts_of, keepers_of, keeper_of, published, heard, last_counts, width_of, seen, IsKeeperOf, IsGateOf, IsSameKeeper, IsSameGate};
ghost use Rattle.ack_core.specs.Seats.{IsDealt, Refuses, Publishes};

use crate::board::{AckFault, Board};
use crate::rule::{Check, Deal, Publish, Rule, See, TakeIn, Tell};
use crate::seats::{GateSeat, KeeperSeat};
use crate::view::{Size, View};
use atomic_table::{Seat, Table};
use ft_types::{Count, Counts, HART_LIMIT, Hart, KEEPER_LIMIT, Keeper, Memory, Position, Term};
use std::alloc::Global;
use std::result::Result;

/// The number of words that a board has at the most.
const WORD_LIMIT: usize = KEEPER_LIMIT as usize * HART_LIMIT as usize;

/// Each word of a new board.
fn no_counts() -> [u64; WORD_LIMIT]
    ensures { result ≡ replicate (KEEPER_LIMIT * HART_LIMIT) 0 }
{
    [0; WORD_LIMIT]
}

impl KeeperSeat {
    /// What it published last for each hart, or 0.
    pub fn last(&self) -> Counts
        ensures value { result ≡ last_counts self.now }
        ensures harts { length (last_counts self.now) ≡ width_of self.now }
        ensures published { (h : ℕ) → h < width_of self.now → slice_index (last_counts self.now) h ≡ last_count (published self.now h) }
    {
        self.last
    }
}

impl Board {
    /// A board of one term, on which each count is 0, with the seats of its keepers in order and a gate's seat.
    pub fn new(
        alloc: Global,
        term: Term,
        harts: u8,
        keepers: u8,
    ) -> Result<(Board, Vec<KeeperSeat>, GateSeat), Memory>
        requires harts { (0 < harts) × (harts ≤ HART_LIMIT) }
        requires keepers { (0 < keepers) × (keepers ≤ KEEPER_LIMIT) }
        ensures board { IfOk result (λ r. (term_of r.0 ≡ term) × (harts_of r.0 ≡ harts) × (keepers_of r.0 ≡ keepers)) }
        ensures seats { IfOk result (λ r. length r.1.items ≡ keepers) }
        ensures keepers { IfOk result (λ r. (k : ℕ) (d : KeeperSeat) → k < keepers → IsDealt r.0 (slice_index_or r.1.items k d) k) }
        ensures gate { IfOk result (λ r. IsGateOf r.0 r.2 × ((k h : ℕ) → heard r.2 k h ≡ [])) }
    {
        let zeros = no_counts();
        let size = Size {
            harts: harts as u64,
            keepers: keepers as u64,
        };
        let words = &zeros[..keepers as usize * harts as usize];
        let (table, mut rest) = Table::<(), View, Size, Rule, Global>::of_words(
            alloc, words, &size,
        )?;
        let mut seats = Vec::new(alloc);
        for keeper in 0..keepers {
            let seat = table.shared.split_seat::<Deal>(&mut rest);
            seats.push(KeeperSeat {
                seat,
                keeper: Keeper::new(keeper),
                harts,
                keepers,
                last: Counts::zero(harts),
            })?;
        }
        let board = Board {
            table,
            term,
            harts,
            keepers,
        };
        let gate = GateSeat {
            seat: rest,
            harts,
            keepers,
        };
        Ok((board, seats, gate))
    }

    /// The word of a keeper and a hart.
    fn word(&self, keeper: Keeper, hart: Hart) -> usize
        ensures { result ≡ keeper * harts_of self.now + hart }
    {
        keeper.index() * self.harts as usize + hart.index()
    }

    /// Raises the keeper's words, from the first of them, to the counts: each count is added to the list of its word.
    fn raise(&self, seat: &mut Seat<(), View>, first: usize, counts: &[Count])
        requires seat { (seat.old.table_id ≡ self.now.table.shared.table_id) × (length seat.old.me.0.known ≡ keepers_of self.now * harts_of self.now) }
        requires own { (seat.old.me.0.from ≡ first) × (seat.old.me.0.upto ≡ first + harts_of self.now)
            × (first + harts_of self.now ≤ keepers_of self.now * harts_of self.now) }
        requires row { length counts.now ≡ harts_of self.now }
        requires high { (h : ℕ) → h < harts_of self.now → last_count (known_at seat.old.me.0 (first + h)) ≤ slice_index counts.now h }
        ensures same { (seat.new.table_id ≡ seat.old.table_id) × (length seat.new.me.0.known ≡ length seat.old.me.0.known)
            × (seat.new.me.0.from ≡ seat.old.me.0.from) × (seat.new.me.0.upto ≡ seat.old.me.0.upto) }
        ensures added { (h : ℕ) → h < harts_of self.now →
            known_at seat.new.me.0 (first + h) ≡ known_at seat.old.me.0 (first + h) ++ slice_index counts.now h ∷ [] }
    {
        for hart in 0..self.harts as usize {
            self.table
                .shared
                .fetch_max::<Publish>(seat, first + hart, counts[hart]);
        }
    }

    /// Publishes a position: a count for each hart. Where it is refused, the seat has published no more.
    pub fn publish(&self, seat: &mut KeeperSeat, position: &Position) -> Result<(), AckFault>
        requires fits { IsKeeperOf self.now seat.old }
        requires harts { length position.now.counts ≡ harts_of self.now }
        ensures same { IsKeeperOf self.now seat.new × (keeper_of seat.new ≡ keeper_of seat.old) }
        ensures ok { IfOk result (λ _. Publishes self.now seat.old position.now seat.new) }
        ensures last { IfOk result (λ _. last_counts seat.new ≡ position.now.counts) }
        ensures refused { IfErr result (λ e. Refuses self.now seat.old position.now e × (seat.new ≡ seat.old)) }
    {
        if position.term != self.term {
            return Err(AckFault::OtherTerm);
        }
        for number in 0..self.harts {
            let hart = Hart::new(number);
            if position.counts.get(hart) < seat.last.get(hart) {
                return Err(AckFault::Lower);
            }
        }
        let first = seat.keeper.index() * self.harts as usize;
        self.raise(&mut seat.seat, first, position.counts.as_slice());
        seat.last = position.counts;
        Ok(())
    }

    /// Sees one word: 0, or a count that the keeper had published.
    pub fn see(&self, gate: &mut GateSeat, keeper: Keeper, hart: Hart) -> Count
        requires fits { IsGateOf self.now gate.old }
        requires within { (keeper < keepers_of self.now) × (hart < harts_of self.now) }
        ensures same { IsSameGate gate.old gate.new }
        ensures result { result ≡ seen gate.new keeper hart }
        ensures counted { IsZeroOrIn result (heard gate.new keeper hart) }
        ensures published { StartsWith (heard gate.new keeper hart) (heard gate.old keeper hart) }
        ensures rises { Rises (heard gate.new keeper hart) }
        ensures no_lower { seen gate.old keeper hart ≤ result }
        ensures others { (k h : ℕ) → h < harts_of self.now → (k ≢ keeper) ⊎ (h ≢ hart) → heard gate.new k h ≡ heard gate.old k h }
    {
        let word = self.word(keeper, hart);
        self.table.shared.load::<See>(&mut gate.seat, word)
    }

    /// The keeper's last count, with its own seat at hand. All that the gate has heard of this keeper is a beginning of
    /// what it published.
    pub fn beside(&self, gate: &mut GateSeat, seat: &mut KeeperSeat, hart: Hart) -> Count
        requires fits { IsGateOf self.now gate.old × IsKeeperOf self.now seat.old }
        requires within { hart < harts_of self.now }
        ensures last { result ≡ last_count (published seat.old hart) }
        ensures published { (h : ℕ) → h < harts_of self.now → StartsWith (published seat.old h) (heard gate.old (keeper_of seat.old) h) }
        ensures counted { (h : ℕ) → h < harts_of self.now → IsZeroOrIn (seen gate.old (keeper_of seat.old) h) (published seat.old h) }
        ensures same_keeper { IsSameKeeper seat.old seat.new }
        ensures same_gate { gate.new ≡ gate.old }
    {
        let note = self.table.shared.split_seat::<Tell>(&mut gate.seat);
        self.table.shared.join_seat::<Tell>(&mut seat.seat, note);
        let word = self.word(seat.keeper, hart);
        self.table.shared.load::<Check>(&mut seat.seat, word)
    }

    /// The last count that the keeper published, which is then seen.
    pub fn see_beside(&self, gate: &mut GateSeat, seat: &mut KeeperSeat, hart: Hart) -> Count
        requires fits { IsGateOf self.now gate.old × IsKeeperOf self.now seat.old }
        requires within { hart < harts_of self.now }
        ensures last { result ≡ last_count (published seat.old hart) }
        ensures published { StartsWith (published seat.old hart) (heard gate.old (keeper_of seat.old) hart) }
        ensures then_seen { heard gate.new (keeper_of seat.old) hart ≡ published seat.old hart }
        ensures no_lower { seen gate.old (keeper_of seat.old) hart ≤ result }
        ensures others { (k h : ℕ) → h < harts_of self.now → (k ≢ keeper_of seat.old) ⊎ (h ≢ hart) → heard gate.new k h ≡ heard gate.old k h }
        ensures same { IsSameGate gate.old gate.new × IsSameKeeper seat.old seat.new }
    {
        let word = self.word(seat.keeper, hart);
        let count = self.beside(gate, seat, hart);
        let note = self.table.shared.split_seat::<Tell>(&mut seat.seat);
        self.table.shared.join_seat::<Tell>(&mut gate.seat, note);
        self.table.shared.load::<TakeIn>(&mut gate.seat, word);
        count
    }

    /// The number of harts.
    pub fn harts(&self) -> u8
        ensures value { result ≡ harts_of self.now }
        ensures limit { result ≤ HART_LIMIT }
    {
        self.harts
    }

    /// The number of keepers.
    pub fn keepers(&self) -> u8
        ensures value { result ≡ keepers_of self.now }
        ensures limit { result ≤ KEEPER_LIMIT }
    {
        self.keepers
    }
}
