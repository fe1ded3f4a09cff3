//! How long rounds are, and what comes next.

ghost use Rattle.std.specs.Prelude.{◌≡◌, ◌≢◌, ◌+◌, ◌<◌, ◌≤◌, ◌*◌, ◌%◌, true, false};

use ft_types::Count;
use leading::{Came, Heard, Spacing};

/// How many steps the first round behind a request has, and each one while an input is to be handed to a hart.
pub(crate) const FIRST_ROUND: Count = 240;

/// How many steps the first round behind a request has where no output waits: a hart that is handed it at once, rings another one and is rung back has
/// some 40 left to answer.
const LONE_ROUND: Count = 160;

/// How many of these short rounds go by at the most before keepers are sent what they brought.
pub(crate) const SHORT_ROUNDS: u8 = 4;

/// How many steps a round has at the most.
const LONGEST_ROUND: Count = 61_440;

/// How many of the longest rounds go by without a look: a hart that computes for so long seldom waits behind the next one.
const BLIND_ROUNDS: u8 = 15;

/// How many of the longest rounds go by at the most before keepers are sent what they brought, where no output waits for it: to send wakes a thread for
/// each keeper, which takes a fifth of such a round's time.
const UNSENT_ROUNDS: u8 = 4;

/// Whether keepers are sent what is new behind a round of so many steps, behind which so many are to go by without a look, where so many outputs wait
/// for them.
fn is_sent(blind: u8, steps: Count, waiting: usize) -> bool
    ensures waiting { 0 < waiting → result ≡ true }
    ensures short { steps < LONGEST_ROUND → result ≡ true }
    ensures looked { blind ≡ 0 → result ≡ true }
    ensures fourth { blind % UNSENT_ROUNDS ≡ 0 → result ≡ true }
    ensures unsent { waiting ≡ 0 → LONGEST_ROUND ≤ steps → blind % UNSENT_ROUNDS ≢ 0 → result ≡ false }
{
    waiting > 0 || steps < LONGEST_ROUND || blind % UNSENT_ROUNDS == 0
}

/// How many steps the round behind one of so many has, where no request came between them: few where an input is to be handed to a hart, and
/// otherwise four times as many, up to a limit. So an answer is soon there, and a guest that computes is led on in long rounds.
fn next_round(steps: Count, may_hand: bool) -> Count
    ensures first { may_hand ≡ true → result ≡ FIRST_ROUND }
    ensures longer { may_hand ≡ false → steps * 4 ≤ LONGEST_ROUND → result ≡ steps * 4 }
    ensures longest { may_hand ≡ false → LONGEST_ROUND < steps * 4 → result ≡ LONGEST_ROUND }
{
    if may_hand {
        FIRST_ROUND
    } else if steps <= LONGEST_ROUND / 4 {
        steps * 4
    } else {
        LONGEST_ROUND
    }
}

/// How many rounds go by without a look behind one of so many steps, behind which so many were to: behind a look some where it was one of the
/// longest, and otherwise none.
fn next_blind(blind: u8, steps: Count) -> u8
    ensures fewer { 0 < blind → result + 1 ≡ blind }
    ensures none { blind ≡ 0 → steps < LONGEST_ROUND → result ≡ 0 }
    ensures some { blind ≡ 0 → LONGEST_ROUND ≤ steps → result ≡ BLIND_ROUNDS }
{
    if blind > 0 {
        blind - 1
    } else if steps < LONGEST_ROUND {
        0
    } else {
        BLIND_ROUNDS
    }
}

/// What a primary does next.
#[derive(Clone, Copy)]
pub enum Next {
    /// Rounds are to be led.
    Lead,
    /// It is to be looked whether more rounds would change anything.
    Look,
    /// Nothing: rounds change nothing until a request comes.
    Wait,
}

/// How rounds go on.
#[derive(Clone, Copy)]
pub(crate) struct Pace {
    /// How many steps the next round has.
    pub(crate) steps: Count,
    /// How many rounds go by without a look.
    blind: u8,
    /// How soon the next round hands an input to a hart: at once where harts only waited when it was looked last. What a hart does not read
    /// while it waits it won't read later.
    pub(crate) spacing: Spacing,
    pub(crate) next: Next,
}

impl Pace {
    /// Before the first round of a term.
    pub(crate) fn new() -> Pace {
        Pace {
            steps: FIRST_ROUND,
            blind: 0,
            spacing: Spacing::Usual,
            next: Next::Lead,
        }
    }

    /// Rounds begin anew behind a request that was taken: behind all else they would bring nothing new. Whether outputs wait for keepers.
    pub(crate) fn note_heard(&mut self, heard: &Heard, waits: bool) {
        if let Heard::Came(Came::Taken) = heard {
            self.steps = if waits { FIRST_ROUND } else { LONE_ROUND };
            self.blind = 0;
            self.next = Next::Lead;
        }
    }

    /// Whether keepers are sent what is new behind the rounds that were led, where so many outputs wait for them.
    pub(crate) fn sends(&self, waiting: usize) -> bool
        ensures { 0 < waiting → result ≡ true }
    {
        is_sent(self.blind, self.steps, waiting)
    }

    /// Rounds were led.
    pub(crate) fn note_led(&mut self) {
        self.spacing = Spacing::Usual;
        self.next = Next::Look;
    }

    /// Whether it is to be looked, or goes on blindly.
    pub(crate) fn looks(&self) -> bool {
        self.blind == 0
    }

    /// It was looked, or not: whether harts only wait, and whether one is handed an input in the next round.
    pub(crate) fn note_looked(&mut self, only_waits: bool, may_hand: bool) {
        if only_waits {
            self.spacing = Spacing::None;
        }
        self.next = if only_waits { Next::Wait } else { Next::Lead };
        self.blind = next_blind(self.blind, self.steps);
        self.steps = next_round(self.steps, may_hand);
    }
}
