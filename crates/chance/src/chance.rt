//! Guests and events that fall by chance.

ghost use Rattle.std.specs.Prelude.{◌<◌, ◌≤◌};

use crate::acts::Act;
use crate::plain::PlainWorld;
use fixtures::{BOTH_STORE, Dice, HALTS, RING_EACH_OTHER, SAYS_ITS_WORD};

/// lui x1, f0000; then again and again sw x2, 8(x1), an output; addi x2, x2, 1; and back: two harts that count aloud.
static COUNT_ALOUD: &[u8] = b"harts 2\npages 1\nf00000b7\n0020a423\n00110113\nff9ff06f\n";

/// lui x1, 80001; lui x4, f0000; then again and again amoadd.w x2, x1, (x1); sw x2, 8(x4), an output; and back: two harts that
/// say which of them came first.
static TAKE_TURNS: &[u8] = b"harts 2\npages 2\n800010b7\nf0000237\n0010a12f\n00222423\nff9ff06f\n";

/// The guest of a list's number.
pub fn guest(number: u64) -> &'static [u8] {
    match number % 10 {
        0 => HALTS,
        1 => SAYS_ITS_WORD,
        2 => RING_EACH_OTHER,
        3 => BOTH_STORE,
        4..=6 => COUNT_ALOUD,
        _ => TAKE_TURNS,
    }
}

/// From whose stores a primary goes live: of one keeper, of two, of three, and of more.
static GIVE: [&[&[u64]]; 4] = [
    &[&[0], &[0, 0]],
    &[&[0], &[1], &[0, 1], &[1, 0, 1]],
    &[&[0, 2], &[2, 1], &[1, 0], &[0, 1, 2], &[2, 0, 1], &[1, 1]],
    &[
        &[2, 3],
        &[0, 1, 3],
        &[3, 2, 1],
        &[0, 1, 2, 3],
        &[4, 3, 2, 1, 0],
        &[0, 7],
    ],
];

/// A number below the limit, or seldom the limit.
fn number_to(dice: &mut Dice, limit: u64) -> u64 {
    let roll = dice.roll();
    if roll == 0 {
        limit
    } else {
        u64::from(dice.roll()) % limit.max(1)
    }
}

/// Some of so many keepers.
fn some_of(dice: &mut Dice, keepers: u8) -> &'static [u64] {
    let lists = match keepers {
        1 => GIVE[0],
        2 => GIVE[1],
        3 => GIVE[2],
        _ => GIVE[3],
    };
    match lists.get(usize::from(dice.roll()) % lists.len().max(1)) {
        Some(keepers) => keepers,
        None => &[],
    }
}

/// A grant of the next term, or seldom of another.
fn grant(dice: &mut Dice, world: &PlainWorld) -> Act {
    let keepers = some_of(dice, world.keepers);
    let term = world.greatest_term();
    let term = match dice.roll() % 16 {
        0 => term,
        1 => 0,
        2 => term.saturating_add(7),
        3 => term.saturating_sub(3),
        _ => term.saturating_add(1),
    };
    Act::Grant(term, keepers)
}

/// An event that is seldom.
fn seldom(dice: &mut Dice, world: &PlainWorld) -> Act {
    let roll = dice.roll() % 8;
    let keeper = number_to(dice, u64::from(world.keepers));
    let term = world.greatest_term();
    match roll {
        0 => Act::Lose(keeper),
        1 => grant(dice, world),
        2 => Act::Timer(term, dice.roll()),
        3 => Act::Word(term, dice.roll(), u32::from(dice.roll())),
        4 | 5 => Act::Join(keeper, number_to(dice, u64::from(world.keepers))),
        _ => Act::Stop(term),
    }
}

/// What any keeper does: the first frame that it lacks comes, or any frame, or it acknowledges.
fn keeping(dice: &mut Dice, world: &PlainWorld) -> Act {
    let keeper = number_to(dice, u64::from(world.keepers));
    match (world.first_missing(keeper), dice.roll() % 16) {
        (_, 0) => Act::Deliver(keeper, number_to(dice, world.sent.len() as u64)),
        (Some(frame), 1..=12) => Act::Deliver(keeper, frame),
        _ => Act::Ack(keeper),
    }
}

/// What a list is about for a while.
#[derive(Clone, Copy)]
enum Mood {
    /// Harts take steps.
    Steps,
    /// What they did is sealed.
    Seals,
    /// Keepers take frames and acknowledge.
    Keeps,
    /// Outputs go out.
    Releases,
}

/// The mood after this one.
fn after(mood: Mood, roll: u8) -> Mood {
    match (mood, roll % 8) {
        (Mood::Steps, 0 | 4) => Mood::Seals,
        (Mood::Seals, _) => Mood::Keeps,
        (Mood::Keeps, 0) => Mood::Releases,
        (Mood::Releases, _) => Mood::Steps,
        _ => mood,
    }
}

/// What happens by chance.
#[derive(Drop)]
pub struct Chance {
    dice: Dice,
    mood: Mood,
}

impl Chance {
    /// Chance of this seed, which is not 0.
    pub fn new(seed: u64) -> Chance {
        Chance {
            dice: Dice::new(seed),
            mood: Mood::Steps,
        }
    }

    /// A number from 1 to the limit.
    pub fn number(&mut self, limit: u8) -> u8
        requires { 0 < limit }
        ensures { (0 < result) × (result ≤ limit) }
    {
        self.dice.roll() % limit + 1
    }

    /// What fits the mood, which may change then.
    fn fitting(&mut self, world: &PlainWorld) -> Act {
        let term = world.greatest_term();
        let mood = self.mood;
        self.mood = after(mood, self.dice.roll());
        match mood {
            Mood::Steps => Act::Step(term, self.dice.roll()),
            Mood::Seals => Act::Seal(term),
            Mood::Keeps => keeping(&mut self.dice, world),
            Mood::Releases => Act::Release(term),
        }
    }

    /// What happens next.
    pub fn next(&mut self, world: &PlainWorld) -> Act {
        let term = world.greatest_term();
        if world.machine(term).is_none() && self.dice.roll() % 4 != 0 {
            self.mood = Mood::Keeps;
            return grant(&mut self.dice, world);
        }
        match self.dice.roll() % 64 {
            0 => Act::Step(term, self.dice.roll()),
            1 => Act::Seal(term),
            2 => Act::Release(term),
            3 => keeping(&mut self.dice, world),
            4..=8 => seldom(&mut self.dice, world),
            _ => self.fitting(world),
        }
    }
}
