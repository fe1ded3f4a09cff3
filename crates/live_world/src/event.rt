//! What may happen.

use ft_types::{Count, Keeper, Term};
use leading::Spacing;
use wire::Request;

/// What whoever hands a log over does next.
#[derive(Clone, Copy, PartialEq, Eq)]
pub enum HandAct {
    /// It sees the last fence.
    Looks,
    /// It puts the fence of a term that is above the one that it saw.
    Fences(Term),
    /// It reads the log that it fenced off, and hands it over.
    Reads,
    /// Its process ends.
    Ends,
}

/// What happens between two acts of a keeper.
#[derive(Clone, Copy, PartialEq, Eq)]
pub enum Meanwhile {
    /// Whoever hands the log over does this.
    Hand(HandAct),
    /// The keeper's next act fails; of what it would add the first so many bytes are added.
    Fails(usize),
    /// The machine crashes, and leaves so many bytes of the log, and what is on disk at least.
    Crashes(usize),
}

/// What happens before the keeper's act of this number in its call, from 0, or behind its last one.
#[derive(Clone, Copy, PartialEq, Eq)]
pub struct Planned {
    /// The number of the act.
    pub before: usize,
    /// What happens.
    pub what: Meanwhile,
}

/// What happens next at a keeper's machine.
#[derive(Drop)]
pub enum KeeperEvent {
    /// A keeper begins, or comes back, over its log; between its acts this happens.
    Begin {
        keeper: Keeper,
        plan: Vec<Planned>,
    },
    /// The frames from the one number to below the other come to the keeper, in pieces of so many bytes.
    Take {
        keeper: Keeper,
        from: usize,
        to: usize,
        piece: usize,
    },
    /// The keeper logs what came to it and acknowledges; between its acts this happens.
    Log {
        keeper: Keeper,
        plan: Vec<Planned>,
    },
    /// A keeper's process ends.
    KeeperEnds(Keeper),
    /// A keeper's machine crashes, and leaves so many bytes of its log, and what is on disk at least.
    Crash {
        keeper: Keeper,
        left: usize,
    },
    /// A keeper and all that it has on disk are gone for good.
    Lose(Keeper),
    /// What a keeper had on disk is gone. Its number goes to a new log, with all that others handed over to the term, and with that term's fence; these are
    /// named by their numbers, from 0.
    Renew {
        keeper: Keeper,
        term: Term,
        handed: Vec<usize>,
    },
    /// Whoever hands the keeper's log over does this.
    Hand {
        keeper: Keeper,
        act: HandAct,
    },
}

/// What happens next to primaries. What was asked for, said, handed over, or went out is named by its number, from 0.
#[derive(Drop)]
pub enum PrimaryEvent {
    /// A primary goes live in a term from what was handed over.
    GoLive {
        term: Term,
        handed: Vec<usize>,
    },
    /// What was asked for comes to a primary.
    Request {
        primary: usize,
        asked: usize,
    },
    /// A primary's round.
    Round {
        primary: usize,
        steps: Count,
        spacing: Spacing,
    },
    /// A primary cuts what is new of its log, and sends that.
    Seal(usize),
    /// What a keeper said comes to a primary.
    Hear {
        primary: usize,
        said: usize,
    },
    /// A primary tells an output that went out.
    Tell {
        primary: usize,
        released: usize,
    },
    /// A primary's process ends.
    End(usize),
}

/// What happens next to clients.
#[derive(Drop)]
pub enum ClientEvent {
    /// A client comes, with words for hart 0, of which so many may be open.
    Join { words: Vec<u32>, window: usize },
    /// Whoever there is asks for something by hand.
    Want(Request),
    /// A client asks for its next word.
    Ask(usize),
    /// A client asks once more.
    AskAgain(usize),
    /// What was told comes to a client.
    Answer { client: usize, told: usize },
    /// A client tells its next answer.
    Print(usize),
}

/// What happens next. What was sent, said, handed over, asked for or told stays: it may come at any time, again, or never.
#[derive(Drop)]
pub enum LiveEvent {
    Keeper(KeeperEvent),
    Primary(PrimaryEvent),
    Client(ClientEvent),
}
