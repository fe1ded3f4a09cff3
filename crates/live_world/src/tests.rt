//! Lists of events, followed by hand.

use crate::acting::{
    FIRST, SECOND, THIRD, beginning, begins, client, gives, go_live, goes_round, hands, happens,
    hears, is_asked, is_refused, keeper, logging, logs, outputs, primary, sizes, takes, told_last,
    world_of,
};
use crate::event::{
    ClientEvent, HandAct, KeeperEvent, LiveEvent, Meanwhile, Planned, PrimaryEvent,
};
use crate::fault::EventFault;
use crate::world::LiveWorld;
use fenced_live::GivenFault;
use ft_types::{Hart, Term};
use go_live::LiveFault;
use leading::LeadFault;
use stations::{FilesFault, TERM_REACH};
use std::alloc::Global;
use std::result::Result;
use std::test::Fail;
use wire::Request;

/// All keepers begin, their logs are handed over to term 1, and its primary goes live from the first two. A client asks for the word 7, of which its
/// round tells: frame 0 is the opening, the others are the log of that round.
fn first_term(alloc: Global) -> Result<LiveWorld, Fail> {
    let mut world = world_of(alloc)?;
    for number in [FIRST, SECOND, THIRD] {
        begins(alloc, &mut world, number)?;
        gives(alloc, &mut world, number, 1)?;
    }
    go_live(alloc, &mut world, 1, &[0, 1])?;
    let words = [7].to_vec(alloc)?;
    client(alloc, &mut world, ClientEvent::Join { words, window: 1 })?;
    client(alloc, &mut world, ClientEvent::Ask(0))?;
    is_asked(alloc, &mut world, 0)?;
    goes_round(alloc, &mut world, 0)?;
    takes(alloc, &mut world, FIRST, 0)?;
    takes(alloc, &mut world, SECOND, 0)?;
    Ok(world)
}

/// The machine crashes behind the sync, before the fence is read: the whole log is left.
const BEHIND_SYNC: &[Planned] = &[Planned {
    before: 2,
    what: Meanwhile::Crashes(0),
}];

/// The second keeper's machine crashes behind its sync: it says nothing, and what it has is handed over to term 2.
fn second_term(alloc: Global) -> Result<LiveWorld, Fail> {
    let mut world = first_term(alloc)?;
    logs(alloc, &mut world, FIRST)?;
    let event = logging(alloc, SECOND, BEHIND_SYNC)?;
    if !is_refused(
        alloc,
        &mut world,
        event,
        EventFault::Files(FilesFault::Fences),
    ) {
        return Err("the crash".into());
    }
    hears(alloc, &mut world, 0, 0)?;
    hands(
        alloc,
        &mut world,
        SECOND,
        &[HandAct::Looks, HandAct::Fences(2)],
    )?;
    begins(alloc, &mut world, SECOND)?;
    gives(alloc, &mut world, THIRD, 2)?;
    hands(alloc, &mut world, SECOND, &[HandAct::Reads])?;
    go_live(alloc, &mut world, 2, &[3, 4])?;
    Ok(world)
}

/// The keepers of term 2 take what it was given and its opening, and log that.
fn second_is_held(alloc: Global, world: &mut LiveWorld) -> Result<(), Fail> {
    let opening = world.frames().len().saturating_sub(1);
    takes(alloc, world, SECOND, opening)?;
    takes(alloc, world, THIRD, 0)?;
    logs(alloc, world, SECOND)?;
    logs(alloc, world, THIRD)?;
    hears(alloc, world, 1, 1)?;
    hears(alloc, world, 1, 2)
}

/// The client hears what was told last, and tells it.
fn client_hears(alloc: Global, world: &mut LiveWorld) -> Result<Option<usize>, Fail> {
    let event = ClientEvent::Answer {
        client: 0,
        told: world.told().len().saturating_sub(1),
    };
    client(alloc, world, event)?;
    client(alloc, world, ClientEvent::Print(0))?;
    Ok(world.clients().first().map(|client| client.told()))
}

#[test]
fn a_word_that_no_term_told_goes_out_in_the_next(rt: HostRuntime) -> Result<(), Fail> {
    let alloc = rt.alloc();
    let mut world = second_term(alloc)?;
    // One keeper alone said it has it; the next primary's machine has it.
    assert!(rt; outputs(&world, 0) == Some((0, 1)));
    assert!(rt; outputs(&world, 1) == Some((0, 1)));
    // Behind the fence the keeper that comes back says nothing of term 1.
    logs(alloc, &mut world, SECOND)?;
    assert!(rt; sizes(&world) == (1, 5));
    second_is_held(alloc, &mut world)?;
    assert!(rt; outputs(&world, 1) == Some((1, 0)));
    // The older primary goes on, alone.
    goes_round(alloc, &mut world, 0)?;
    assert!(rt; outputs(&world, 0) == Some((0, 1)));
    let event = PrimaryEvent::Tell {
        primary: 1,
        released: 0,
    };
    primary(alloc, &mut world, event)?;
    assert!(rt; told_last(&world) == Some((2, 7)));
    assert!(rt; client_hears(alloc, &mut world)? == Some(1));
    Ok(())
}

/// The fence comes between the adding and the sync, and the log is read before the keeper sees the fence.
const BETWEEN: &[Planned] = &[
    Planned {
        before: 0,
        what: Meanwhile::Hand(HandAct::Looks),
    },
    Planned {
        before: 1,
        what: Meanwhile::Hand(HandAct::Fences(2)),
    },
    Planned {
        before: 2,
        what: Meanwhile::Hand(HandAct::Reads),
    },
];

/// The same, but that the fence comes behind the keeper's last act.
const BEHIND: &[Planned] = &[Planned {
    before: 3,
    what: Meanwhile::Hand(HandAct::Looks),
}];

#[test]
fn a_fence_between_two_acts(rt: HostRuntime) -> Result<(), Fail> {
    let alloc = rt.alloc();
    let mut world = first_term(alloc)?;
    let event = logging(alloc, FIRST, BETWEEN)?;
    happens(alloc, &mut world, event)?;
    // What it added was handed over, and it says nothing.
    assert!(rt; sizes(&world) == (0, 4));
    let event = logging(alloc, SECOND, BEHIND)?;
    happens(alloc, &mut world, event)?;
    assert!(rt; sizes(&world) == (1, 4));
    hands(
        alloc,
        &mut world,
        SECOND,
        &[HandAct::Fences(2), HandAct::Reads],
    )?;
    go_live(alloc, &mut world, 2, &[3, 4])?;
    assert!(rt; outputs(&world, 1) == Some((0, 1)));
    Ok(())
}

/// How many bytes of a keeper's log are there, and on disk.
fn log_of(world: &LiveWorld, number: u8) -> Option<(usize, usize)> {
    let site = world.site(keeper(number))?;
    Some((site.files.log().len(), site.files.safe()))
}

/// Adding fails behind the first 5 bytes.
const TORN: &[Planned] = &[Planned {
    before: 0,
    what: Meanwhile::Fails(5),
}];

/// The machine crashes behind the adding, and leaves 9 bytes.
const BEFORE_SYNC: &[Planned] = &[Planned {
    before: 1,
    what: Meanwhile::Crashes(9),
}];

/// A keeper begins once more, where its log had so many bytes, and has none.
fn begins_again(alloc: Global, world: &mut LiveWorld, had: usize) -> Result<bool, Fail> {
    let torn = log_of(world, FIRST) == Some((had, 0));
    begins(alloc, world, FIRST)?;
    Ok(torn && log_of(world, FIRST) == Some((0, 0)))
}

#[test]
fn a_torn_log_is_cut(rt: HostRuntime) -> Result<(), Fail> {
    let alloc = rt.alloc();
    let mut world = first_term(alloc)?;
    let event = logging(alloc, FIRST, TORN)?;
    assert!(rt; is_refused(alloc, &mut world, event, EventFault::Files(FilesFault::Log)));
    assert!(rt; begins_again(alloc, &mut world, 5)?);
    takes(alloc, &mut world, FIRST, 0)?;
    let event = logging(alloc, FIRST, BEFORE_SYNC)?;
    assert!(rt; is_refused(alloc, &mut world, event, EventFault::Files(FilesFault::Log)));
    assert!(rt; begins_again(alloc, &mut world, 9)?);
    Ok(())
}

#[test]
fn what_is_left_happens_once(rt: HostRuntime) -> Result<(), Fail> {
    let alloc = rt.alloc();
    let mut world = first_term(alloc)?;
    logs(alloc, &mut world, FIRST)?;
    logs(alloc, &mut world, SECOND)?;
    hears(alloc, &mut world, 0, 0)?;
    hears(alloc, &mut world, 0, 1)?;
    assert!(rt; outputs(&world, 0) == Some((1, 0)));
    client(alloc, &mut world, ClientEvent::AskAgain(0))?;
    let request = Request::From {
        hart: Hart::new(0),
        number: 0,
    };
    client(alloc, &mut world, ClientEvent::Want(request))?;
    is_asked(alloc, &mut world, 0)?;
    assert!(rt; told_last(&world) == Some((1, 7)));
    let event = KeeperEvent::Crash {
        keeper: keeper(FIRST),
        left: 0,
    };
    happens(alloc, &mut world, LiveEvent::Keeper(event))?;
    let event = LiveEvent::Keeper(KeeperEvent::KeeperEnds(keeper(SECOND)));
    happens(alloc, &mut world, event)?;
    happens(
        alloc,
        &mut world,
        LiveEvent::Keeper(KeeperEvent::Lose(keeper(THIRD))),
    )?;
    hands(alloc, &mut world, FIRST, &[HandAct::Looks, HandAct::Ends])?;
    assert!(rt; outputs(&world, 0) == Some((1, 0)));
    primary(alloc, &mut world, PrimaryEvent::End(0))?;
    assert!(rt; outputs(&world, 0) == None);
    Ok(())
}

fn renewal_of(alloc: Global, number: u8, term: Term, numbers: &[usize]) -> Result<LiveEvent, Fail> {
    Ok(LiveEvent::Keeper(KeeperEvent::Renew {
        keeper: keeper(number),
        term,
        handed: numbers.to_vec(alloc)?,
    }))
}

/// The second and the third keeper hand over to term 2, the second one what it acknowledged in term 1.
fn two_hand_over(alloc: Global) -> Result<LiveWorld, Fail> {
    let mut world = first_term(alloc)?;
    logs(alloc, &mut world, SECOND)?;
    gives(alloc, &mut world, SECOND, 2)?;
    gives(alloc, &mut world, THIRD, 2)?;
    Ok(world)
}

#[test]
fn a_lost_log_is_filled_from_others(rt: HostRuntime) -> Result<(), Fail> {
    let alloc = rt.alloc();
    let mut world = two_hand_over(alloc)?;
    takes(alloc, &mut world, FIRST, 0)?;
    let event = logging(alloc, FIRST, TORN)?;
    assert!(rt; is_refused(alloc, &mut world, event, EventFault::Files(FilesFault::Log)));
    assert!(rt; log_of(&world, FIRST) == Some((5, 0)));
    let event = renewal_of(alloc, FIRST, 2, &[3, 4])?;
    happens(alloc, &mut world, event)?;
    // It has what the second one has, on disk, and its fence is that of the term.
    assert!(rt; log_of(&world, FIRST) == log_of(&world, SECOND));
    let fence = world.site(keeper(FIRST)).map(|site| site.files.fence());
    assert!(rt; fence == Some(2));
    // Nobody runs there until the keeper comes back, and says what it has.
    let event = logging(alloc, FIRST, &[])?;
    assert!(rt; is_refused(alloc, &mut world, event, EventFault::Rests));
    begins(alloc, &mut world, FIRST)?;
    go_live(alloc, &mut world, 2, &[3, 4])?;
    assert!(rt; outputs(&world, 1) == Some((0, 1)));
    Ok(())
}

#[test]
fn no_log_is_renewed_so(rt: HostRuntime) -> Result<(), Fail> {
    let alloc = rt.alloc();
    let mut world = two_hand_over(alloc)?;
    let rows: [(u8, Term, &[usize], EventFault); 8] = [
        (FIRST, 2, &[3], EventFault::TooFew),
        (FIRST, 2, &[3, 3], EventFault::TooFew),
        (FIRST, 2, &[3, 2], EventFault::OtherTerm),
        (SECOND, 2, &[3, 4], EventFault::OwnLog),
        (FIRST, 2, &[3, 9], EventFault::NoneHanded),
        (SECOND, 1, &[0, 2], EventFault::HasSaid),
        (THIRD, 1, &[0, 1], EventFault::Fenced(2)),
        (4, 2, &[3, 4], EventFault::NoKeeper),
    ];
    for (number, term, numbers, fault) in rows {
        let event = renewal_of(alloc, number, term, numbers)?;
        assert!(rt; is_refused(alloc, &mut world, event, fault));
    }
    Ok(())
}

fn take_of(number: u8, from: usize) -> LiveEvent {
    LiveEvent::Keeper(KeeperEvent::Take {
        keeper: keeper(number),
        from,
        to: from.saturating_add(1),
        piece: 1,
    })
}

fn hand_of(number: u8, act: HandAct) -> LiveEvent {
    LiveEvent::Keeper(KeeperEvent::Hand {
        keeper: keeper(number),
        act,
    })
}

fn live_of(alloc: Global, term: Term, numbers: &[usize]) -> Result<LiveEvent, Fail> {
    Ok(LiveEvent::Primary(PrimaryEvent::GoLive {
        term,
        handed: numbers.to_vec(alloc)?,
    }))
}

/// Whether each event of keepers is refused so.
fn keepers_are_refused(alloc: Global, world: &mut LiveWorld) -> Result<bool, Fail> {
    let none = LiveEvent::Keeper(KeeperEvent::Lose(keeper(4)));
    let lost = is_refused(
        alloc,
        world,
        beginning(alloc, 4, &[])?,
        EventFault::NoKeeper,
    ) && is_refused(alloc, world, none, EventFault::NoKeeper);
    let runs = is_refused(
        alloc,
        world,
        beginning(alloc, FIRST, &[])?,
        EventFault::Runs,
    );
    let event = LiveEvent::Keeper(KeeperEvent::KeeperEnds(keeper(THIRD)));
    happens(alloc, world, event)?;
    let rests = is_refused(alloc, world, take_of(THIRD, 0), EventFault::Rests)
        && is_refused(alloc, world, logging(alloc, THIRD, &[])?, EventFault::Rests);
    let no_frame = is_refused(alloc, world, take_of(FIRST, 9), EventFault::NoFrame);
    let no_turn = is_refused(
        alloc,
        world,
        hand_of(FIRST, HandAct::Reads),
        EventFault::NoTurn,
    );
    hands(alloc, world, FIRST, &[HandAct::Looks])?;
    let fenced = fences_are_refused(alloc, world);
    Ok(lost && runs && rests && no_frame && no_turn && fenced)
}

/// Whether a term that is not above the last fence is refused, and one that is out of its reach.
fn fences_are_refused(alloc: Global, world: &mut LiveWorld) -> bool {
    let same = hand_of(FIRST, HandAct::Fences(1));
    let far = hand_of(FIRST, HandAct::Fences(TERM_REACH + 2));
    is_refused(alloc, world, same, EventFault::Fenced(1))
        && is_refused(alloc, world, far, EventFault::Far(1))
}

/// Whether no primary goes live so.
fn none_goes_live(alloc: Global, world: &mut LiveWorld) -> Result<bool, Fail> {
    let granted = is_refused(
        alloc,
        world,
        live_of(alloc, 1, &[0, 1])?,
        EventFault::Granted,
    );
    let none = is_refused(
        alloc,
        world,
        live_of(alloc, 2, &[9])?,
        EventFault::NoneHanded,
    );
    let few = EventFault::Lead(LeadFault::NotLive(GivenFault::Live(LiveFault::TooFewStores)));
    let lead = is_refused(alloc, world, live_of(alloc, 2, &[])?, few);
    let other = EventFault::Lead(LeadFault::NotLive(GivenFault::OtherTerm));
    let term = is_refused(alloc, world, live_of(alloc, 2, &[0, 1])?, other);
    Ok(granted && none && lead && term)
}

/// Whether each event of primaries is refused so.
fn primaries_are_refused(alloc: Global, world: &mut LiveWorld) -> Result<bool, Fail> {
    let asked = LiveEvent::Primary(PrimaryEvent::Request {
        primary: 0,
        asked: 9,
    });
    let none_asked = is_refused(alloc, world, asked, EventFault::NoneAsked);
    let said = LiveEvent::Primary(PrimaryEvent::Hear {
        primary: 0,
        said: 9,
    });
    let none_said = is_refused(alloc, world, said, EventFault::NoneSaid);
    let out = LiveEvent::Primary(PrimaryEvent::Tell {
        primary: 0,
        released: 0,
    });
    let none_out = is_refused(alloc, world, out, EventFault::NoneOut);
    primary(alloc, world, PrimaryEvent::End(0))?;
    let seal = LiveEvent::Primary(PrimaryEvent::Seal(0));
    let end = LiveEvent::Primary(PrimaryEvent::End(0));
    let gone = is_refused(alloc, world, seal, EventFault::NoPrimary)
        && is_refused(alloc, world, end, EventFault::NoPrimary);
    Ok(none_asked && none_said && none_out && gone)
}

#[test]
fn each_refusal(rt: HostRuntime) -> Result<(), Fail> {
    let alloc = rt.alloc();
    let mut world = first_term(alloc)?;
    assert!(rt; keepers_are_refused(alloc, &mut world)?);
    assert!(rt; none_goes_live(alloc, &mut world)?);
    assert!(rt; primaries_are_refused(alloc, &mut world)?);
    let answer = LiveEvent::Client(ClientEvent::Answer { client: 0, told: 9 });
    assert!(rt; is_refused(alloc, &mut world, answer, EventFault::NoneTold));
    let ask = LiveEvent::Client(ClientEvent::Ask(9));
    assert!(rt; is_refused(alloc, &mut world, ask, EventFault::NoClient));
    let print = LiveEvent::Client(ClientEvent::Print(9));
    assert!(rt; is_refused(alloc, &mut world, print, EventFault::NoClient));
    Ok(())
}
