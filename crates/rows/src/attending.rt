//! Keepers that lack what they were sent, or are not heard: what is found at which tick.

use crate::tables::{all_right, number, row, word};
use attendance::{Attendance, Finding};
use ft_types::{Counts, Keeper, Memory, Quorum};
use std::alloc::Global;

/// What comes of the keeper before each tick.
#[derive(Clone, Copy)]
enum Comes {
    /// Nothing.
    Nothing,
    /// It is heard, and has what it had.
    Same,
    /// It is heard, and has one step more.
    More,
}

/// The only keeper of a guest with one hart.
#[derive(Drop)]
struct Watched {
    attendance: Attendance,
    keeper: Keeper,
    /// How many steps it has.
    has: u64,
    /// How many were sent.
    sent: Option<Counts>,
    /// Whether outputs wait.
    waits: bool,
}

fn name_of(finding: Finding) -> &'static str {
    match finding {
        Finding::Lacks(_) => "lacks",
        Finding::Lost(_) => "lost",
        Finding::Back(_) => "back",
        Finding::Fenced(_, _) => "fenced",
        Finding::Few(_) => "few",
        Finding::Enough(_) => "enough",
    }
}

/// What stands behind this finding at this tick, which is first.
fn behind(rest: &str, tick: u64, finding: Finding) -> Option<&str> {
    let (first, others) = word(rest);
    let (name, others) = word(others);
    if number(first) == tick && name == name_of(finding) {
        Some(others)
    } else {
        None
    }
}

impl Watched {
    fn new(quorum: Quorum) -> Watched {
        Watched {
            attendance: Attendance::new(quorum),
            keeper: Keeper::new(0),
            has: 0,
            sent: None,
            waits: false,
        }
    }

    fn acknowledge(&mut self, has: u64) {
        self.has = has;
        if let Some(counts) = Counts::from_slice(&[has]) {
            self.attendance.acknowledge(self.keeper, &counts);
        }
    }

    fn comes(&mut self, what: Comes) {
        match what {
            Comes::Nothing => return,
            Comes::Same => {}
            Comes::More => self.acknowledge(self.has.saturating_add(1)),
        }
        self.attendance.hear(self.keeper);
    }

    /// Whether at so many ticks this is found.
    fn finds(
        &mut self,
        alloc: Global,
        what: Comes,
        ticks: u64,
        answer: &str,
    ) -> Result<bool, Memory> {
        let mut rest = answer;
        for tick in 1..=ticks {
            self.comes(what);
            for finding in self.attendance.tick(alloc, self.sent, self.waits)? {
                match behind(rest, tick, finding) {
                    Some(others) => rest = others,
                    None => return Ok(false),
                }
            }
        }
        Ok(rest.is_empty())
    }

    /// Does what no tick is in.
    fn does(&mut self, what: &str, many: u64) {
        match what {
            "has" => self.acknowledge(many),
            "sent" => self.sent = Counts::from_slice(&[many]),
            "waits" => self.waits = many > 0,
            "leaves" => self.attendance.leave(self.keeper, 2),
            _ => self.attendance.ask(self.keeper),
        }
    }

    /// Whether a row is answered so.
    fn is_right(&mut self, alloc: Global, asked: &str, answer: &str) -> Result<bool, Memory> {
        let (what, behind) = word(asked);
        let many = number(behind);
        match what {
            "nothing" => self.finds(alloc, Comes::Nothing, many, answer),
            "same" => self.finds(alloc, Comes::Same, many, answer),
            "more" => self.finds(alloc, Comes::More, many, answer),
            _ => {
                self.does(what, many);
                Ok(true)
            }
        }
    }
}

/// Ticks before which the same or more came of a keeper that has so many steps where so many were sent, and those of them at which all is to be sent to it
/// once more: twice as rarely each time, and not while it has more than before, or has all that was sent a tick before.
static LACKS: &str = "\
same 30|4 lacks 12 lacks 28 lacks
asks|
same 40|32 lacks
has 5|
same 40|
sent 9|
same 5|5 lacks
same 8|8 lacks
more 3|
same 4|4 lacks
asks|
same 4|
same 4|4 lacks
has 9|
same 40|
sent 50|
more 40|
";

/// The longest that a keeper may lack something.
static LONGEST: &str = "\
same 4|4 lacks
same 8|8 lacks
same 16|16 lacks
same 32|32 lacks
same 64|64 lacks
same 128|128 lacks
same 256|256 lacks
same 512|512 lacks
same 1024|1024 lacks
same 2048|1024 lacks 2048 lacks
";

/// A keeper that is silent, is heard again, and is fenced off, while outputs wait or not.
static SILENT: &str = "\
has 0|
same 5|
nothing 40|2 lost
same 9|1 back
nothing 1|
same 1|
waits 1|
same 9|
nothing 9|2 lost 2 few
waits 0|
nothing 9|
more 9|1 back 1 enough
nothing 9|2 lost
waits 1|
nothing 9|1 few
same 9|1 back 1 enough
leaves|
same 9|1 fenced 1 few
nothing 9|2 lost
same 9|1 back
";

/// The first row that is answered otherwise.
fn first_wrong(alloc: Global, rows: &'static str) -> Result<Option<&'static str>, Memory> {
    let Some(quorum) = Quorum::new(1, 1) else {
        return Ok(Some("no quorum"));
    };
    let mut watched = Watched::new(quorum);
    for line in rows.lines() {
        let (asked, answer) = row(line);
        if !watched.is_right(alloc, asked, answer)? {
            return Ok(Some(line));
        }
    }
    Ok(None)
}

#[test]
fn keepers_that_lack_something(rt: HostRuntime) -> Result<(), Memory> {
    for rows in [LACKS, LONGEST, SILENT] {
        all_right(&rt, first_wrong(rt.alloc(), rows)?);
    }
    Ok(())
}
