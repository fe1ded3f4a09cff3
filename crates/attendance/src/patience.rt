//! How long a keeper may lack what it was sent.

ghost use Rattle.std.specs.Prelude.{◌≡◌, ◌+◌, ◌<◌, ◌≤◌, ◌*◌, true, false};

/// For how many ticks a keeper may lack something, before all is sent to it for the first time.
const FIRST: u16 = 4;

/// For how many ticks at the most.
const LONGEST: u16 = 1024;

/// For how long a keeper may lack what it was sent: twice as long each time that all was sent to it in vain, so that a long history or a slow disk costs little.
#[derive(Clone, Copy)]
pub(crate) struct Patience {
    /// For how many ticks it has lacked something.
    ticks: u16,
    /// For how many it may.
    most: u16,
}

/// For how many ticks it may behind one that was over.
fn longer(most: u16) -> u16
    ensures twice { most * 2 ≤ LONGEST → result ≡ most * 2 }
    ensures longest { LONGEST < most * 2 → result ≡ LONGEST }
{
    most.saturating_mul(2).min(LONGEST)
}

impl Patience {
    /// The keeper lacks nothing.
    pub(crate) fn new() -> Patience
        ensures { result ≡ record { ticks = 0; most = FIRST } }
    {
        Patience {
            ticks: 0,
            most: FIRST,
        }
    }

    /// The keeper lacks nothing for now.
    pub(crate) fn rest(&mut self)
        ensures { self.new ≡ record self.old { ticks = 0 } }
    {
        self.ticks = 0;
    }

    /// The keeper has lacked something for one more tick. Whether that was too long.
    pub(crate) fn wait(&mut self) -> bool
        ensures waits { self.old.ticks + 1 < self.old.most → result ≡ false }
        ensures over { self.old.most ≤ self.old.ticks + 1 → result ≡ true }
    {
        self.ticks = self.ticks.saturating_add(1);
        if self.ticks < self.most {
            return false;
        }
        self.ticks = 0;
        self.most = longer(self.most);
        true
    }
}
