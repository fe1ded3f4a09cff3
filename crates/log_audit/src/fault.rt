//! Why an audit says no.

ghost use Rattle.std.specs.Prelude.{◌≡◌};
ghost use Rattle.log_audit.specs.Faults.{fault_number};

use ft_types::{Count, Hart, PageNo};
use hart_replay::ReplayFault;

/// Why an audit says no.
#[derive(Clone, Copy, PartialEq, Eq)]
pub enum AuditFault {
    /// In one leg both of these harts' steps, each by its hart and count, touch the page and one of them writes it, and neither
    /// comes before the other. The lesser hart stands first.
    Uncovered(PageNo, (Hart, Count), (Hart, Count)),
    /// No schedule leads to a machine.
    Replay(ReplayFault),
}

impl AuditFault {
    /// The fault's number, 1 or 2.
    pub fn number(self) -> u8
        ensures { result ≡ fault_number self }
    {
        match self {
            AuditFault::Uncovered(_, _, _) => 1,
            AuditFault::Replay(_) => 2,
        }
    }
}
