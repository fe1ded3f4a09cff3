//! What lines say to a primary.

ghost use Rattle.std.specs.Prelude.{◌≡◌, ◌≢◌, ◌<◌, ◌≤◌, IfSome};
ghost use Rattle.primary_turns.specs.declared.said.Said.TheVariants.{Request as SaidRequest};
ghost use Rattle.wire.specs.declared.requests.Request.{Request as asked_for};

use ends::Reads;
use ft_types::Guest;
use primary_turns::Said;
use std::option::Option;
use wire::{LineText, read_acknowledgement, read_again, read_request};

/// What a line of the input with this number says, if anything: clients speak by the first so many, keepers by the others.
fn read_said(guest: &Guest, requests: usize, input: usize, line: &LineText) -> Option<Said>
    ensures client { input < requests → IfSome result (λ said. (request : asked_for) × (said ≡ SaidRequest request)) }
    ensures keeper { requests ≤ input → IfSome result (λ said. (request : asked_for) → said ≢ SaidRequest request) }
{
    let line = line.as_slice();
    if input < requests {
        return Some(Said::Request(read_request(guest.harts(), line)?));
    }
    if let Some(acknowledgement) = read_acknowledgement(guest, line) {
        return Some(Said::Acknowledgement(acknowledgement));
    }
    Some(Said::Again(read_again(guest, line)?))
}

/// Reads what clients and keepers say to a primary of this guest.
#[derive(Clone, Copy)]
pub(crate) struct Reader {
    pub(crate) guest: Guest,
    /// How many inputs bring requests.
    pub(crate) requests: usize,
}

impl Reads<Said> for Reader {
    fn read(&self, input: usize, line: LineText) -> Option<Said> {
        read_said(&self.guest, self.requests, input, &line)
    }
}
