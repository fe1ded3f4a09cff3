//! Lists of events.

ghost use Rattle.std.specs.Prelude.{◌≡◌, ◌⊎◌, ℕ, List, IfOk, IfErr, MatchResult};
ghost use Rattle.scripts.specs.declared.fault.EventsFault.{EventsFault};
ghost use Rattle.scripts.specs.declared.event.Event.{Event as event_of_specs};
ghost use Rattle.scripts.specs.Events.{MayAllHappen, events_text, IsFault, AreSame};

use crate::event::Event;
use crate::event_lines::read_line;
use crate::fault::EventsFault;
use std::alloc::Global;
use std::vec::Vec;

/// Reads line by line, up to the first one at fault.
fn read_lines(alloc: Global, bytes: &[u8], harts: u8) -> Result<Vec<Event>, EventsFault>
    ensures found { IfOk result (λ events. MayAllHappen harts events.items × (bytes.now ≡ events_text events.items)) }
    ensures fault { IfErr result (λ e. IsFault harts bytes.now e) }
{
    let mut events = Vec::new(alloc);
    let mut rest = bytes;
    while rest.len() > 0 {
        let Some((event, behind)) = read_line(alloc, harts, rest)? else {
            return Err(EventsFault::BadLine(events.len() as u64 + 1));
        };
        if events.push(event).is_err() {
            return Err(EventsFault::Memory);
        }
        rest = behind;
    }
    Ok(events)
}

/// Reads a list of events for this number of harts.
pub fn read_events(alloc: Global, bytes: &[u8], harts: u8) -> Result<Vec<Event>, EventsFault>
    // What is read is spelled so.
    ensures found { IfOk result (λ events. MayAllHappen harts events.items × (bytes.now ≡ events_text events.items)) }
    // The first line at fault decides.
    ensures fault { IfErr result (λ e. IsFault harts bytes.now e) }
    // What is spelled so is read, unless memory runs out.
    ensures only { (wanted : List event_of_specs) → MayAllHappen harts wanted → bytes.now ≡ events_text wanted →
        MatchResult result (λ events. AreSame events.items wanted) (λ e. e ≡ EventsFault.Memory) }
    // A list with a line at fault has that fault, unless memory runs out.
    ensures exact { (line : ℕ) → IsFault harts bytes.now (EventsFault.BadLine line) → MatchResult result (λ _. ⊥) (λ e. (e ≡ EventsFault.Memory) ⊎
        (e ≡ EventsFault.BadLine line)) }
{
    read_lines(alloc, bytes, harts)
}
