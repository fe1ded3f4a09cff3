//! Inputs that go from the queues to the machine.

ghost use Rattle.std.specs.Prelude.{◌≡◌, ◌≢◌, ◌<◌, ◌≤◌, ◌↔◌, ℕ, false, None, Some, length, slice_get, IfOk, IfSome, IfNone, OnOk, OnErr};
ghost use Rattle.input_log.specs.Inputs.{is_bell};
ghost use Rattle.input_log.specs.Waiting.{bells_of, others_of};
ghost use Rattle.rv32_hart.specs.Hart.{Hart as HartRecord};
ghost use Rattle.primary.specs.Primaries.{GoesOn};
ghost use Rattle.requests.specs.declared.queue.TheConstants.{WORD_LIMIT};
ghost use Rattle.leading.specs.Leaders.{AreInLimit, BeginBehind, queue_at};
ghost use Rattle.leading.specs.Rounds.{Hands, NoneIsHanded, may_take, next_of, spacing_of};

use ft_types::{Hart, Memory};
use guest_image::Machine;
use input_log::Input;
use primary::{Primary, tell_primary};
use requests::Queue;
use rv32_hart::HartState;
use std::alloc::Global;
use std::option::Option;
use std::result::Result;

/// How many steps a hart has behind an acknowledgement, to read the word, before it is given the next one.
const SPACING: u64 = 64;

/// When a hart is handed its next input.
#[derive(Clone, Copy)]
pub enum Spacing {
    /// At its next step: it is known to have read the word before.
    None,
    /// `SPACING` steps later at the earliest.
    Usual,
}

/// The bit of mip that a word sets, and whose clearing is a hart's acknowledgement.
const WORD_BIT: u32 = 1 << 11;

/// How many words the hart was given.
fn given(state: &HartState) -> u32
    ensures value { result ≡ state.now.received.input_sequence }
    ensures limit { result ≤ WORD_LIMIT }
{
    state.device_words()[1]
}

/// Whether the hart may be handed an input: it is not halted, and has acknowledged the word before.
fn is_ready(state: &HartState) -> bool
    ensures { result ≡ may_take state.now }
{
    !state.is_halted() && state.csr_words()[2] & WORD_BIT == 0
}

/// A queue for each hart, behind the words that it was given.
pub(crate) fn queues_of(alloc: Global, machine: &Machine) -> Result<Vec<Queue>, Memory>
    ensures harts { IfOk result (λ queues. length queues.items ≡ length machine.now.harts) }
    ensures behind { IfOk result (λ queues. BeginBehind machine.now queues.items) }
    ensures limit { OnOk result (AreInLimit machine.now) }
{
    let mut queues = Vec::new(alloc);
    for number in 0..machine.harts() {
        let words = given(machine.hart(Hart::new(number)));
        queues.push(Queue::new(alloc, words))?;
    }
    Ok(queues)
}

/// The input that the hart is handed next.
fn next_input(state: &HartState, queue: &Queue) -> Option<Input>
    ensures next { result ≡ next_of state.now queue.now }
    ensures some { IfSome result (λ input. (next_of state.now queue.now ≡ Some input) × (is_bell input ≡ false)) }
    ensures none { IfNone result (next_of state.now queue.now ≡ None) }
{
    if is_ready(state) {
        queue.next(given(state))
    } else {
        None
    }
}

/// Whether a hart would be handed an input.
pub(crate) fn has_input(machine: &Machine, queues: &[Queue]) -> bool
    requires { length queues.now ≡ length machine.now.harts }
    ensures { (result ≡ false) ↔ NoneIsHanded machine.now queues.now }
{
    for number in 0..machine.harts() {
        let hart = Hart::new(number);
        let state = machine.hart(hart);
        let queue = &queues[hart.index()];
        if next_input(state, queue).is_some() {
            return true;
        }
    }
    false
}

/// How many steps go by first, at the least.
fn steps_before(spacing: Spacing) -> u64
    ensures { result ≡ spacing_of spacing }
{
    match spacing {
        Spacing::None => 0,
        Spacing::Usual => SPACING,
    }
}

/// Hands the hart the next input, where there is one.
fn hand_one(
    primary: &mut Primary,
    hart: Hart,
    queue: &mut Queue,
    spacing: Spacing,
) -> Result<(), Memory>
    requires hart { hart < length primary.old.book.machine.harts }
    ensures hands { OnOk result ((h : HartRecord) → slice_get primary.old.book.machine.harts hart ≡ Some h →
        Hands spacing (next_of h queue.old) hart h.count queue.old queue.new primary.old.book.mode primary.new.book.mode) }
    ensures err { OnErr result (queue.new ≡ queue.old) }
    // In either case:
    ensures goes_on { GoesOn primary.old.book primary.new.book }
    ensures rest { primary.new ≡ record primary.old { book = record primary.old.book { mode = primary.new.book.mode } } }
    ensures limits { primary.new.book.mode.limits ≡ primary.old.book.mode.limits }
    // Of the book nothing is another but what waits, and of that no bell.
    ensures waiting { primary.new.book.mode ≡ record primary.old.book.mode { desk = primary.new.book.mode.desk } }
    ensures bells { (hart : ℕ) → bells_of primary.new.book.mode.desk hart ≡ bells_of primary.old.book.mode.desk hart }
    ensures others { (other : ℕ) → other ≢ hart → others_of primary.new.book.mode.desk other ≡ others_of primary.old.book.mode.desk other }
{
    // proof: its log is honest.
    tell_primary(&primary.book);
    let state = primary.book.machine().hart(hart);
    let Some(input) = next_input(state, queue) else {
        return Ok(());
    };
    let not_before = state.count() + steps_before(spacing);
    primary.offer(hart, not_before, input)?;
    queue.hand_on();
    Ok(())
}

/// Hands each hart its next input, where there is one.
pub(crate) fn hand_all(
    primary: &mut Primary,
    queues: &mut Vec<Queue>,
    spacing: Spacing,
) -> Result<(), Memory>
    requires harts { length queues.old.items ≡ length primary.old.book.machine.harts }
    ensures hands { OnOk result ((hart : ℕ) (h : HartRecord) → slice_get primary.old.book.machine.harts hart ≡ Some h →
        Hands spacing (next_of h (queue_at queues.old.items hart)) hart h.count (queue_at queues.old.items hart) (queue_at queues.new.items hart)
        primary.old.book.mode primary.new.book.mode) }
    // In either case:
    ensures goes_on { GoesOn primary.old.book primary.new.book }
    ensures rest { primary.new ≡ record primary.old { book = record primary.old.book { mode = primary.new.book.mode } } }
    ensures limits { primary.new.book.mode.limits ≡ primary.old.book.mode.limits }
    // Of the book nothing is another but what waits, and of that no bell.
    ensures waiting { primary.new.book.mode ≡ record primary.old.book.mode { desk = primary.new.book.mode.desk } }
    ensures bells { (hart : ℕ) → bells_of primary.new.book.mode.desk hart ≡ bells_of primary.old.book.mode.desk hart }
    ensures many { length queues.new.items ≡ length queues.old.items }
{
    // proof: its log is honest, and its machine has no more harts than a machine may.
    tell_primary(&primary.book);
    let _harts = primary.book.machine().harts();
    for number in 0..queues.len() {
        hand_one(
            primary,
            Hart::new(number as u8),
            &mut queues[number],
            spacing,
        )?;
    }
    Ok(())
}
