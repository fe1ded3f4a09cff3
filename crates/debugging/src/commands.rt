//! What packets ask for.

ghost use Rattle.std.specs.Prelude.{◌≡◌, ◌⊎◌, ◌==◌, ◌||◌, ℕ, List, [], ◌∷◌, None, Some, codes};
ghost use Rattle.moments.specs.declared.points.Point.{Point as PointOf};
ghost use Rattle.debugging.specs.declared.numbers.Thread.{Thread as ThreadOf};
ghost use Rattle.debugging.specs.declared.numbers.Thread.TheVariants as Thread;
ghost use Rattle.debugging.specs.declared.commands.Way.{Way as WayOf};
ghost use Rattle.debugging.specs.declared.commands.Note.{Note as NoteOf};
ghost use Rattle.debugging.specs.declared.commands.Note.TheVariants as Note;
ghost use Rattle.debugging.specs.declared.commands.Way.TheVariants as Way;
ghost use Rattle.debugging.specs.declared.commands.Command.TheVariants as Command;
ghost use Rattle.debugging.specs.declared.commands.Other.TheVariants as Other;
ghost use Rattle.debugging.specs.declared.commands.Show.TheVariants as Show;
ghost use Rattle.debugging.specs.declared.commands.Command.{Command as CommandOf};
ghost use Rattle.debugging.specs.Commands.{kind_of, AsksFor};
ghost use Rattle.debugging.specs.Points.{IsPoint};
ghost use Rattle.debugging.specs.Asked.{IsHex, IsRange, IsThread, IsFirstAction, IsAction, AsksForAction, AsksToGo};

use crate::numbers::{Thread, cut, first_byte, is, read_hex, read_range, read_thread};
use crate::points::read_point;
use moments::Point;
use plan_lines::Bytes;

/// Where to go.
#[derive(Clone, Copy)]
pub(crate) enum Way {
    /// A step of a hart: of that of the thread with this text, or of the one that was chosen.
    Step,
    /// To a point, or to the end.
    Continue,
    /// A step of the chosen hart back.
    StepBack,
    /// Back to a point, or to the beginning.
    ContinueBack,
}

/// What is shown of the machine.
#[derive(Clone, Copy)]
pub(crate) enum Show {
    /// `?`: why it stands.
    Why,
    /// `g`: x0 to x31 and pc.
    Registers,
    /// `p N`.
    Register(u32),
    /// `m A,L`.
    Memory(Bytes),
}

/// What a session notes.
#[derive(Clone, Copy)]
pub(crate) enum Note {
    /// `H K T`: the thread of which more is asked, or that is led, behind the byte that says which.
    Choose(u8, Thread),
    /// `T T`.
    IsThere(Thread),
    /// `Z`: the point is put.
    Insert(Point),
    /// `z`: the point is taken away.
    Remove(Point),
}

/// What else a packet asks for.
#[derive(Clone, Copy)]
pub(crate) enum Other {
    /// `q..`, `Q..`, and `v..` where it is no `vCont;..`.
    Query,
    /// `D`.
    Detach,
    /// `k`.
    Kill,
    /// A packet of a form that is known, with numbers that none has.
    Wrong,
    /// Of no form that is known.
    Unknown,
}

/// What a packet asks for.
#[derive(Clone, Copy)]
pub(crate) enum Command {
    /// That something is shown.
    Show(Show),
    /// `G`, `P`, `M`, `X`, and whatever else would change the past.
    Change,
    /// That something is noted.
    Note(Note),
    /// A way to go, and the thread that goes it.
    Go(Way, Thread),
    /// Anything else.
    Other(Other),
}

/// Kinds of packets, by their first bytes.
#[derive(Clone, Copy)]
enum Kind {
    Shows,
    Changes,
    Notes,
    Asks,
    Goes,
    /// None that is known.
    Nothing,
}

/// What an action of `vCont` of this kind asks for, of any thread or of this one.
fn read_action(kind: &[u8], thread: Thread) -> Command
    ensures step { kind.now ≡ codes "s" → result ≡ Command.Go Way.Step thread }
    ensures on { kind.now ≡ codes "c" → result ≡ Command.Go Way.Continue Thread.Any }
{
    if is(kind, b"s") {
        return Command::Go(Way::Step, thread);
    }
    if is(kind, b"c") {
        return Command::Go(Way::Continue, Thread::Any);
    }
    read_signalled(kind, thread)
}

/// The same of an action with a signal, which says nothing here.
fn read_signalled(kind: &[u8], thread: Thread) -> Command {
    match kind {
        [b'S', _, _] => Command::Go(Way::Step, thread),
        [b'C', _, _] => Command::Go(Way::Continue, Thread::Any),
        _ => Command::Other(Other::Unknown),
    }
}

/// The first of the actions of `vCont`.
fn first_action(actions: &[u8]) -> &[u8]
    ensures { (action : List ℕ) → IsFirstAction actions.now action → result.now ≡ action }
{
    let (first, _) = cut(actions, b';');
    first
}

/// What the first of the actions of `vCont` asks for.
fn read_actions(actions: &[u8]) -> Command
    ensures step { (action named : List ℕ) (thread : ThreadOf) → IsFirstAction actions.now action → IsAction action 115 named → IsThread named thread →
        result ≡ Command.Go Way.Step thread }
    ensures on { (action named : List ℕ) → IsFirstAction actions.now action → IsAction action 99 named → result ≡ Command.Go Way.Continue Thread.Any }
{
    let action = first_action(actions);
    let (kind, named) = cut(action, b':');
    read_action(kind, read_thread(named))
}

/// Of a packet of a long name: `vCont`, or one that is not known.
fn read_long(packet: &[u8]) -> Command
    ensures step { (named : List ℕ) (thread : ThreadOf) → AsksForAction packet.now 115 named → IsThread named thread → result ≡ Command.Go Way.Step thread }
    ensures on { (named : List ℕ) → AsksForAction packet.now 99 named → result ≡ Command.Go Way.Continue Thread.Any }
{
    let (name, actions) = cut(packet, b';');
    if is(name, b"vCont") {
        return read_actions(actions);
    }
    read_rest(packet)
}

/// The way of a packet that names one.
fn short_way(packet: &[u8]) -> Option<Way>
    ensures step { packet.now ≡ codes "s" → result ≡ Some Way.Step }
    ensures on { packet.now ≡ codes "c" → result ≡ Some Way.Continue }
    ensures back { packet.now ≡ codes "bs" → result ≡ Some Way.StepBack }
    ensures back_on { packet.now ≡ codes "bc" → result ≡ Some Way.ContinueBack }
    ensures long { (rest : List ℕ) → packet.now ≡ 118 ∷ rest → result ≡ None }
{
    if is(packet, b"s") {
        return Some(Way::Step);
    }
    if is(packet, b"c") {
        return Some(Way::Continue);
    }
    if is(packet, b"bs") {
        return Some(Way::StepBack);
    }
    if is(packet, b"bc") {
        return Some(Way::ContinueBack);
    }
    None
}

/// Of a packet that goes somewhere.
fn read_way(packet: &[u8]) -> Command
    ensures { (way : WayOf) (thread : ThreadOf) → AsksToGo packet.now way thread → result ≡ Command.Go way thread }
{
    match short_way(packet) {
        Some(way) => Command::Go(way, Thread::Any),
        None => read_long(packet),
    }
}

/// Of a packet that chooses a thread.
fn read_choice(choice: &[u8]) -> Command
    ensures { (kind : ℕ) (named : List ℕ) (thread : ThreadOf) → choice.now ≡ kind ∷ named → IsThread named thread → result ≡ Command.Note (Note.Choose kind thread) }
{
    match first_byte(choice) {
        Some((kind, named)) => Command::Note(Note::Choose(kind, read_thread(named))),
        None => Command::Other(Other::Wrong),
    }
}

/// Of a packet that puts a point.
fn read_insert(point: &[u8]) -> Command
    ensures { (p : PointOf) → IsPoint point.now p → result ≡ Command.Note (Note.Insert p) }
{
    match read_point(point) {
        Some(point) => Command::Note(Note::Insert(point)),
        None => Command::Other(Other::Wrong),
    }
}

/// Of a packet that takes a point away.
fn read_remove(point: &[u8]) -> Command
    ensures { (p : PointOf) → IsPoint point.now p → result ≡ Command.Note (Note.Remove p) }
{
    match read_point(point) {
        Some(point) => Command::Note(Note::Remove(point)),
        None => Command::Other(Other::Wrong),
    }
}

/// Whether a packet of this kind notes something.
fn is_note(kind: u8) -> bool
    ensures { result ≡ (kind == 72 || kind == 84 || kind == 90 || kind == 122) }
{
    kind == b'H' || kind == b'T' || kind == b'Z' || kind == b'z'
}

/// Of a packet that asks whether a thread is there.
fn read_there(thread: &[u8]) -> Command
    ensures { (t : ThreadOf) → IsThread thread.now t → result ≡ Command.Note (Note.IsThere t) }
{
    Command::Note(Note::IsThere(read_thread(thread)))
}

/// Of a packet that notes something.
fn read_note(kind: u8, rest: &[u8]) -> Command
    ensures choose { (k : ℕ) (named : List ℕ) (t : ThreadOf) → kind ≡ 72 → rest.now ≡ k ∷ named → IsThread named t → result ≡ Command.Note (Note.Choose k t) }
    ensures there { (t : ThreadOf) → kind ≡ 84 → IsThread rest.now t → result ≡ Command.Note (Note.IsThere t) }
    ensures insert { (point : PointOf) → kind ≡ 90 → IsPoint rest.now point → result ≡ Command.Note (Note.Insert point) }
    ensures remove { (point : PointOf) → kind ≡ 122 → IsPoint rest.now point → result ≡ Command.Note (Note.Remove point) }
{
    match kind {
        b'H' => read_choice(rest),
        b'T' => read_there(rest),
        b'Z' => read_insert(rest),
        _ => read_remove(rest),
    }
}

/// Of a packet that asks for memory.
fn read_memory(range: &[u8]) -> Command
    ensures { (address many : ℕ) → IsRange range.now address many → result ≡ Command.Show (Show.Memory (record { first = address; length = many })) }
{
    match read_range(range) {
        Some(bytes) => Command::Show(Show::Memory(bytes)),
        None => Command::Other(Other::Wrong),
    }
}

/// Of a packet that asks for a register.
fn read_register(number: &[u8]) -> Command
    ensures { (n : ℕ) → IsHex number.now n → result ≡ Command.Show (Show.Register n) }
{
    match read_hex(number) {
        Some(number) => Command::Show(Show::Register(number)),
        None => Command::Other(Other::Wrong),
    }
}

/// Whether a packet of this kind would change the past.
fn is_change(kind: u8) -> bool
    ensures { result ≡ (kind == 71 || kind == 80 || kind == 77 || kind == 88) }
{
    kind == b'G' || kind == b'P' || kind == b'M' || kind == b'X'
}

/// Whether a packet of this kind is a query, or ends the session.
fn is_other(kind: u8) -> bool
    ensures { result ≡ (kind == 113 || kind == 81 || kind == 68 || kind == 107) }
{
    kind == b'q' || kind == b'Q' || kind == b'D' || kind == b'k'
}

/// Of a packet that is a query, or ends the session.
fn read_other(kind: u8) -> Other
    ensures query { (kind ≡ 113) ⊎ (kind ≡ 81) → result ≡ Other.Query }
    ensures detach { kind ≡ 68 → result ≡ Other.Detach }
    ensures kill { kind ≡ 107 → result ≡ Other.Kill }
{
    match kind {
        b'D' => Other::Detach,
        b'k' => Other::Kill,
        _ => Other::Query,
    }
}

/// Of a packet that names no way: a query, or one that would go from another address.
fn read_rest(packet: &[u8]) -> Command {
    match packet {
        [b'v', ..] => Command::Other(Other::Query),
        [b's' | b'c', ..] => Command::Change,
        _ => Command::Other(Other::Unknown),
    }
}

/// Whether a packet of this kind shows registers or memory.
fn is_show(kind: u8) -> bool
    ensures { result ≡ (kind == 63 || kind == 103 || kind == 112 || kind == 109) }
{
    kind == b'?' || kind == b'g' || kind == b'p' || kind == b'm'
}

/// Of a packet that shows registers or memory.
fn read_show(kind: u8, rest: &[u8]) -> Command
    ensures why { kind ≡ 63 → rest.now ≡ [] → result ≡ Command.Show Show.Why }
    ensures registers { kind ≡ 103 → rest.now ≡ [] → result ≡ Command.Show Show.Registers }
    ensures register { (n : ℕ) → kind ≡ 112 → IsHex rest.now n → result ≡ Command.Show (Show.Register n) }
    ensures memory { (address many : ℕ) → kind ≡ 109 → IsRange rest.now address many →
        result ≡ Command.Show (Show.Memory (record { first = address; length = many })) }
{
    match kind {
        b'p' => read_register(rest),
        b'm' => read_memory(rest),
        b'?' if rest.is_empty() => Command::Show(Show::Why),
        b'g' if rest.is_empty() => Command::Show(Show::Registers),
        _ => Command::Other(Other::Unknown),
    }
}

/// Whether a packet of this kind goes somewhere.
fn is_way(kind: u8) -> bool
    ensures { result ≡ (kind == 115 || kind == 99 || kind == 98 || kind == 118) }
{
    kind == b's' || kind == b'c' || kind == b'b' || kind == b'v'
}

/// The kind of a packet with this first byte.
fn kind_of(first: u8) -> Kind
    ensures { result ≡ kind_of first }
{
    if is_show(first) {
        return Kind::Shows;
    }
    if is_change(first) {
        return Kind::Changes;
    }
    if is_note(first) {
        return Kind::Notes;
    }
    if is_other(first) {
        return Kind::Asks;
    }
    if is_way(first) {
        return Kind::Goes;
    }
    Kind::Nothing
}

/// What the packet asks for.
pub(crate) fn read_command(packet: &[u8]) -> Command
    ensures { (command : CommandOf) → AsksFor packet.now command → result ≡ command }
{
    let Some((first, rest)) = first_byte(packet) else {
        return Command::Other(Other::Unknown);
    };
    match kind_of(first) {
        Kind::Shows => read_show(first, rest),
        Kind::Changes => Command::Change,
        Kind::Notes => read_note(first, rest),
        Kind::Asks => Command::Other(read_other(first)),
        Kind::Goes => read_way(packet),
        Kind::Nothing => Command::Other(Other::Unknown),
    }
}
