//! Packets, from a stream in any pieces.

ghost use Rattle.std.specs.Prelude.{◌≡◌, ◌≢◌, ℕ, ◌++◌, ◌∷◌, [], List, length, IfOk, OnOk};
ghost use Rattle.std.specs.Option.{option_to_list};
ghost use Rattle.gdb_packets.specs.declared.event.Event.{Event};
ghost use Rattle.gdb_packets.specs.declared.feed.Place.TheVariants.{Between, LastDigit};
ghost use Rattle.gdb_packets.specs.Streams.{Follows, IsBody, IsHeld, framed, mark};
ghost use Rattle.gdb_packets.specs.machinery.Steps.{place_after, IsInside, Says};

use crate::event::Event;
use crate::reading::read_packet;
use crate::spelling::TEXT_LIMIT;
use ft_types::Memory;
use std::alloc::Global;
use std::marker::Model;

/// Where a stream stands.
#[derive(Clone, Copy)]
enum Place {
    /// Between packets.
    Between,
    /// Behind `$`.
    Body,
    /// Behind `#`.
    Sum,
    /// Before the second digit of a sum.
    LastDigit,
}

/// A stream that comes in pieces.
#[derive(Drop)]
pub struct PacketFeed {
    place: Place,
    /// The text of the packet under way, or its first bytes, where it is too long.
    text: Vec<u8>,
}

impl Model for PacketFeed {
    ghost use Rattle.gdb_packets.specs.Streams.{Unread};

    ghost Value = { Unread };

    ghost view = { λ f. record { place = f.place; text = f.text.items } };
}

/// What a byte between packets says.
fn said_by(byte: u8) -> Option<Event>
    ensures { result ≡ mark byte }
{
    match byte {
        b'+' => Some(Event::Heard),
        b'-' => Some(Event::Again),
        3 => Some(Event::Interrupt),
        _ => None,
    }
}

/// Holds the next byte of a text.
fn hold(text: &mut Vec<u8>, byte: u8) -> Result<(), Memory>
    ensures { (rest : List ℕ) → IsHeld rest text.old.items → OnOk result (IsHeld (rest ++ byte ∷ []) text.new.items) }
{
    if text.len() <= TEXT_LIMIT {
        text.push(byte)?;
    }
    Ok(())
}

/// What the whole text says.
#[tactic(auto, using(crate::proofs::Feeds::says_packet, crate::proofs::Feeds::says_broken))]
fn whole(alloc: Global, text: &[u8]) -> Result<Event, Memory>
    ensures { (body digits : List ℕ) → IsBody body → length digits ≡ 2 → IsHeld (framed body digits) text.now →
        IfOk result (Says (framed body digits)) }
{
    match read_packet(alloc, text)? {
        Some(bytes) => Ok(Event::Packet(bytes)),
        None => Ok(Event::Broken),
    }
}

/// Where a stream stands behind a byte of a text under way.
fn next(place: Place, byte: u8) -> Place
    ensures { result ≡ place_after place byte }
{
    match place {
        Place::Body if byte != b'#' => Place::Body,
        Place::Body => Place::Sum,
        Place::Sum => Place::LastDigit,
        Place::LastDigit | Place::Between => place,
    }
}

impl PacketFeed {
    /// A stream of which nothing has come.
    pub fn new(alloc: Global) -> PacketFeed
        ensures { Follows [] [] result }
    {
        PacketFeed {
            place: Place::Between,
            text: Vec::new(alloc),
        }
    }

    /// Takes a byte that comes between packets, and gives what it says.
    fn take_between(&mut self, byte: u8) -> Result<Option<Event>, Memory>
        requires { self.old.place ≡ Between }
        ensures { (stream : List ℕ) (given : List Event) → Follows stream given self.old →
            IfOk result (λ event. Follows (stream ++ byte ∷ []) (given ++ option_to_list event) self.new) }
    {
        if byte != b'$' {
            return Ok(said_by(byte));
        }
        hold(&mut self.text, byte)?;
        self.place = Place::Body;
        Ok(None)
    }

    /// Takes the last byte of the text under way, and gives what the text says.
    fn take_last(&mut self, alloc: Global, byte: u8) -> Result<Option<Event>, Memory>
        requires { self.old.place ≡ LastDigit }
        ensures { (stream : List ℕ) (given : List Event) → Follows stream given self.old →
            IfOk result (λ event. Follows (stream ++ byte ∷ []) (given ++ option_to_list event) self.new) }
    {
        hold(&mut self.text, byte)?;
        let event = whole(alloc, &self.text)?;
        self.text.clear();
        self.place = Place::Between;
        Ok(Some(event))
    }

    /// Takes another byte of the text under way.
    fn take_more(&mut self, byte: u8) -> Result<Option<Event>, Memory>
        requires { IsInside self.old.place }
        ensures { (stream : List ℕ) (given : List Event) → Follows stream given self.old →
            IfOk result (λ event. Follows (stream ++ byte ∷ []) (given ++ option_to_list event) self.new) }
    {
        hold(&mut self.text, byte)?;
        self.place = next(self.place, byte);
        Ok(None)
    }

    /// Takes the next byte, and gives what it completes.
    fn take(&mut self, alloc: Global, byte: u8) -> Result<Option<Event>, Memory>
        ensures { (stream : List ℕ) (given : List Event) → Follows stream given self.old →
            IfOk result (λ event. Follows (stream ++ byte ∷ []) (given ++ option_to_list event) self.new) }
    {
        match self.place {
            Place::Between => self.take_between(byte),
            Place::Body | Place::Sum => self.take_more(byte),
            Place::LastDigit => self.take_last(alloc, byte),
        }
    }

    /// Takes the next piece of the stream, and gives what it completes.
    pub fn push(self, alloc: Global, piece: &[u8]) -> Result<(PacketFeed, Vec<Event>), Memory>
        // What was given so far is what stands on the stream so far, however it was cut.
        ensures given { (stream : List ℕ) (given : List Event) → Follows stream given self →
            IfOk result (λ fed. Follows (stream ++ piece.now) (given ++ fed.1.items) fed.0) }
    {
        let mut feed = self;
        let mut events = Vec::new(alloc);
        for byte in piece {
            let told = feed.take(alloc, *byte)?;
            if let Some(event) = told {
                events.push(event)?;
            }
        }
        Ok((feed, events))
    }
}
