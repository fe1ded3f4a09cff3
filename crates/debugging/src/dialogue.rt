//! What gdb sends, in pieces, and what is sent back.

ghost use Rattle.std.specs.Prelude.{◌≡◌, ◌++◌, ◌||◌, [], ℕ, List, false, codes, IfOk, OnOk};
ghost use Rattle.gdb_packets.specs.declared.event.Event.{Event as EventOf};
ghost use Rattle.gdb_packets.specs.Packets.{spelling};
ghost use Rattle.gdb_packets.specs.Streams.{Follows};
ghost use Rattle.debugging.specs.Conversations.{conversation_at, sign, packet_of, last_of, is_last, Hears, HearsNext, HearsPacket, HasHeard};
ghost use Rattle.debugging.specs.machinery.Added.{Adds};

use crate::numbers::is;
use crate::session::{Answer, Session};
use ft_types::Memory;
use gdb_packets::{Event, PacketFeed, write_packet};
use moments::Timeline;
use std::alloc::Global;
use std::marker::Model;

/// A dialogue with gdb over a timeline.
#[derive(Drop)]
pub struct Dialogue {
    feed: PacketFeed,
    conversation: Conversation,
}

impl Model for Dialogue {
    ghost use Rattle.debugging.specs.Conversations.{DialogueView};

    ghost Value = { DialogueView };

    ghost view = { λ d. record { feed = d.feed; conversation = d.conversation } };
}

/// A session, and what was said in it.
#[derive(Drop)]
struct Conversation {
    session: Session,
    /// The packet that was sent last; empty before the first.
    last: Vec<u8>,
    /// Whether a packet that came is acknowledged.
    acknowledges: bool,
    is_over: bool,
}

impl Model for Conversation {
    ghost use Rattle.debugging.specs.Conversations.{ConversationView};

    ghost Value = { ConversationView };

    ghost view = { λ c. record { session = c.session; last = c.last.items; acknowledges = c.acknowledges; is_over = c.is_over } };
}

/// Whether packets are acknowledged once this one came.
fn acknowledges_behind(acknowledges: bool, packet: &[u8]) -> bool
    ensures quiet { packet.now ≡ codes "QStartNoAckMode" → result ≡ false }
    ensures other { (packet.now ≡ codes "QStartNoAckMode" → ⊥) → result ≡ acknowledges }
{
    if is(packet, b"QStartNoAckMode") {
        return false;
    }
    acknowledges
}

impl Conversation {
    /// Sends the packet that says this, and keeps it.
    fn send(&mut self, alloc: Global, said: &mut Vec<u8>, text: &[u8]) -> Result<(), Memory>
        ensures said { OnOk result (said.new.items ≡ said.old.items ++ spelling text.now) }
        ensures last { OnOk result (self.new ≡ record self.old { last = spelling text.now }) }
    {
        let packet = write_packet(alloc, text)?;
        said.extend_from_slice(&packet)?;
        self.last = packet;
        Ok(())
    }

    /// Says an answer.
    fn say(&mut self, alloc: Global, said: &mut Vec<u8>, answer: Answer) -> Result<(), Memory>
        ensures said { OnOk result (said.new.items ≡ said.old.items ++ packet_of answer) }
        ensures last { OnOk result (self.new ≡ record self.old {
          last = last_of answer self.old.last;
          is_over = is_last answer || self.old.is_over;
        }) }
    {
        match answer {
            Answer::Says(text) => self.send(alloc, said, &text),
            Answer::SaysLast(text) => {
                self.is_over = true;
                self.send(alloc, said, &text)
            }
            Answer::Over => {
                self.is_over = true;
                Ok(())
            }
        }
    }

    /// Sends once more what was sent last.
    fn say_again(&self, said: &mut Vec<u8>) -> Result<(), Memory>
        ensures { OnOk result (said.new.items ≡ said.old.items ++ self.now.last) }
    {
        said.extend_from_slice(&self.last)?;
        Ok(())
    }

    /// Says, where that is wanted, whether a packet came.
    fn acknowledge(&self, said: &mut Vec<u8>, byte: u8) -> Result<(), Memory>
        ensures { OnOk result (said.new.items ≡ said.old.items ++ sign self.now byte) }
    {
        if self.acknowledges {
            said.push(byte)?;
        }
        Ok(())
    }

    /// Answers a packet.
    fn answer(&mut self, alloc: Global, said: &mut Vec<u8>, packet: &[u8]) -> Result<(), Memory>
        ensures { OnOk result (Adds said.old.items said.new.items (HearsPacket packet.now self.old self.new)) }
    {
        self.acknowledge(said, b'+')?;
        let answer = self.session.answer(alloc, packet)?;
        self.acknowledges = acknowledges_behind(self.acknowledges, packet);
        self.say(alloc, said, answer)?;
        Ok(())
    }

    /// Hears what gdb sends. An interrupt says nothing: nothing goes on when it is heard.
    #[tactic(auto, using(crate::proofs::Sending::nothing_heard, crate::proofs::Sending::nothing_interrupted))]
    fn hear(&mut self, alloc: Global, said: &mut Vec<u8>, event: &Event) -> Result<(), Memory>
        ensures { OnOk result (Adds said.old.items said.new.items (Hears event.now self.old self.new)) }
    {
        match event {
            Event::Packet(packet) => self.answer(alloc, said, packet.as_slice()),
            Event::Broken => self.acknowledge(said, b'-'),
            Event::Again => self.say_again(said),
            Event::Heard | Event::Interrupt => Ok(()),
        }
    }

    /// Hears what gdb sends, until gdb has gone.
    #[tactic(auto, using(crate::proofs::Sending::none_heard))]
    fn hear_next(&mut self, alloc: Global, said: &mut Vec<u8>, event: &Event) -> Result<(), Memory>
        ensures { OnOk result (Adds said.old.items said.new.items (HearsNext event.now self.old self.new)) }
    {
        if self.is_over {
            return Ok(());
        }
        self.hear(alloc, said, event)
    }
}

impl Dialogue {
    /// A dialogue of which nothing was said, with a session that stands where the timeline does.
    pub fn begin(alloc: Global, line: Timeline) -> Dialogue
        ensures feed { Follows [] [] result.feed }
        ensures conversation { result.conversation ≡ conversation_at line }
    {
        Dialogue {
            feed: PacketFeed::new(alloc),
            conversation: Conversation {
                session: Session::begin(alloc, line),
                last: Vec::new(alloc),
                acknowledges: true,
                is_over: false,
            },
        }
    }

    /// Hears the next piece of what gdb sends, and gives what is sent back.
    pub fn hear(self, alloc: Global, piece: &[u8]) -> Result<(Dialogue, Vec<u8>), Memory>
        // Each event of the stream is answered as it must be, however the stream was cut, and nothing else is sent.
        ensures heard { (stream : List ℕ) (given : List EventOf) → Follows stream given self.feed →
            IfOk result (λ heard. HasHeard stream given piece.now self heard.0 heard.1.items) }
    {
        let Dialogue {
            feed,
            mut conversation,
        } = self;
        let (feed, events) = feed.push(alloc, piece)?;
        let mut said = Vec::new(alloc);
        for event in &events {
            conversation.hear_next(alloc, &mut said, event)?;
        }
        Ok((Dialogue { feed, conversation }, said))
    }

    /// Whether gdb has gone.
    pub fn is_over(&self) -> bool
        ensures { result ≡ self.now.conversation.is_over }
    {
        self.conversation.is_over
    }
}
