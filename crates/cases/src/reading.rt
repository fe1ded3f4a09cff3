//! The lines of a case file: headings, and the content below each; and the words of a line.
//!
//! `#` begins a comment; lines that begin with two spaces are the content of the line above, without them.
//!
//! text NAME                      named text: the lines below, each with a line feed
//! bytes NAME                     named bytes: the lines below, in hex
//! case WHAT IT SHOWS             begins a case
//! words run image script 9 out   words for the program, by one space; several lines append
//! word TEXT                      one more, as it stands
//! spelled HEX                    one more, by its bytes
//! threads                        by the program's threads, else in turn; `pair` wants it
//! file FILE                      a file that it finds: the lines below
//! file FILE = NAME               the same, named
//! frames FILE of IMAGE           frames of the guest of the named image, by parts:
//!   opening TERM PARENT BASE..
//!   piece TERM HART PLACE FROM TO [RECORD..]   edge AT OTHER AFTER, word AT XXXXXXXX, timer AT, bell AT HART, note AT NUMBER
//!   bytes HEX
//!   cut N, turn N                of the last frame only its first N bytes; byte N with its highest bit turned
//! front N, turned N, failing N   the same of the last file; a read fails after N
//! unread                         nothing of it may be read
//! each front M N, each failing M N, each room M N, each holds M N   one call for each number from M to N
//! each byte M N XX YY            one call for each byte from M to N of the last file, and each other value from XX to YY in its place
//! makes FILE, makes frames FILE of IMAGE, makes FILE = NAME   the file that is made, and what it must hold
//! makes-any FILE                 a file may be made, whatever it holds
//! holds N                        there is room for N bytes in it
//! room N                         room for N bytes on standard output: so much of it comes
//! status N                       0 if left out
//! out, out = NAME, err, err = NAME   what is written: the lines below, or a named text; several in order

use ft_types::{HART_LIMIT, Hart};
use std::alloc::Global;

/// A line's number, from 1 on. As an error it says which line is at fault.
pub type LineNumber = usize;

/// A line.
#[derive(Clone, Copy)]
pub struct Line<'t> {
    pub number: LineNumber,
    pub text: &'t str,
}

/// A heading, and the lines of its content without their indent.
#[derive(Drop)]
pub struct Block<'t> {
    pub heading: Line<'t>,
    pub content: Vec<Line<'t>>,
}

/// Takes one more line: an indented one is content, and an empty one or a comment is passed over.
fn add_line<'t>(
    alloc: Global,
    blocks: &mut Vec<Block<'t>>,
    number: LineNumber,
    text: &'t str,
) -> Option<()> {
    if let Some(text) = text.strip_prefix("  ") {
        let block = blocks.last_mut()?;
        return block.content.push(Line { number, text }).ok();
    }
    match text.as_bytes() {
        [] | [b'#', ..] => Some(()),
        _ => {
            let content = Vec::new(alloc);
            let heading = Line { number, text };
            blocks.push(Block { heading, content }).ok()
        }
    }
}

/// The headings of a case file with their content.
pub fn blocks_of<'t>(alloc: Global, text: &'t str) -> Result<Vec<Block<'t>>, LineNumber> {
    let mut blocks = Vec::new(alloc);
    let mut number = 0usize;
    for line in text.lines() {
        number = number.wrapping_add(1);
        if add_line(alloc, &mut blocks, number, line).is_none() {
            return Err(number);
        }
    }
    Ok(blocks)
}

/// The words of a line, which a space parts, and which are taken one by one.
#[derive(Drop)]
pub struct Words<'t> {
    rest: &'t str,
}

impl<'t> Words<'t> {
    /// The words of a line without its line feed, none of them taken yet.
    pub fn new(text: &'t str) -> Words<'t> {
        Words { rest: text }
    }

    /// How many there are, at the most.
    pub fn most(&self) -> usize {
        self.rest.len()
    }

    /// Whether all are taken.
    pub fn is_done(&self) -> bool {
        self.rest.is_empty()
    }

    /// The next one: `None` where all are taken.
    pub fn word(&mut self) -> Option<&'t str> {
        if self.rest.is_empty() {
            return None;
        }
        let (word, rest) = match self.rest.split_once(' ') {
            Some(parts) => parts,
            None => (self.rest, ""),
        };
        self.rest = rest;
        Some(word)
    }

    /// The number that the next one spells in decimal: `None` where it spells none below 2^64.
    pub fn number(&mut self) -> Option<u64> {
        self.word()?.parse::<u64>().ok()
    }

    /// As `number`, a count of bytes or items.
    pub fn size(&mut self) -> Option<usize> {
        Some(self.number()? as usize)
    }

    /// As `number`: `None` also from 2^32 on.
    pub fn small(&mut self) -> Option<u32> {
        match u32::try_from(self.number()?) {
            Ok(number) => Some(number),
            Err(_) => None,
        }
    }

    /// The hart of the number that the next one spells: `None` where no guest has one of that number.
    pub fn hart(&mut self) -> Option<Hart> {
        match self.number()? {
            number if number < u64::from(HART_LIMIT) => Some(Hart::new(number as u8)),
            _ => None,
        }
    }

    /// The word that the next one spells in hexadecimal.
    pub fn spelled(&mut self) -> Option<u32> {
        u32::from_str_radix(self.word()?, 16).ok()
    }

    /// The byte that the next one spells in hexadecimal.
    pub fn byte(&mut self) -> Option<u8> {
        u8::from_str_radix(self.word()?, 16).ok()
    }
}
