//! The cases of a case file.

use crate::files::{Change, File};
use crate::frames::{bytes_of_hex, stream_of, turn};
use crate::packets::packets_of;
use crate::reading::{Block, Line, LineNumber, Words, blocks_of};
use crate::sweeps::Sweep;
use std::alloc::Global;

/// Room for what is written, where a case says nothing of it.
const AMPLE: usize = 1_000_000;

/// A call of the program over files in memory, and what must come of it.
#[derive(Drop)]
pub struct Case<'t> {
    pub name: &'t str,
    pub words: Vec<String>,
    /// Whether the program's own threads run it, and not one after the other.
    pub on_threads: bool,
    pub files: Vec<File<'t>>,
    /// The file that can be made, if one can: it is empty where none can.
    pub made: &'t str,
    /// What it must hold in the end, as far as it has room, if that is known.
    holding: Option<Vec<u8>>,
    /// How many bytes it has room for.
    pub holds: usize,
    /// How many bytes standard output has room for.
    pub room: usize,
    pub status: usize,
    /// What is written to standard output in the end, as far as it has room.
    out: Vec<u8>,
    pub err: Vec<u8>,
    /// Where it is called in many ways, in which.
    pub sweep: Option<Sweep<'t>>,
}

fn text_named<'a>(texts: &'a [File<'_>], name: &str) -> Option<&'a [u8]> {
    for text in texts {
        if text.name == name {
            return Some(text.bytes.as_slice());
        }
    }
    None
}

/// The lines, each with a line feed.
fn joined(alloc: Global, content: &[Line<'_>]) -> Option<Vec<u8>> {
    let mut bytes = Vec::new(alloc);
    for line in content {
        bytes.extend_from_slice(line.text.as_bytes()).ok()?;
        bytes.push(b'\n').ok()?;
    }
    Some(bytes)
}

/// The bytes that the lines spell in hexadecimal.
fn spelled(alloc: Global, content: &[Line<'_>]) -> Option<Vec<u8>> {
    let mut bytes = Vec::new(alloc);
    for line in content {
        let some = bytes_of_hex(alloc, line.text)?;
        bytes.extend_from_slice(&some).ok()?;
    }
    Some(bytes)
}

/// The file that is named before `= TEXT`, or alone: with the bytes of that text, or of the content.
fn given<'t>(
    alloc: Global,
    texts: &[File<'_>],
    rest: &'t str,
    content: &[Line<'_>],
) -> Option<File<'t>> {
    match rest.split_once("= ") {
        Some((name, text)) => {
            let bytes = text_named(texts, text)?.to_vec(alloc).ok()?;
            Some(File::new(name.trim_end(), bytes))
        }
        None => Some(File::new(rest, joined(alloc, content)?)),
    }
}

impl<'t> Case<'t> {
    fn new(alloc: Global, name: &'t str) -> Case<'t> {
        Case {
            name,
            words: Vec::new(alloc),
            on_threads: false,
            files: Vec::new(alloc),
            made: "",
            holding: None,
            holds: AMPLE,
            room: AMPLE,
            status: 0,
            out: Vec::new(alloc),
            err: Vec::new(alloc),
            sweep: None,
        }
    }

    fn add_word(&mut self, alloc: Global, word: &str) -> Option<()> {
        self.words.push(String::from_str(alloc, word).ok()?).ok()
    }

    /// One more word, which is spelled in hexadecimal.
    fn add_spelled(&mut self, alloc: Global, word: &str) -> Option<()> {
        let bytes = bytes_of_hex(alloc, word)?;
        self.add_word(alloc, str::from_utf8(&bytes).ok()?)
    }

    fn add_words(&mut self, alloc: Global, words: &str) -> Option<()> {
        for word in words.split(' ') {
            self.add_word(alloc, word)?;
        }
        Some(())
    }

    /// Changes the last file.
    fn change(&mut self, change: Change) -> Option<()> {
        self.files.last_mut()?.change = change;
        Some(())
    }

    /// Sets what the heading of this name sets to a number.
    pub fn set(&mut self, what: &str, number: usize) -> Option<()> {
        match what {
            "front" => return self.change(Change::Front(number)),
            "failing" => return self.change(Change::Failing(number)),
            "turned" => return turn(&mut self.files.last_mut()?.bytes, number),
            "room" => self.room = number,
            "holds" => self.holds = number,
            "status" => self.status = number,
            _ => return None,
        }
        Some(())
    }

    fn make(&mut self, name: &'t str, holding: Option<Vec<u8>>) {
        self.made = name;
        self.holding = holding;
    }

    /// What the file that is made holds in the end, if it may hold this.
    pub fn wanted<'a>(&'a self, made: &'a [u8]) -> &'a [u8] {
        match &self.holding {
            Some(bytes) => bytes.get(..self.holds).unwrap_or(bytes),
            None => made,
        }
    }

    /// What is written to standard output in the end.
    pub fn wanted_out(&self) -> &[u8] {
        self.out.get(..self.room).unwrap_or(&self.out)
    }

    /// Takes packets: the file that is made, or one that can be read.
    fn take_packets(
        &mut self,
        alloc: Global,
        verb: &str,
        name: &'t str,
        content: &[Line<'t>],
    ) -> Option<()> {
        let packets = packets_of(alloc, content)?;
        if verb == "packets" {
            return self.files.push(File::new(name, packets)).ok();
        }
        self.make(name, Some(packets));
        Some(())
    }

    /// Takes a stream of frames: the file that is made, or one that can be read.
    fn take_frames(
        &mut self,
        alloc: Global,
        texts: &[File<'t>],
        verb: &str,
        rest: &'t str,
        block: &Block<'t>,
    ) -> Result<(), LineNumber> {
        let number = block.heading.number;
        let (name, image) = rest.split_once(" of ").ok_or(number)?;
        let image = text_named(texts, image).ok_or(number)?;
        let stream = stream_of(alloc, image, block)?;
        if verb == "frames" {
            self.files.push(File::new(name, stream)).ok().ok_or(number)?;
        } else {
            self.make(name, Some(stream));
        }
        Ok(())
    }

    /// Takes bytes that must come out, or are in a file.
    fn take_bytes(
        &mut self,
        alloc: Global,
        texts: &[File<'t>],
        verb: &str,
        rest: &'t str,
        content: &[Line<'t>],
    ) -> Option<()> {
        let file = given(alloc, texts, rest, content)?;
        match verb {
            "file" => self.files.push(file).ok()?,
            "makes" => self.make(file.name, Some(file.bytes)),
            "out" => self.out.extend_from_slice(&file.bytes).ok()?,
            _ => self.err.extend_from_slice(&file.bytes).ok()?,
        }
        Some(())
    }

    /// Takes what a heading says that has no content.
    fn take_plain(&mut self, alloc: Global, verb: &str, rest: &'t str) -> Option<()> {
        match verb {
            "words" => return self.add_words(alloc, rest),
            "word" => return self.add_word(alloc, rest),
            "spelled" => return self.add_spelled(alloc, rest),
            "threads" => self.on_threads = true,
            "unread" => self.files.last_mut()?.is_unread = true,
            "makes-any" => self.make(rest, None),
            "each" => self.sweep = Some(Sweep::of_words(Words::new(rest))?),
            _ => return self.set(verb, Words::new(rest).size()?),
        }
        Some(())
    }

    /// Takes what a block of the case says.
    fn take(
        &mut self,
        alloc: Global,
        texts: &[File<'t>],
        verb: &str,
        rest: &'t str,
        block: &Block<'t>,
    ) -> Result<(), LineNumber> {
        let taken = match verb {
            "frames" | "makes frames" => {
                return self.take_frames(alloc, texts, verb, rest, block);
            }
            "packets" | "makes packets" => self.take_packets(alloc, verb, rest, &block.content),
            "file" | "makes" | "out" | "err" => {
                self.take_bytes(alloc, texts, verb, rest, &block.content)
            }
            _ => self.take_plain(alloc, verb, rest),
        };
        taken.ok_or(block.heading.number)
    }
}

/// What a heading asks for, and the rest of it.
fn parted(heading: &str) -> (&str, &str) {
    for verb in ["makes frames", "makes packets"] {
        if let Some(rest) = heading.strip_prefix(verb) {
            return (verb, rest.trim_start());
        }
    }
    heading.split_once(' ').unwrap_or((heading, ""))
}

/// The named texts and the cases so far.
#[derive(Drop)]
struct Told<'t> {
    texts: Vec<File<'t>>,
    cases: Vec<Case<'t>>,
}

impl<'t> Told<'t> {
    fn add_text(&mut self, name: &'t str, bytes: Vec<u8>) -> Option<()> {
        self.texts.push(File::new(name, bytes)).ok()
    }

    /// Takes the beginning of a case, or a text.
    fn begin(
        &mut self,
        alloc: Global,
        verb: &str,
        name: &'t str,
        content: &[Line<'t>],
    ) -> Option<()> {
        match verb {
            "text" => self.add_text(name, joined(alloc, content)?),
            "bytes" => self.add_text(name, spelled(alloc, content)?),
            _ => self.cases.push(Case::new(alloc, name)).ok(),
        }
    }

    /// Takes a block: a text, a case, or something of the last case.
    fn take(&mut self, alloc: Global, block: &Block<'t>) -> Result<(), LineNumber> {
        let Line { number, text } = block.heading;
        let (verb, rest) = parted(text);
        match verb {
            "text" | "bytes" | "case" => {
                self.begin(alloc, verb, rest, &block.content).ok_or(number)
            }
            _ => {
                let case = self.cases.last_mut().ok_or(number)?;
                case.take(alloc, &self.texts, verb, rest, block)
            }
        }
    }
}

/// The cases of a case file.
pub fn cases_of(alloc: Global, text: &str) -> Result<Vec<Case<'_>>, LineNumber> {
    let mut told = Told {
        texts: Vec::new(alloc),
        cases: Vec::new(alloc),
    };
    let blocks = blocks_of(alloc, text)?;
    for block in &blocks {
        told.take(alloc, block)?;
    }
    Ok(told.cases)
}
