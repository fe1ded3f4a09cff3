//! Requests by their numbers: what a queue takes of a list of them and in which order it offers that, and what a client asks for, hears
//! and tells.

use crate::lines::{is_line, text_of, without_line_feed};
use crate::tables::{all_right, number, row, word};
use asking::{Heard, Talk, WordsFault, read_words, told_line};
use ft_types::{Count, Hart, Memory, Output, read_number, read_word};
use input_log::Input;
use requests::{Asker, Came, QUEUE_ROOM, Queue, WORD_LIMIT};
use std::alloc::Global;
use wire::{Answer, Request, request_line};

/// The word and the number that are asked for, where there is one.
fn numbered(asked: &str) -> (u32, Option<Count>) {
    let (first, behind) = word(asked);
    let word = read_word(first.as_bytes()).unwrap_or(0);
    (word, read_number(behind.as_bytes()))
}

/// What becomes of a word.
fn takes(queue: &mut Queue, word: u32, number: Option<Count>) -> Result<&'static str, Memory> {
    Ok(match queue.put_word(word, number)? {
        Came::Taken => "taken",
        Came::Repeat => "repeat",
        Came::Ahead => "ahead",
        Came::Full => "full",
        Came::Busy => "busy",
    })
}

fn timer(queue: &mut Queue) -> Result<bool, Memory> {
    Ok(queue.put_timer()? == Came::Taken)
}

/// How many of the timer's interrupts a queue takes before it has no room for one.
fn timers_taken(queue: &mut Queue) -> Result<usize, Memory> {
    for taken in 0..=QUEUE_ROOM {
        if queue.put_timer()? == Came::Busy {
            return Ok(taken);
        }
    }
    Ok(usize::MAX)
}

/// Whether the queue offers this, where each word is given before the next is asked for.
fn gives(queue: &mut Queue, answer: &str) -> bool {
    let right = match queue.next(queue.handed()) {
        Some(Input::Word(word)) => read_word(answer.as_bytes()) == Some(word),
        Some(Input::Timer) => answer == "timer",
        Some(Input::Bell(_)) => false,
        None => answer == "nothing",
    };
    queue.hand_on();
    right
}

/// Whether so many words came in all, and the queue offers nothing to a hart that was given six of them, or eight.
fn has(queue: &Queue, answer: &str) -> bool {
    number(answer) == u64::from(queue.words()) && queue.next(6).is_none() && queue.next(8).is_none()
}

/// Whether a queue answers what is asked so.
fn does(queue: &mut Queue, asked: &str, answer: &str) -> Result<bool, Memory> {
    match asked {
        "timer" => timer(queue),
        "next" => Ok(gives(queue, answer)),
        "words" => Ok(has(queue, answer)),
        "timers" => Ok(timers_taken(queue)? as u64 == number(answer)),
        _ => {
            let (word, number) = numbered(asked);
            Ok(takes(queue, word, number)? == answer)
        }
    }
}

/// The first row that a queue behind so many words answers otherwise.
fn first_wrong(
    alloc: Global,
    words: u32,
    rows: &'static str,
) -> Result<Option<&'static str>, Memory> {
    let mut queue = Queue::new(alloc, words);
    for line in rows.lines() {
        let (asked, answer) = row(line);
        if !does(&mut queue, asked, answer)? {
            return Ok(Some(line));
        }
    }
    Ok(None)
}

/// Words, their numbers, and what becomes of them in a queue that begins behind seven words; then the words in their order, each once.
static ASKED: &str = "\
00000070 7|taken
00000070 7|repeat
00000090 9|ahead
00000080 8|taken
00000099|taken
00000090 9|repeat
00000100 10|taken
00000000 0|repeat
00000001 281474976710655|ahead
timer|
words|11
next|00000070
next|00000080
next|00000099
next|00000100
next|timer
next|nothing
next|nothing
";

/// Behind as many words as there may be.
static FULL: &str = "\
00000001|full
00000001 4294967295|full
00000001 4294967294|repeat
00000001 4294967296|ahead
";

/// Behind seven words, where one waits and then as much as there is room for.
static BUSY: &str = "\
00000070 7|taken
timers|1023
00000080 8|busy
00000080|busy
00000070 7|repeat
00000090 9|ahead
next|00000070
00000080 8|taken
00000090 9|busy
next|timer
00000090 9|taken
";

#[test]
fn words_by_number(rt: HostRuntime) -> Result<(), Memory> {
    all_right(&rt, first_wrong(rt.alloc(), 7, ASKED)?);
    all_right(&rt, first_wrong(rt.alloc(), WORD_LIMIT, FULL)?);
    all_right(&rt, first_wrong(rt.alloc(), 7, BUSY)?);
    Ok(())
}

/// Whether a client asks for this.
fn asks(talk: &mut Talk, answer: &str) -> bool {
    match talk.ask() {
        Some(request) => is_line(&request_line(&request), answer.as_bytes()),
        None => answer == "nothing",
    }
}

/// Adds the lines of requests, each with a semicolon.
fn add_requests(texts: &mut Vec<u8>, requests: &[Request]) -> Result<(), Memory> {
    for request in requests {
        texts.extend_from_slice(text_of(&request_line(request)))?;
        texts.push(b';')?;
    }
    Ok(())
}

/// Whether a client asks again for this.
fn asks_again(alloc: Global, talk: &Talk, answer: &str) -> Result<bool, Memory> {
    let mut texts = Vec::new(alloc);
    add_requests(&mut texts, talk.ask_again(alloc)?.as_slice())?;
    Ok(texts.as_slice() == answer.as_bytes())
}

/// What a line is to a client.
fn hears(talk: &mut Talk, text: &str) -> &'static str {
    match talk.hear(text.as_bytes()) {
        Heard::New => "new",
        Heard::Known => "known",
        Heard::Contradiction => "contradiction",
        Heard::Foreign => "foreign",
    }
}

/// Whether a client tells this.
fn tells(talk: &mut Talk, answer: &str) -> bool {
    match talk.tell() {
        Some(told) => without_line_feed(told_line(&told).as_slice()) == answer.as_bytes(),
        None => answer == "nothing",
    }
}

/// Whether so many answers were told, and the client is done or not.
fn has_told(talk: &Talk, is_done: bool, answer: &str) -> bool {
    number(answer) == talk.told() as u64 && talk.is_done() == is_done
}

/// Whether a client does this: it hears what is none of these words.
fn goes(alloc: Global, talk: &mut Talk, turn: &str, answer: &str) -> Result<bool, Memory> {
    match turn {
        "ask" => Ok(asks(talk, answer)),
        "again" => asks_again(alloc, &*talk, answer),
        "tell" => Ok(tells(talk, answer)),
        "open" => Ok(has_told(&*talk, false, answer)),
        "done" => Ok(has_told(&*talk, true, answer)),
        _ => Ok(hears(talk, turn) == answer),
    }
}

/// The first turn that a client of three words, of which two may be open, takes otherwise.
fn first_astray(alloc: Global, rows: &'static str) -> Result<Option<&'static str>, Memory> {
    let words = [5, 6, 7].to_vec(alloc)?;
    let mut talk = Talk::new(alloc, words, 2)?;
    for line in rows.lines() {
        let (turn, answer) = row(line);
        if !goes(alloc, &mut talk, turn, answer)? {
            return Ok(Some(line));
        }
    }
    Ok(None)
}

/// Answers that come out of their order are told in it, each once.
static TURNS: &str = "\
ask|0 word 00000005 0
ask|0 word 00000006 1
ask|nothing
term 1 hart 0 number 1 step 101 word 00000010|new
number 0 word 0000000f|foreign
tell|nothing
term 1 hart 1 number 0 step 100 word 0000000f|foreign
term 1 hart 0 number 2 step 102 word 00000011|foreign
term 1 hart 0 number 1 step 101 word 00000010|known
term 1 hart 0 number 1 step 101 word 00000011|contradiction
term 1 hart 0 number 1 step 101 word 00000010|known
term 1 hart 0 number 281474976710655 step 155 word 00000010|foreign
again|0 from 0;0 word 00000005 0;
term 2 hart 0 number 0 step 100 word 0000000f|new
tell|number 0 word 0000000f
tell|number 1 word 00000010
tell|nothing
open|2
ask|0 word 00000007 2
ask|nothing
again|0 from 2;0 word 00000007 2;
term 1 hart 0 number 2 step 102 word 00000011|new
again|0 from 3;
tell|number 2 word 00000011
done|3
";

/// A client of hart 1 asks for its word, and hears what hart 1 answers.
fn asks_hart_1(alloc: Global) -> Result<bool, Memory> {
    let hart = Hart::new(1);
    let mut asker = Asker::new(alloc, hart, [5].to_vec(alloc)?, 1)?;
    let number = Some(0);
    let word = Request::Word {
        hart,
        word: 5,
        number,
    };
    let output = Output {
        hart,
        number: 0,
        step: 9,
        word: 15,
    };
    Ok(asker.next() == Some(word) && asker.hear(&Answer { term: 1, output }) == Heard::New)
}

/// Whether a file is of these words, or at fault in this line.
fn is_of_words(alloc: Global, file: &[u8], wanted: &[u32], fault: u64) -> Result<bool, Memory> {
    match read_words(alloc, file) {
        Ok(words) => Ok(words.as_slice() == wanted),
        Err(WordsFault::BadLine(line)) => Ok(line == fault),
        Err(WordsFault::Memory) => Err(Memory),
    }
}

#[test]
fn clients(rt: HostRuntime) -> Result<(), Memory> {
    let alloc = rt.alloc();
    all_right(&rt, first_astray(alloc, TURNS)?);
    assert!(rt; asks_hart_1(alloc)?);
    let file = b"0000002a\nfedcba98\n".as_slice();
    assert!(rt; is_of_words(alloc, file, &[42, 0xfedc_ba98], 0)?);
    let file = b"0000002a\n2A\n".as_slice();
    assert!(rt; is_of_words(alloc, file, &[], 2)?);
    Ok(())
}
