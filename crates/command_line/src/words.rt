//! What the words of the command line ask for.

ghost use Rattle.std.specs.Prelude.{◌≤◌, length};

use ft_types::{COUNT_LIMIT, Count, HART_LIMIT, Hart, read_number};
use log_streams::{Budget, PairOrders, Quorum};
use std::alloc::Global;
use word_forms::{Form, Program, Words, WordsFault, read_form, read_text};

/// A request: something to do with an image.
#[derive(Drop)]
pub struct Request<'a> {
    image: &'a str,
    /// What is to be done.
    pub task: Task<'a>,
}

/// What is to be done.
#[derive(Drop)]
pub enum Task<'a> {
    /// Replay these logs.
    Replay(Vec<&'a str>),
    /// Replay these logs, as far as so many steps of a hart stand on.
    ReplayAt {
        place: Place,
        logs: Vec<&'a str>,
    },
    /// Tell what steps of a hart do, from a place on and below a count.
    Trace {
        from: Place,
        to: Count,
        logs: Vec<&'a str>,
    },
    /// Answer a debugger that looks at these logs.
    Debug(Vec<&'a str>),
    /// Join these logs, and write what they hold to a file.
    Join {
        made: &'a str,
        logs: Vec<&'a str>,
    },
    /// Tell how far these logs reach.
    Cut(Vec<&'a str>),
    /// Tell whether these logs lead to one machine by every schedule.
    Audit(Vec<&'a str>),
    /// Draw these logs.
    Graph(Vec<&'a str>),
    /// Run a primary, and write its frames to a file.
    Run {
        script: &'a str,
        /// The limit of each hart, at least 1.
        budget: Budget,
        made: &'a str,
    },
    /// Run a pair.
    Pair {
        script: &'a str,
        orders: PairOrders,
        /// Whether its first keeper is warm, and a primary goes live from it at the end.
        is_warm: bool,
    },
    /// Apply a list of events to a primary and its keepers.
    FailOver {
        events: &'a str,
        quorum: Quorum,
    },
}

/// So many steps of a hart.
#[derive(Clone, Copy)]
pub struct Place {
    pub hart: Hart,
    pub count: Count,
}

/// A file that a request names.
#[derive(Clone, Copy)]
pub enum NamedFile {
    Image,
    /// The log with this number, from 0 on.
    Log(usize),
    /// What is offered to the harts of a run.
    Script,
    /// What happens to a primary and its keepers.
    Events,
    /// The file that is made.
    Made,
}

impl<'a> Request<'a> {
    /// The name of a file: empty where the request names no such file.
    pub fn name(&self, file: NamedFile) -> &'a str {
        match file {
            NamedFile::Image => self.image,
            NamedFile::Log(number) => self.task.log(number),
            NamedFile::Script => self.task.script(),
            NamedFile::Events => self.task.events(),
            NamedFile::Made => self.task.made(),
        }
    }
}

impl<'a> Task<'a> {
    fn log(&self, number: usize) -> &'a str {
        match self {
            Task::Replay(logs) | Task::Join { logs, .. } => name_at(logs, number),
            Task::ReplayAt { logs, .. } | Task::Trace { logs, .. } => name_at(logs, number),
            Task::Cut(logs) | Task::Audit(logs) | Task::Debug(logs) => name_at(logs, number),
            Task::Graph(logs) => name_at(logs, number),
            _ => "",
        }
    }

    fn script(&self) -> &'a str {
        match self {
            Task::Run { script, .. } => script,
            Task::Pair { script, .. } => script,
            _ => "",
        }
    }

    fn events(&self) -> &'a str {
        match self {
            Task::FailOver { events, .. } => events,
            _ => "",
        }
    }

    fn made(&self) -> &'a str {
        match self {
            Task::Join { made, .. } => made,
            Task::Run { made, .. } => made,
            _ => "",
        }
    }
}

fn name_at<'a>(names: &Vec<&'a str>, number: usize) -> &'a str {
    match names.get(number) {
        Some(name) => name,
        None => "",
    }
}

/// The forms of the words. Behind those of `pair` may stand `warm`, behind those of `replay` `at H N`; behind those of `trace` stand `H FROM TO`.
static FORMS: [Form; 10] = [
    Form {
        name: "replay",
        usage: "workbench replay IMAGE LOG.. [at H N]",
        about: "prints the text of the machine at the position of the joined logs, or where hart H has N steps",
        words: &["image"],
        has_paths: true,
        behind: &[],
    },
    Form {
        name: "join",
        usage: "workbench join IMAGE OUT LOG..",
        about: "writes the joined logs to OUT",
        words: &["image", "made"],
        has_paths: true,
        behind: &[],
    },
    Form {
        name: "cut",
        usage: "workbench cut IMAGE LOG..",
        about: "prints how far the joined logs lead",
        words: &["image"],
        has_paths: true,
        behind: &[],
    },
    Form {
        name: "audit",
        usage: "workbench audit IMAGE LOG..",
        about: "prints whether every schedule of the joined logs leads to one machine",
        words: &["image"],
        has_paths: true,
        behind: &[],
    },
    Form {
        name: "graph",
        usage: "workbench graph IMAGE LOG..",
        about: "prints a picture of the joined logs",
        words: &["image"],
        has_paths: true,
        behind: &[],
    },
    Form {
        name: "run",
        usage: "workbench run IMAGE SCRIPT BUDGET OUT",
        about: "runs a primary with what the script offers, BUDGET steps a hart, and writes its log to OUT",
        words: &["image", "script", "budget", "made"],
        has_paths: false,
        behind: &[],
    },
    Form {
        name: "pair",
        usage: "workbench pair IMAGE SCRIPT BUDGET KEEPERS NEED [warm]",
        about: "runs such a primary beside keepers, of whom NEED must hold an output",
        words: &["image", "script", "budget", "keepers", "need"],
        has_paths: false,
        behind: &[],
    },
    Form {
        name: "failover",
        usage: "workbench failover IMAGE EVENTS KEEPERS NEED",
        about: "leads a primary, its keepers and a gate by a list of events",
        words: &["image", "events", "keepers", "need"],
        has_paths: false,
        behind: &[],
    },
    Form {
        name: "trace",
        usage: "workbench trace IMAGE LOG.. H FROM TO",
        about: "prints a line for each step of hart H from FROM up to TO",
        words: &["image"],
        has_paths: true,
        behind: &[],
    },
    Form {
        name: "debug",
        usage: "workbench debug IMAGE LOG..",
        about: "answers gdb's remote protocol about the joined logs, on standard input and output",
        words: &["image"],
        has_paths: true,
        behind: &[],
    },
];

/// What stands behind the words of a form.
#[derive(Clone, Copy)]
enum Tail {
    Nothing,
    /// `warm`
    Warm,
    /// `at H N`
    At(Place),
    /// `H FROM TO`
    Steps(Place, Count),
}

fn number(word: &str) -> Result<u64, WordsFault> {
    match read_number(word.as_bytes()) {
        Some(number) => Ok(number),
        None => Err(WordsFault::Usage),
    }
}

/// The budget that the word is.
fn budget_of(word: &str) -> Result<Budget, WordsFault> {
    match read_number(word.as_bytes()) {
        Some(steps) if steps > 0 && steps < COUNT_LIMIT => Ok(Budget::new(steps)),
        _ => Err(WordsFault::Usage),
    }
}

/// The count that the word is.
fn count_of(word: &str) -> Result<Count, WordsFault> {
    match read_number(word.as_bytes()) {
        Some(count) if count < COUNT_LIMIT => Ok(count),
        _ => Err(WordsFault::Usage),
    }
}

/// The place that these words are.
fn place_of(hart: &str, count: &str) -> Result<Place, WordsFault> {
    match read_number(hart.as_bytes()) {
        Some(number) if number < u64::from(HART_LIMIT) => Ok(Place {
            hart: Hart::new(number as u8),
            count: count_of(count)?,
        }),
        _ => Err(WordsFault::Usage),
    }
}

/// The steps that these words are: one at least.
fn steps_of(hart: &str, from: &str, to: &str) -> Result<Tail, WordsFault> {
    let place = place_of(hart, from)?;
    let to = count_of(to)?;
    if place.count < to {
        Ok(Tail::Steps(place, to))
    } else {
        Err(WordsFault::Usage)
    }
}

fn join<'a>(words: &[&'a str], logs: Vec<&'a str>) -> Result<Task<'a>, WordsFault> {
    let [made] = *words else {
        return Err(WordsFault::Usage);
    };
    Ok(Task::Join { made, logs })
}

fn run<'a>(words: &[&'a str]) -> Result<Task<'a>, WordsFault> {
    let [script, steps, made] = *words else {
        return Err(WordsFault::Usage);
    };
    Ok(Task::Run {
        script,
        budget: budget_of(steps)?,
        made,
    })
}

fn pair<'a>(words: &[&'a str], tail: Tail) -> Result<Task<'a>, WordsFault> {
    let [script, steps, keepers, need] = *words else {
        return Err(WordsFault::Usage);
    };
    match PairOrders::new(budget_of(steps)?, number(keepers)?, number(need)?) {
        Some(orders) => Ok(Task::Pair {
            script,
            orders,
            is_warm: matches!(tail, Tail::Warm),
        }),
        None => Err(WordsFault::Usage),
    }
}

fn fail_over<'a>(words: &[&'a str]) -> Result<Task<'a>, WordsFault> {
    let [events, keepers, need] = *words else {
        return Err(WordsFault::Usage);
    };
    match Quorum::new(number(keepers)?, number(need)?) {
        Some(quorum) => Ok(Task::FailOver { events, quorum }),
        None => Err(WordsFault::Usage),
    }
}

fn replay<'a>(logs: Vec<&'a str>, tail: Tail) -> Task<'a> {
    match tail {
        Tail::At(place) => Task::ReplayAt { place, logs },
        _ => Task::Replay(logs),
    }
}

fn trace<'a>(logs: Vec<&'a str>, tail: Tail) -> Result<Task<'a>, WordsFault> {
    match tail {
        Tail::Steps(from, to) => Ok(Task::Trace { from, to, logs }),
        _ => Err(WordsFault::Usage),
    }
}

/// What the words behind the image ask for, with these logs.
fn task_of<'a>(
    command: &str,
    words: &[&'a str],
    logs: Vec<&'a str>,
    tail: Tail,
) -> Result<Task<'a>, WordsFault> {
    match command {
        "replay" => Ok(replay(logs, tail)),
        "join" => join(words, logs),
        "cut" => Ok(Task::Cut(logs)),
        "audit" => Ok(Task::Audit(logs)),
        "graph" => Ok(Task::Graph(logs)),
        "run" => run(words),
        "pair" => pair(words, tail),
        "failover" => fail_over(words),
        "trace" => trace(logs, tail),
        "debug" => Ok(Task::Debug(logs)),
        _ => Err(WordsFault::Usage),
    }
}

/// What the words of a form ask for, with these logs.
fn request_of<'a>(
    command: &str,
    words: &[&'a str],
    logs: Vec<&'a str>,
    tail: Tail,
) -> Result<Request<'a>, WordsFault> {
    let Some((image, rest)) = words.split_first() else {
        return Err(WordsFault::Usage);
    };
    let task = task_of(command, rest, logs, tail)?;
    Ok(Request {
        image: *image,
        task,
    })
}

/// Whether this word stands there.
fn is_at(words: &[String], place: usize, text: &str) -> bool {
    match words.get(place) {
        Some(word) => word.as_str() == text,
        None => false,
    }
}

/// How many of the words are those of a form: no form has words that may be left out. A log whose name is `at` is no log where it is the third from the end, and one stands before it.
fn form_length(words: &[String]) -> usize
    ensures { result ≤ length words.now }
{
    let Some(command) = words.first() else {
        return 0;
    };
    let many = words.len();
    let three_before = many.saturating_sub(3);
    match command.as_str() {
        "pair" if many == 7 && is_at(words, 6, "warm") => 6,
        "trace" if many >= 6 => three_before,
        "replay" if many >= 6 && is_at(words, three_before, "at") => three_before,
        _ => many,
    }
}

/// What the words behind those of a form say: none, one or three of them.
fn tail_of(words: &[String]) -> Result<Tail, WordsFault> {
    let (Some(first), Some(second), Some(third)) = (words.get(0), words.get(1), words.get(2)) else {
        return Ok(if words.is_empty() {
            Tail::Nothing
        } else {
            Tail::Warm
        });
    };
    if first.as_str() == "at" {
        return Ok(Tail::At(place_of(second.as_str(), third.as_str())?));
    }
    steps_of(first.as_str(), second.as_str(), third.as_str())
}

/// The request that the words are. A word that begins with `-` is refused before they are parsed.
pub fn read_words<'a>(alloc: Global, words: &'a [String]) -> Result<Request<'a>, WordsFault> {
    let end = form_length(words);
    let tail = tail_of(&words[end..])?;
    let Words {
        name,
        words,
        mut rows,
    } = read_form(alloc, "workbench", &FORMS, &words[..end])?;
    match rows.pop() {
        Some(logs) => request_of(name, &words, logs, tail),
        None => request_of(name, &words, Vec::new(alloc), tail),
    }
}

/// The text that the words ask for in place of a request, of a program of this version: None where they ask for none.
pub fn asked_text(
    alloc: Global,
    version: &'static str,
    words: &[String],
) -> Result<Option<String>, WordsFault> {
    let program = Program {
        name: "workbench",
        version,
        about: "Runs, replays, joins, cuts and audits logs of a guest, and leads a pair and a failover",
        forms: &FORMS,
    };
    read_text(alloc, &program, words)
}
