//! What the steering of harts answers, call by call.

use fixtures::hart;
use ft_types::{
    Counts, HART_ROW, Hart, HartSet, LEASE_STEPS, PAGE_LIMIT, PageNo, Want, read_number,
};
use lease_rounds::PageMask;
use std::test::Fail;
use steering::{Pace, Steering};

/// What the registers of a hart come to that is as it was.
const AS_IT_WAS: u64 = 7777;

/// Calls of harts, each with its hart and, where there is one, a page, a number of steps or another hart; and what it answers: a number, 1 for yes, or
/// a bit a hart. The first of each text begins, with so many harts.
static ROWS: [&str; 7] = [
    // Whoever was refused first is given first, and a page in dispute is kept by nobody.
    "\
even 3|
asks 0|1
asks 1|1
asks 2|1
writes 0 5|1
writes 1 5|0
brings 1|0
asks 1|0
wanted 0|1
reads 2 5|0
brings 2|0
asks 2|0
keeps 0|0
brings 0 1024|2
asks 1|1
takes 1 5|1
writes 1 5|1
brings 1 1024|4
asks 2|1
reads 2 5|1
reads 0 5|1
takes 0 5|0
",
    // No hart runs far ahead, but the further the longer they have had nothing to do with each other.
    "\
even 2|
asks 0|1
brings 0 1024|0
asks 0|1
brings 0 1024|0
asks 0|0
wanted 0|0
asks 1|1
brings 1 1024|1
asks 1|1
brings 1 1024|0
reaches 1|2048
",
    // A hart that is behind its lease as it was rests, until what it read is written or its bell is rung.
    "\
even 2|
asks 0|1
stays 0 1024|0
asks 0|1
reads 0 5|1
stays 0 1024|0
asks 0|0
wanted 0|2
asks 1|1
writes 1 5|1
brings 1 7|1
reaches 0|128
asks 1|1
brings 1 1024|0
asks 0|1
stays 0 128|0
asks 0|0
asks 1|1
rings 1|1
wanted 0|3
",
    // Where each waits for the others' steps none may come.
    "\
own 2|
reaches 0|65536
waits 0|1
wanted 0|2
waits 1|0
brings 1 5|3
waits 1|1
leaves 0|2
waits 1|0
asks 1|1
",
    // Behind sixteen leases that brought few steps one thread leads all harts for a while, and the others' threads wait until it ends that.
    "\
even 2|
brings 0 9|0
brings 0 9|0
brings 0 9|0
brings 0 9|0
brings 0 9|0
brings 0 9|0
brings 0 9|0
brings 0 9|0
brings 0 9|0
brings 0 9|0
brings 0 9|0
brings 0 9|0
brings 0 9|0
brings 0 9|0
brings 0 9|0
leads 0|0
brings 0 9|0
leads 0|64
leads 1|0
asks 1|0
wanted 0|0
led 1|1
ends 0|2
asks 1|1
",
    // A run begins with one thread that leads all harts, until sixteen leases in a row took no page from another. Whose thread has ended is led no more.
    "\
even 2|
together 0|1
brings 0 1024|0
brings 0 1024|0
brings 0 1024|0
brings 0 1024|0
brings 0 1024|0
brings 0 1024|0
brings 0 1024|0
brings 0 1024|0
brings 0 1024|0
brings 0 1024|0
brings 0 1024|0
brings 0 1024|0
brings 0 1024|0
brings 0 1024|0
brings 0 1024|0
together 0|1
brings 0 1024|0
together 0|0
led 0|0
led 1|1
leaves 1|0
led 1|0
led 0|1
",
    // That thread looks at each lease now and then, which ends where its hart only waits; where all only wait, not before a whole lease.
    "\
even 2|
asks 0|1
first 0|128
reads 0 5|1
looks 0 128|256
sees 0 256|512
sees 0 512|0
stays 0 512|0
led 0|0
asks 1|1
writes 1 5|1
looks 1 512|1024
looks 1 1024|0
brings 1 1024|0
led 0|1
asks 0|1
sees 0 128|0
stays 0 128|0
asks 1|1
sees 1 128|256
sees 1 256|0
stays 1 256|0
led 0|1
first 0|1024
",
];

fn begun(harts: u8, pace: Pace) -> Steering {
    Steering::new(harts, pace, Counts::zero(4), true)
}

/// A bit for each of the harts.
fn bits(harts: HartSet) -> u64 {
    let mut bits = 0u64;
    for number in 0..4u8 {
        if harts.contains(hart(number)) {
            bits |= 1u64 << number;
        }
    }
    bits
}

fn pages(number: u16, want: Want) -> PageMask {
    if number >= PAGE_LIMIT {
        return PageMask::none();
    }
    PageMask::of(PageNo::new(number), want)
}

fn asks(steering: &mut Steering, hart: Hart) -> bool {
    let may = steering.may_ask(hart);
    if may {
        steering.go_out(hart);
    }
    may
}

/// Whether the hart's open lease, which has no step yet, is given the pages.
fn gives(steering: &mut Steering, hart: Hart, pages: PageMask) -> bool {
    if steering.is_barred(hart, pages) {
        steering.refuse(hart, 0, pages);
        return false;
    }
    steering.take(hart, pages);
    true
}

/// Settles a lease of so many steps, of a hart whose registers come to this, and which rings another hart. Who is called.
fn settles(steering: &mut Steering, hart: Hart, steps: u16, trace: u64, rung: Option<Hart>) -> u64 {
    let returned = steering.come_back(
        hart,
        u64::from(steps),
        u64::from(steps) < LEASE_STEPS,
        0,
        false,
    );
    let mut after = [0u64; HART_ROW];
    if let Some(rung) = rung {
        after[rung.index()] = 1;
    }
    if steering.has_rests() {
        steering.settle(returned, trace, &[0u64; HART_ROW], &after);
    }
    bits(steering.called())
}

/// How many steps the hart's open lease may take in all, which has so many, and whose registers come to this; 0 where it ends.
fn looks(steering: &mut Steering, hart: Hart, steps: u16, trace: u64) -> u64 {
    steering.look(hart, u64::from(steps), 0, trace).unwrap_or(0)
}

/// What a call answers that a hart makes at this place of the rows.
fn answer(steering: &mut Steering, call: &str, hart: Hart, number: u16, place: u64) -> u64 {
    match call {
        "asks" => u64::from(asks(steering, hart)),
        "reads" => u64::from(gives(steering, hart, pages(number, Want::Read))),
        "writes" => u64::from(gives(steering, hart, pages(number, Want::Write))),
        "takes" => {
            let at_once = steering.pages_at_once(hart, false);
            u64::from(at_once.is_near(pages(number, Want::Read)))
        }
        "keeps" => u64::from(steering.keeps_rights(hart)),
        "reaches" => steering.reach(hart),
        "first" => steering.first_look(hart),
        "looks" => looks(steering, hart, number, place),
        "sees" => looks(steering, hart, number, AS_IT_WAS),
        "waits" => u64::from(steering.wait_for_steps(hart)),
        "wanted" => bits(steering.wanted()),
        "brings" => settles(steering, hart, number, place, None),
        "stays" => settles(steering, hart, number, AS_IT_WAS, None),
        "rings" => settles(steering, hart, 1, place, Some(Hart::new(0))),
        "leaves" => bits(steering.leave(hart)),
        "leads" => u64::from(steering.begin_to_lead().unwrap_or(0)),
        "led" => u64::from(steering.may_be_led(hart)),
        "ends" => bits(steering.end_to_lead()),
        "together" => u64::from(steering.are_together()),
        _ => u64::MAX,
    }
}

/// The first word of a text, and what stands behind it.
fn word(text: &str) -> (&str, &str) {
    match text.split_once(' ') {
        Some(parts) => parts,
        None => (text, ""),
    }
}

/// A number below 65,536, or 0 where there is none.
fn small(text: &str) -> u16 {
    match read_number(text.as_bytes()) {
        Some(number) => (number % 65_536) as u16,
        None => 0,
    }
}

/// Whether a call is answered so that a hart makes at this place of its text. A call that begins makes the steering anew.
fn is_answered(steering: &mut Steering, asked: &str, answered: &str, place: u64) -> bool {
    let (call, behind) = word(asked);
    let (number, with) = word(behind);
    let number = (small(number) % 32) as u8;
    match call {
        "even" => *steering = begun(number, Pace::Even),
        "own" => *steering = begun(number, Pace::Own),
        _ => {
            let answer = answer(steering, call, hart(number), small(with), place);
            return read_number(answered.as_bytes()) == Some(answer);
        }
    }
    true
}

/// Whether each call of a text answers what its row says.
fn all_answer_so(rows: &str) -> bool {
    let mut steering = begun(0, Pace::Own);
    let mut place = 0u64;
    for line in rows.lines() {
        let (asked, answered) = line.split_once('|').unwrap_or((line, ""));
        if !is_answered(&mut steering, asked, answered, place) {
            return false;
        }
        place = place.wrapping_add(1);
    }
    true
}

#[test]
fn the_steering_answers_so(rt: HostRuntime) -> Result<(), Fail> {
    let mut right = true;
    for rows in &ROWS {
        right = right && all_answer_so(rows);
    }
    assert!(rt; right);
    Ok(())
}
