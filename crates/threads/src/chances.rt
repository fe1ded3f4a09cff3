//! Guests that fall by chance, which run on threads, are replayed on threads and in turn, and audited.

use crate::runs::{Left, came_to, leads, left_by, planned};
use fixtures::{Dice, ONE_SHARED_PAGE, image_of};
use ft_types::Memory;
use guest_image::Image;
use log_audit::{AuditFault, audit};
use log_streams::{Budget, run_primary};
use pair::OnThreads;
use scripts::read_script;
use std::alloc::Global;
use std::sync::Wait;
use std::test::Fail;
use std::thread::Threads;

/// A script that offers each hart, by chance, timers from counts of two digits on, and words.
fn script_of(alloc: Global, harts: u8, dice: &mut Dice) -> Result<Vec<u8>, Memory> {
    let mut text = Vec::new(alloc);
    for offer in 0..harts.saturating_mul(4) {
        let hart = b'0' + offer / 4 % 8;
        let count = [b'1' + dice.roll() % 9, b'0' + dice.roll() % 10];
        let word = [b'0' + dice.roll() % 10, b'a' + dice.roll() % 6];
        text.extend_from_slice(&[hart, b' ', count[0], count[1]])?;
        text.extend_from_slice(b" timer\n")?;
        text.push(hart)?;
        text.extend_from_slice(b" 0 word 000000")?;
        text.extend_from_slice(&[word[0], word[1], b'\n'])?;
    }
    Ok(text)
}

/// What the guest leaves that goes on on threads, with what is offered by chance.
fn left_on_threads<R: Threads + Wait + Sync>(
    rt: &R,
    alloc: Global,
    image: &Image,
    seed: u64,
) -> Result<Left, Memory> {
    let text = script_of(alloc, image.harts(), &mut Dice::new(seed))?;
    let Ok(script) = read_script(alloc, &text, image.harts()) else {
        return Err(Memory);
    };
    let book = run_primary(alloc, &OnThreads::new(rt), image, &script, Budget::new(150))?;
    left_by(alloc, image, book)
}

/// Whether the audit of what is left comes to its machine.
fn is_covered(alloc: Global, image: &Image, left: &Left) -> Result<bool, Memory> {
    let plan = planned(alloc, &left.1)?;
    match audit(alloc, image, &plan) {
        Ok(found) => Ok(found.same(&left.0)),
        Err(AuditFault::Replay(fault)) => came_to(Err(fault), &left.0),
        Err(_) => Ok(false),
    }
}

/// Whether what the guest did on threads is what its log leads to, on threads and in turn, and by its audit.
fn is_replayed<R: Threads + Wait + Sync>(
    rt: &R,
    alloc: Global,
    image: &Image,
    seed: u64,
) -> Result<bool, Memory> {
    let left = left_on_threads(rt, alloc, image, seed)?;
    if !leads(rt, alloc, image, &left)? {
        return Ok(false);
    }
    is_covered(alloc, image, &left)
}

#[test]
fn what_runs_by_chance_is_replayed(rt: HostRuntime) -> Result<(), Fail> {
    let mut right = true;
    for harts in 2..9u8 {
        let seed = 0x9e37 + u64::from(harts);
        let file = ONE_SHARED_PAGE.file(rt.alloc(), harts, &mut Dice::new(seed))?;
        let image = image_of(rt.alloc(), &file)?;
        right = right && is_replayed(&rt, rt.alloc(), &image, seed)?;
    }
    assert!(rt; right);
    Ok(())
}
