//! Replays by the threads of the program: of harts that have to do with each other, in turn, and of harts that go apart, each on a thread.

use crate::runs::{came_to, left_by, planned};
use fixtures::image_of;
use ft_types::Memory;
use guest_image::Image;
use log_streams::{Budget, Replays, run_primary};
use pair::OnThreads;
use scripts::read_script;
use std::alloc::Global;
use std::sync::Wait;
use std::test::Fail;
use std::thread::Threads;

// Four harts that add 1 to one word three times each.
static ADDS: &[u8] =
    b"harts 4\npages 2\n800010b7\n00300113\n00100193\n0030a02f\nfff10113\nfe011ce3\nf0000237\n00022a23\n";

// Two harts that count down from 69,632 and halt: lui x1, 11; addi x1, x1, -1; bne x1, x0, -4; lui x4, f0000; sw x0, 20(x4).
static COUNTS: &[u8] = b"harts 2\npages 1\n000110b7\nfff08093\nfe009ee3\nf0000237\n00022a23\n";

/// Whether what the guest did on threads, each hart for so many steps at the most, is what its log leads to.
fn is_replayed<R: Threads + Wait + Sync>(
    rt: &R,
    alloc: Global,
    image: &Image,
    budget: Budget,
) -> Result<bool, Memory> {
    let Ok(script) = read_script(alloc, b"", image.harts()) else {
        return Err(Memory);
    };
    let threads = OnThreads::new(rt);
    let book = run_primary(alloc, &threads, image, &script, budget)?;
    let (machine, store) = left_by(alloc, image, book)?;
    let plan = planned(alloc, &store)?;
    came_to(threads.replay(alloc, image, &plan), &machine)
}

#[test]
fn harts_close_and_apart_are_replayed(rt: HostRuntime) -> Result<(), Fail> {
    let adds = image_of(rt.alloc(), ADDS)?;
    let counts = image_of(rt.alloc(), COUNTS)?;
    assert!(rt; is_replayed(&rt, rt.alloc(), &adds, Budget::new(1000))?);
    assert!(rt; is_replayed(&rt, rt.alloc(), &counts, Budget::new(200_000))?);
    Ok(())
}
