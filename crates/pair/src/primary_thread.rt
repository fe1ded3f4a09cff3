//! The primary's thread.

ghost use Rattle.std.specs.Prelude.{IfOk};
ghost use Rattle.pair.specs.Leading.{HasLed};
ghost use Rattle.pair.specs.Posts.{MayLead};

use crate::herald::Herald;
use crate::news::News;
use crate::posts::PrimaryPost;
use ft_types::Memory;
use hart_threads::{PoolFault, run_seen};
use lease_rounds::has_run;
use page_book::{Book, Recording};
use primary::Primary;
use std::alloc::Global;
use std::result::Result;
use std::sync::Wait;
use std::thread::Threads;

/// The primary's thread, and those of its harts. Whenever a hart has come as far as it may, what went out is noted, what was put out
/// since is offered at the gate, the pieces of the log are sent, and each hart may go on by as many steps as a round has.
pub(crate) fn lead<R: Threads + Wait + Sync>(
    rt: &R,
    alloc: Global,
    post: PrimaryPost,
) -> Result<Book<Recording>, Memory>
    requires { MayLead post }
    ensures { IfOk result (λ b. HasLed post.primary.book b) }
{
    let PrimaryPost {
        primary,
        budget,
        keepers,
        gate,
        offers,
        begins,
        went,
    } = post;
    let Primary {
        opening,
        book,
        sealed,
    } = primary;
    let herald = Herald {
        news: News::new(alloc, opening, sealed)?,
        budget,
        taken_at: book.counts(),
        keepers,
        gate,
        offers,
        begins: Some(begins),
        went,
        has_news: false,
        is_lost: false,
    };
    let limits = book.limits();
    match run_seen(rt, alloc, book, limits, herald) {
        Ok((book, herald)) => {
            // proof: the journal leads to the machine.
            has_run(&book);
            herald.close(rt, alloc, &book)?;
            Ok(book)
        }
        Err(PoolFault::Memory) => Err(Memory),
    }
}
