//! The rights to a guest's pages, as a recording holds them.

ghost use Rattle.std.specs.Prelude.{◌≡◌, ◌<◌, ℕ, length, IfOk};
ghost use Rattle.book_modes.specs.machinery.Words.{has_taken, kept, unused};
ghost use Rattle.crew_pages.specs.Rights.{right_of};
ghost use Rattle.book_modes.specs.Recordings.{keep_as, right_at};

use crate::keep::Keep;
use crew_pages::PageRight;
use ft_types::{Count, Hart, Memory, PageNo};
use hart_lease::OpenLease;
use std::alloc::Global;
use std::option::Option;

/// The rights to so many pages, which nobody has used.
pub(crate) fn unused_rights(alloc: Global, pages: u16) -> Result<Vec<PageRight>, Memory>
    ensures many { IfOk result (λ rights. length rights.items ≡ pages) }
    ensures each { IfOk result (λ rights. (page : ℕ) → page < pages → right_at rights.items page ≡ unused) }
{
    let mut rights = Vec::new(alloc);
    rights.resize(pages as usize, PageRight::new())?;
    Ok(rights)
}

/// Equal rights.
pub(crate) fn rights_copied(rights: &Vec<PageRight>) -> Result<Vec<PageRight>, Memory>
    ensures { IfOk result (λ copied. copied.items ≡ rights.now.items) }
{
    Ok(rights.clone()?)
}

/// Whether an open lease has taken the page.
pub(crate) fn takes(lease: &Option<OpenLease>, page: PageNo) -> bool
    ensures { result ≡ has_taken lease.now page }
{
    match lease {
        None => false,
        Some(open) => open.right(page).is_some(),
    }
}

/// The hart keeps what it is told of a right, at its present count.
pub(crate) fn keep_right(right: &mut PageRight, hart: Hart, count: Count, keep: Keep)
    ensures { right_of right.new ≡ kept (keep_as keep) (right_of right.old) hart count }
{
    match keep {
        Keep::All => {}
        Keep::Readable => {
            if right.owns(hart) {
                right.lower(hart, count);
            }
        }
        Keep::Nothing => {
            if right.holds(hart) {
                right.give_up(hart, count);
            }
        }
    }
}
