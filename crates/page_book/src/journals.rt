//! Journals, and whether one begins another.

ghost use Rattle.std.specs.Prelude.{◌≡◌, ◌<◌, ◌↔◌, IfOk, IsTrue};
ghost use Rattle.std.specs.Vec.{vec_len, vec_capacity};
ghost use Rattle.page_book.specs.machinery.Words.{added};
ghost use Rattle.page_book.specs.Reclaims.{IsBeginning};

use ft_types::{Hart, Memory};
use hart_lease::Stretch;

/// An equal journal.
pub(crate) fn journal_copied(journal: &Vec<Stretch>) -> Result<Vec<Stretch>, Memory>
    ensures { IfOk result (λ copied. copied.items ≡ journal.now.items) }
{
    Ok(journal.clone()?)
}

fn same_stretch(stretch: &Stretch, other: &Stretch) -> bool
    ensures { IsTrue result ↔ (stretch.now ≡ other.now) }
{
    stretch.hart == other.hart && stretch.steps == other.steps
}

/// Whether the first journal begins the second.
pub(crate) fn begins(first: &[Stretch], second: &[Stretch]) -> bool
    ensures { IsTrue result ↔ IsBeginning first.now second.now }
{
    if first.len() > second.len() {
        return false;
    }
    for i in 0..first.len() {
        if !same_stretch(&first[i], &second[i]) {
            return false;
        }
    }
    true
}

/// Adds a stretch to a journal that has room for it. One without steps adds nothing.
pub(crate) fn add_stretch(journal: &mut Vec<Stretch>, hart: Hart, steps: u64)
    requires { vec_len journal.old < vec_capacity journal.old }
    ensures { journal.new.items ≡ added journal.old.items hart steps }
{
    if steps > 0 {
        journal.push(Stretch { hart, steps }).unwrap();
    }
}
