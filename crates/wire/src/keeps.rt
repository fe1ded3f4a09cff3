//! Whose files they are: `keeps K KEEPERS NEED PAIR INODE BORN INODE BORN S`, the first line of a file of fences, of keeper K of the pair, which
//! says which file its log is, and then which it is itself.

ghost use Rattle.std.specs.Prelude.{◌≡◌, ◌↔◌, ℕ, ◌+◌, ◌≤◌, ◌++◌, ◌∷◌, List, length, IfSome, IfNone, Some};
ghost use Rattle.ft_types.specs.Text.{line};
ghost use Rattle.wire.specs.Fields.{spelling};
ghost use Rattle.wire.specs.Pairs.{IsInode, IsKeeps, HasKeeps, SaysKeeps, inode_fields, keeps_text};
ghost use Rattle.wire.specs.declared.keeps.Inode.{Inode as inode_of_specs};
ghost use Rattle.wire.specs.declared.keeps.Keeps.{Keeps as keeps_of_specs};

use crate::fields::Fields;
use crate::line::{LINE_LIMIT, Line};
use crate::long_words::{push_long_word, take_long_word};
use crate::pairs::{Pair, push_pair, take_pair};
use crate::seals::{read_sealed, seal_line};
use ft_types::{Guest, Keeper};

/// A file as its file system knows it, under whatever name.
#[derive(Clone, Copy, PartialEq, Eq)]
pub struct Inode {
    /// Its number, which a later file may get once it is gone.
    pub number: u64,
    /// When it was made, in nanoseconds since 1970, by which it is told from that; 0 where that is not told.
    pub born: u64,
}

/// Whose files they are.
#[derive(Clone, Copy, PartialEq, Eq)]
pub struct Keeps {
    /// The keeper, which is one of the pair's.
    pub keeper: Keeper,
    /// Its pair.
    pub pair: Pair,
    /// Its log.
    pub log: Inode,
    /// Its fences, of which this is the first line.
    pub fences: Inode,
}

/// Adds the fields of a file behind a space.
fn push_inode(text: &mut Line, inode: &Inode)
    requires { length text.old + 34 ≤ LINE_LIMIT }
    ensures bytes { text.new ≡ text.old ++ 32 ∷ spelling (inode_fields inode.now) }
    ensures len { length text.new ≡ length text.old + 34 }
{
    push_long_word(text, inode.number);
    push_long_word(text, inode.born);
}

/// The line that says whose files they are.
pub fn keeps_line(guest: &Guest, keeps: &Keeps) -> Line
    ensures { result ≡ line (keeps_text guest.now keeps.now) }
{
    let mut text = Line::new();
    text.push(b"keeps");
    text.push_number(u64::from(keeps.keeper.number()));
    push_pair(&mut text, &keeps.pair);
    push_inode(&mut text, &keeps.log);
    push_inode(&mut text, &keeps.fences);
    seal_line(guest, text)
}

/// Takes the next fields, which are those of a file.
fn take_inode(fields: &mut Fields<'_>) -> Option<Inode>
    ensures found { IfSome result (λ i. IsInode i × (fields.old ≡ inode_fields i ++ fields.new)) }
    ensures none { IfNone result ((i : inode_of_specs) (rest : List (List ℕ)) → IsInode i → fields.old ≡ inode_fields i ++ rest → ⊥) }
{
    let number = take_long_word(fields)?;
    let born = take_long_word(fields)?;
    Some(Inode { number, born })
}

/// Whose files they are by the fields behind the name.
fn keeps_of(mut fields: Fields<'_>) -> Option<Keeps>
    ensures found { IfSome result (λ k. HasKeeps fields.entry k) }
    ensures none { IfNone result ((k : keeps_of_specs) → HasKeeps fields.entry k → ⊥) }
{
    let keeper = fields.take_keeper()?;
    let pair = take_pair(&mut fields)?;
    let log = take_inode(&mut fields)?;
    let fences = take_inode(&mut fields)?;
    if fields.is_done() && keeper.number() < pair.quorum.keepers() {
        Some(Keeps {
            keeper,
            pair,
            log,
            fences,
        })
    } else {
        None
    }
}

/// Whose files they are by a line's text.
pub fn read_keeps(guest: &Guest, text: &[u8]) -> Option<Keeps>
    ensures exact { (k : keeps_of_specs) → (result ≡ Some k) ↔ SaysKeeps guest.now text.now k }
{
    let fields = read_sealed(guest, b"keeps", text)?;
    keeps_of(fields)
}
