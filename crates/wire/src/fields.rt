//! The fields of a line, which stand with one space between them.

ghost use Rattle.std.specs.Prelude.{◌≡◌, ◌↔◌, ℕ, ◌<◌, ◌≤◌, ◌^◌, ◌++◌, ◌∷◌, [], List, length, map, decimal, IfSome, IfNone, OnSome, IsTrue, option_map};
ghost use Rattle.std.specs.List.{AllByRecursion};
ghost use Rattle.ft_types.specs.Counts.{IsCount};
ghost use Rattle.ft_types.specs.Text.{word};
ghost use Rattle.wire.specs.Fields.{HasNone, fields_of, fields_left};
ghost use Rattle.wire.specs.Values.{IsTerm, IsHart};

use ft_types::{
    COUNT_LIMIT, Count, Counts, HART_LIMIT, Hart, KEEPER_LIMIT, Keeper, Term, read_number,
    read_word,
};
use std::marker::Model;

/// Whether the text is the other.
pub(crate) fn is(text: &[u8], other: &[u8]) -> bool
    ensures { IsTrue result ↔ (text.now ≡ other.now) }
{
    text == other
}

/// The text up to the first space, and what stands behind that space.
fn cut(text: &[u8]) -> (&[u8], Option<&[u8]>)
    ensures one { HasNone 32 result.0.now }
    ensures some { IfSome result.1 (λ behind. text.now ≡ result.0.now ++ 32 ∷ behind.now) }
    ensures none { IfNone result.1 (text.now ≡ result.0.now) }
{
    match text.iter().position(|byte| *byte == b' ') {
        None => (text, None),
        Some(end) => (&text[..end], Some(&text[end + 1..])),
    }
}

/// The fields of a text that are not yet taken. Contracts see their list.
#[derive(Drop)]
pub(crate) struct Fields<'a> {
    /// What stands behind the space that ended the last one: nothing, not even an empty field, where none did.
    rest: Option<&'a [u8]>,
}

impl<'a> Model for Fields<'a> {
    ghost use Rattle.std.specs.Prelude.{ℕ, List, option_map};
    ghost use Rattle.wire.specs.Fields.{fields_left};

    ghost Value = { List (List ℕ) };

    ghost view = { λ f. fields_left (option_map (λ text. text.now) f.rest) };
}

impl<'a> Fields<'a> {
    /// All fields of a text.
    pub(crate) fn new(text: &'a [u8]) -> Fields<'a>
        ensures { result ≡ fields_of text.now }
    {
        Fields { rest: Some(text) }
    }

    /// Whether all are taken.
    pub(crate) fn is_done(&self) -> bool
        ensures { IsTrue result ↔ (self.now ≡ []) }
    {
        self.rest.is_none()
    }

    /// Takes the next field.
    pub(crate) fn take(&mut self) -> Option<&'a [u8]>
        ensures found { IfSome result (λ field. self.old ≡ field.now ∷ self.new) }
        ensures none { IfNone result (self.old ≡ []) }
    {
        let (field, behind) = cut(self.rest?);
        self.rest = behind;
        Some(field)
    }

    /// Takes the next field, which is this name.
    pub(crate) fn take_name(&mut self, name: &[u8]) -> Option<()>
        ensures found { OnSome result (self.old ≡ name.now ∷ self.new) }
        ensures none { IfNone result ((rest : List (List ℕ)) → self.old ≡ name.now ∷ rest → ⊥) }
    {
        if is(self.take()?, name) {
            Some(())
        } else {
            None
        }
    }

    /// Takes the next field, which is a number below the limit.
    fn take_below(&mut self, limit: u64) -> Option<u64>
        requires { limit ≤ COUNT_LIMIT }
        ensures found { IfSome result (λ n. (n < limit) × (self.old ≡ decimal n ∷ self.new)) }
        ensures none { IfNone result ((n : ℕ) (rest : List (List ℕ)) → n < limit → self.old ≡ decimal n ∷ rest → ⊥) }
    {
        let number = read_number(self.take()?)?;
        if number < limit { Some(number) } else { None }
    }

    /// Takes the next field, which is a count.
    pub(crate) fn take_count(&mut self) -> Option<Count>
        ensures found { IfSome result (λ n. IsCount n × (self.old ≡ decimal n ∷ self.new)) }
        ensures none { IfNone result ((n : ℕ) (rest : List (List ℕ)) → IsCount n → self.old ≡ decimal n ∷ rest → ⊥) }
    {
        self.take_below(COUNT_LIMIT)
    }

    /// Takes the next field, which is a term that was granted.
    pub(crate) fn take_term(&mut self) -> Option<Term>
        ensures found { IfSome result (λ t. IsTerm t × (self.old ≡ decimal t ∷ self.new)) }
        ensures none { IfNone result ((t : ℕ) (rest : List (List ℕ)) → IsTerm t → self.old ≡ decimal t ∷ rest → ⊥) }
    {
        let term = self.take_below(1 << 32)?;
        if term > 0 { Some(term as u32) } else { None }
    }

    /// Takes the next field, which is a keeper's number.
    pub(crate) fn take_keeper(&mut self) -> Option<Keeper>
        ensures found { IfSome result (λ k. (k < KEEPER_LIMIT) × (self.old ≡ decimal k ∷ self.new)) }
        ensures none { IfNone result ((k : ℕ) (rest : List (List ℕ)) → k < KEEPER_LIMIT → self.old ≡ decimal k ∷ rest → ⊥) }
    {
        let number = self.take_below(u64::from(KEEPER_LIMIT))?;
        Some(Keeper::new(number as u8))
    }

    /// Takes the next field, which is the number of a hart, below this number of harts.
    pub(crate) fn take_hart(&mut self, harts: u8) -> Option<Hart>
        ensures found { IfSome result (λ h. IsHart harts h × (self.old ≡ decimal h ∷ self.new)) }
        ensures none { IfNone result ((h : ℕ) (rest : List (List ℕ)) → IsHart harts h → self.old ≡ decimal h ∷ rest → ⊥) }
    {
        let number = self.take_below(u64::from(harts.min(HART_LIMIT)))?;
        Some(Hart::new(number as u8))
    }

    /// Takes the next field, which is a word.
    pub(crate) fn take_word(&mut self) -> Option<u32>
        ensures found { IfSome result (λ w. (w < 2 ^ 32) × (self.old ≡ word w ∷ self.new)) }
        ensures none { IfNone result ((w : ℕ) (rest : List (List ℕ)) → w < 2 ^ 32 → self.old ≡ word w ∷ rest → ⊥) }
    {
        read_word(self.take()?)
    }

    /// Takes the next fields, which are a count for each hart.
    pub(crate) fn take_counts(&mut self, harts: u8) -> Option<Counts>
        requires { harts ≤ HART_LIMIT }
        ensures found { IfSome result (λ counts. (length counts ≡ harts) × (self.old ≡ map decimal counts ++ self.new)) }
        ensures counts { IfSome result (λ counts. AllByRecursion IsCount counts) }
        ensures none { IfNone result ((counts : List ℕ) (rest : List (List ℕ)) → length counts ≡ harts → AllByRecursion IsCount counts →
            self.old ≡ map decimal counts ++ rest → ⊥) }
    {
        let mut counts = Counts::zero(harts);
        for number in 0..harts {
            let count = self.take_count()?;
            counts.set(Hart::new(number), count);
        }
        Some(counts)
    }
}
