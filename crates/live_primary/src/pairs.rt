//! Of which pair what was handed over is.

ghost use Rattle.std.specs.Prelude.{◌≡◌, ◌↔◌, ℕ, List, IfOk, IfErr, IfSome, IfNone, IsTrue};
ghost use Rattle.live_primary.specs.Pairs.{IsOfPair, IsOtherPair};
ghost use Rattle.wire.specs.declared.pairs.Pair.{Pair as pair_of_wire};

use crate::faults::{other_pair, other_quorum};
use ends::Fault;
use ft_types::{Guest, Quorum, first_line};
use std::result::Result;
use wire::{Pair, read_pair};

/// The pair that the first line of bytes names, and what stands behind it.
pub(crate) fn first_pair<'a>(guest: &Guest, bytes: &'a [u8]) -> Option<(Pair, &'a [u8])>
    ensures found { IfSome result (λ r. IsOfPair guest.now r.0 bytes.now r.1.now) }
    ensures none { IfNone result ((pair : pair_of_wire) (rest : List ℕ) → IsOfPair guest.now pair bytes.now rest → ⊥) }
{
    let (text, rest) = first_line(bytes)?;
    Some((read_pair(guest, text)?, rest))
}

/// Whether a pair is of this quorum.
fn is_of(pair: &Pair, quorum: Quorum) -> bool
    ensures { IsTrue result ↔ (pair.now.quorum ≡ quorum) }
{
    pair.quorum == quorum
}

/// Whether a pair is the one before, where there is one.
fn is_one(pair: &Pair, before: Option<Pair>) -> bool
    ensures { IsTrue result ↔ IfSome before (λ earlier. pair.now ≡ earlier) }
{
    match before {
        Some(before) => *pair == before,
        None => true,
    }
}

/// The pair of what was handed over with this number, which is of this quorum and the one of those before, and what stands behind its line.
pub(crate) fn read_own_pair<'a>(
    guest: &Guest,
    quorum: Quorum,
    before: Option<Pair>,
    number: usize,
    bytes: &'a [u8],
) -> Result<(Pair, &'a [u8]), Fault>
    ensures own { IfOk result (λ r. IsOfPair guest.now r.0 bytes.now r.1.now) }
    ensures quorum { IfOk result (λ r. r.0.quorum ≡ quorum) }
    ensures same { IfOk result (λ r. IfSome before (λ pair. r.0 ≡ pair)) }
    ensures fault { IfErr result (λ f. IsOtherPair guest.now quorum before number bytes.now f) }
{
    let Some(first) = first_pair(guest, bytes) else {
        return Err(other_pair(number));
    };
    let (pair, rest) = first;
    if is_of(&pair, quorum) {
        if is_one(&pair, before) {
            Ok((pair, rest))
        } else {
            Err(other_pair(number))
        }
    } else {
        Err(other_quorum(number))
    }
}
