//! Sets of harts, and sets of keepers.

ghost use Rattle.std.specs.Prelude.{◌≡◌, ◌≢◌, ◌<◌, ◌≤◌, ℕ, length, true, slice_index_or, slice_set, IsTrue, ◌↔◌, count_by};
ghost use Rattle.ft_types.specs.machinery.Flags.{IsBitAt};
ghost use Rattle.ft_types.specs.Sets.{IsMember};
ghost use Rattle.ft_types.specs.declared.names.TheConstants.{HART_ROW};

use crate::names::{HART_LIMIT, HART_ROW, Hart, KEEPER_LIMIT, KEEPER_ROW, Keeper};
use std::marker::Model;

/// A set of harts, each a bit of a word. Contracts see, for each number below `HART_LIMIT`, whether that hart is a member.
#[derive(Clone, Copy, PartialEq, Eq)]
pub struct HartSet {
    members: u32,
}

impl Model for HartSet {
    ghost use Rattle.std.specs.Prelude.{◌<◌, ◌^◌, Bool, List};
    ghost use Rattle.ft_types.specs.declared.names.TheConstants.{HART_ROW};
    ghost use Rattle.ft_types.specs.machinery.Flags.{flags_of, number_of, number_of-flags_of};

    ghost Value = { List Bool };

    ghost view = { λ s. flags_of HART_ROW s.members };

    ghost invariant = { λ s. s.members < 2 ^ HART_ROW };

    ghost inverse = { λ m. record { members = number_of m } };

    ghost inverse_ok = { λ s are i. record { members = number_of-flags_of HART_ROW s.members are i } };
}

/// A set of keepers. Contracts see, for each number below `KEEPER_LIMIT`, whether that keeper is a member.
#[derive(Clone, Copy, PartialEq, Eq)]
pub struct KeeperSet {
    members: [bool; KEEPER_ROW],
}

impl Model for KeeperSet {
    ghost use Rattle.std.specs.Prelude.{◌≡◌, Bool, List, length};
    ghost use Rattle.ft_types.specs.declared.names.TheConstants.{KEEPER_ROW};

    ghost Value = { List Bool };

    ghost view = { λ s. s.members };

    ghost invariant = { λ s. length s.members ≡ KEEPER_ROW };

    ghost inverse = { λ m. record { members = m } };
}

/// The members, with this one too.
fn with_member<const N: usize>(members: [bool; N], index: usize) -> [bool; N]
    requires { index < N }
    ensures { result ≡ slice_set members.entry index true }
{
    let mut members = members;
    members[index] = true;
    members
}

/// The number of members.
fn count_of(members: &[bool]) -> usize
    ensures { result ≡ count_by (λ member. member) members.now }
{
    members.iter().filter(|member| **member).count()
}

/// The bit of a hart.
#[inline(always)]
fn bit_of(hart: Hart) -> u32
    ensures { IsBitAt HART_ROW hart result }
{
    1u32.wrapping_shl(u32::from(hart.number()))
}

impl HartSet {
    /// The set with no hart.
    pub fn new() -> HartSet
        ensures { (n : ℕ) → ¬ (IsMember result n) }
    {
        HartSet { members: 0 }
    }

    /// The set of this hart alone.
    pub fn of(hart: Hart) -> HartSet
        ensures { (n : ℕ) → IsMember result n ↔ (n ≡ hart) }
    {
        HartSet {
            members: bit_of(hart),
        }
    }

    /// Whether the hart is a member.
    pub fn contains(self, hart: Hart) -> bool
        ensures { IsTrue result ↔ IsMember self hart }
    {
        self.members & bit_of(hart) != 0
    }

    /// The set with this hart too.
    pub fn with(self, hart: Hart) -> HartSet
        ensures value { result ≡ slice_set self hart true }
        ensures below { hart < HART_LIMIT }
        ensures row { hart < length self }
    {
        HartSet {
            members: self.members | bit_of(hart),
        }
    }

    /// The set without this hart.
    pub fn without(self, hart: Hart) -> HartSet
        ensures { (g : ℕ) → IsMember result g ↔ ((g ≢ hart) × IsMember self g) }
    {
        HartSet {
            members: self.members & !bit_of(hart),
        }
    }

    /// The number of harts.
    pub fn len(self) -> usize
        ensures { result ≡ count_by (λ member. member) self }
    {
        // proof: it has a flag for each hart.
        self.has_row();
        let mut harts = 0usize;
        for number in 0..HART_LIMIT {
            if self.contains(Hart::new(number)) {
                harts += 1;
            }
        }
        harts
    }

    /// Whether there is no hart.
    pub fn is_empty(self) -> bool
        ensures value { IsTrue result ↔ (count_by (λ member. member) self ≡ 0) }
        ensures none { IsTrue result ↔ ((n : ℕ) → ¬ (IsMember self n)) }
    {
        self.members == 0
    }

    /// It has a flag for each hart.
    pub fn has_row(self)
        ensures { length self ≡ HART_ROW }
    {
        // proof: so many flags are in a word.
        let _members = self.members;
    }
}

impl KeeperSet {
    /// The set with no keeper.
    pub fn new() -> KeeperSet
        ensures { (n : ℕ) → ¬ (IsMember result n) }
    {
        KeeperSet {
            members: [false; KEEPER_ROW],
        }
    }

    /// Whether the keeper is a member.
    pub fn contains(self, keeper: Keeper) -> bool
        ensures { IsTrue result ↔ IsMember self keeper }
    {
        self.members[keeper.index()]
    }

    /// The set with this keeper too.
    pub fn with(self, keeper: Keeper) -> KeeperSet
        ensures value { result ≡ slice_set self keeper true }
        ensures below { keeper < KEEPER_LIMIT }
    {
        KeeperSet {
            members: with_member(self.members, keeper.index()),
        }
    }

    /// The number of keepers.
    pub fn len(self) -> usize
        ensures { result ≡ count_by (λ member. member) self }
    {
        count_of(&self.members)
    }
}
