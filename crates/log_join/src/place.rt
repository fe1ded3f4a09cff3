//! Keys of fragments, in order.

ghost use Rattle.std.specs.Prelude.{◌≡◌};
ghost use Rattle.std.specs.Cmp.{partial_order_from_total};
ghost use Rattle.std.specs.Cmp.Rules.{comparing};
ghost use Rattle.std.specs.Ordering.{as_partial_cmp, eq_by_cmp};
ghost use Rattle.std.proofs.Common.{rules};
ghost use Rattle.log_join.specs.machinery.Places.{place_of, place_cmp};

use fragment_codec::Key;
use ft_types::Term;
use std::cmp::Ordering;
use std::marker::Model;
use std::option::Option;

/// A fragment's key: by term, then by hart, then by place. Contracts see the three.
#[derive(Clone, Copy)]
pub(crate) struct Place {
    term: Term,
    /// The hart and the place as one number, since a search compares many keys.
    spot: u64,
}

impl Model for Place {
    ghost use Rattle.std.specs.Prelude.{refl};
    ghost use Rattle.log_join.specs.machinery.Places.{Place as place_of_specs, apart, spot_of, spot_of-apart};

    ghost Value = { place_of_specs };

    ghost view = { λ p. apart p.term p.spot };

    ghost inverse = { λ p. record { term = p.term; spot = spot_of p } };

    ghost inverse_ok = { λ p _. Prim.rw (spot_of-apart p.term p.spot) refl };
}

impl Place {
    /// The term.
    pub(crate) fn term(&self) -> Term
        ensures { result ≡ self.now.term }
    {
        self.term
    }
}

impl PartialEq for Place {
    ghost eq = { eq_by_cmp place_cmp };

    ghost laws = { Prim.search (comparing, rules) };

    fn eq(&self, other: &Place) -> bool {
        matches!(self.cmp(other), Ordering::Equal)
    }
}

impl Eq for Place {
    ghost laws = { Prim.search (comparing, rules) };
}

impl Ord for Place {
    ghost cmp = { place_cmp };

    ghost total = { Prim.search (comparing, rules) };

    ghost matches_partial_cmp = { Prim.search (comparing, rules) };

    ghost matches_eq = { Prim.search (comparing, rules) };

    fn cmp(&self, other: &Place) -> Ordering {
        if self.term != other.term {
            return self.term.cmp(&other.term);
        }
        self.spot.cmp(&other.spot)
    }
}

impl PartialOrd for Place {
    ghost partial_cmp = { as_partial_cmp place_cmp };

    ghost laws = { partial_order_from_total (Prim.search (comparing, rules)) };

    fn partial_cmp(&self, other: &Place) -> Option<Ordering> {
        Some(self.cmp(other))
    }
}

impl From<Key> for Place {
    ghost from_gives = { λ key place. place ≡ place_of key };

    fn from(key: Key) -> Place {
        Place {
            term: key.term,
            spot: u64::from(key.hart.number()) << 32 | u64::from(key.place),
        }
    }
}
