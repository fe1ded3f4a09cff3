//! What happens to keepers, and to whoever hands their logs over.

ghost use Rattle.std.specs.Prelude.{◌≡◌, ◌≤◌, ◌+◌, ◌++◌, None, Ok, Err, IfErr, OnOk, MatchResult, option_to_list, vec_len, vec_capacity};
ghost use Rattle.live_world.specs.declared.event.KeeperEvent.TheVariants as on;
ghost use Rattle.live_world.specs.Happenings.{KeeperHappens};
ghost use Rattle.live_world.specs.Refusals.{KeeperRefuses, KeeperLeaves};
ghost use Rattle.live_world.specs.Views.{GoesTo};

use crate::event::{HandAct, Planned};
use crate::fault::EventFault;
use crate::keepers;
use crate::parts::LiveParts;
use crate::renewal::{has_said, new_log};
use crate::room::make_room;
use crate::site::{put_site, replace_site, take_site};
use ft_types::{Keeper, Term};
use std::alloc::Global;
use std::option::Option;
use std::result::Result;
use wire::Acknowledgement;

/// Puts it behind the others, where it is there.
fn add_some<T: Drop>(items: &mut Vec<T>, one: Option<T>)
    requires { vec_len items.old + 1 ≤ vec_capacity items.old }
    ensures { items.new.items ≡ items.old.items ++ option_to_list one }
{
    if let Some(one) = one {
        items.push_reserved(one);
    }
}

/// What a keeper said, if anything, and whether it logged.
fn parted(
    logged: Result<Option<Acknowledgement>, EventFault>,
) -> (Option<Acknowledgement>, Result<(), EventFault>)
    ensures { MatchResult logged (λ said. (result.0 ≡ said) × (result.1 ≡ Ok tt)) (λ f. (result.0 ≡ None) × (result.1 ≡ Err f)) }
{
    match logged {
        Ok(said) => (said, Ok(())),
        Err(fault) => (None, Err(fault)),
    }
}

impl LiveParts {
    /// A keeper begins; what was read of its log meanwhile is handed over.
    pub(crate) fn begin(
        &mut self,
        alloc: Global,
        keeper: Keeper,
        plan: Vec<Planned>,
    ) -> Result<(), EventFault>
        ensures happens { OnOk result (KeeperHappens self.old (on.Begin keeper plan) self.new) }
        ensures refused { IfErr result (KeeperRefuses self.old (on.Begin keeper plan)) }
        ensures left { IfErr result (λ f. KeeperLeaves self.old (on.Begin keeper plan) f self.new) }
        ensures goes { GoesTo self.old self.new }
    {
        let guest = self.image.guest();
        make_room(&mut self.handed)?;
        let Some(mut site) = take_site(&mut self.sites, keeper) else {
            return Err(EventFault::NoKeeper);
        };
        if site.station.is_some() {
            put_site(&mut self.sites, keeper, site);
            return Err(EventFault::Runs);
        }
        let begun = keepers::begin(alloc, guest, keeper, &mut site, plan);
        let handed = keepers::handed(alloc, &guest, keeper, &mut site);
        put_site(&mut self.sites, keeper, site);
        add_some(&mut self.handed, handed?);
        begun
    }

    /// Frames come to a keeper.
    pub(crate) fn take(
        &mut self,
        alloc: Global,
        keeper: Keeper,
        from: usize,
        to: usize,
        piece: usize,
    ) -> Result<(), EventFault>
        ensures happens { OnOk result (KeeperHappens self.old (on.Take keeper from to piece) self.new) }
        ensures refused { IfErr result (KeeperRefuses self.old (on.Take keeper from to piece)) }
        ensures left { IfErr result (λ f. KeeperLeaves self.old (on.Take keeper from to piece) f self.new) }
        ensures goes { GoesTo self.old self.new }
    {
        if from > to || to > self.frames.len() {
            return Err(EventFault::NoFrame);
        }
        let Some(mut site) = take_site(&mut self.sites, keeper) else {
            return Err(EventFault::NoKeeper);
        };
        let frames = &self.frames.as_slice()[from..to];
        let taken = keepers::take(alloc, &mut site, frames, piece);
        put_site(&mut self.sites, keeper, site);
        taken
    }

    /// A keeper logs and acknowledges; what was read of its log meanwhile is handed over.
    pub(crate) fn log(
        &mut self,
        alloc: Global,
        keeper: Keeper,
        plan: Vec<Planned>,
    ) -> Result<(), EventFault>
        ensures happens { OnOk result (KeeperHappens self.old (on.Log keeper plan) self.new) }
        ensures refused { IfErr result (KeeperRefuses self.old (on.Log keeper plan)) }
        ensures left { IfErr result (λ f. KeeperLeaves self.old (on.Log keeper plan) f self.new) }
        ensures goes { GoesTo self.old self.new }
    {
        let guest = self.image.guest();
        make_room(&mut self.said)?;
        make_room(&mut self.handed)?;
        let Some(mut site) = take_site(&mut self.sites, keeper) else {
            return Err(EventFault::NoKeeper);
        };
        if site.station.is_none() {
            put_site(&mut self.sites, keeper, site);
            return Err(EventFault::Rests);
        }
        let logged = keepers::log(alloc, &mut site, plan);
        let handed = keepers::handed(alloc, &guest, keeper, &mut site);
        put_site(&mut self.sites, keeper, site);
        let (said, done) = parted(logged);
        add_some(&mut self.said, said);
        add_some(&mut self.handed, handed?);
        done
    }

    /// A keeper's process ends.
    pub(crate) fn end_keeper(&mut self, keeper: Keeper) -> Result<(), EventFault>
        ensures happens { OnOk result (KeeperHappens self.old (on.KeeperEnds keeper) self.new) }
        ensures refused { IfErr result (KeeperRefuses self.old (on.KeeperEnds keeper)) }
        ensures left { IfErr result (λ f. KeeperLeaves self.old (on.KeeperEnds keeper) f self.new) }
        ensures goes { GoesTo self.old self.new }
    {
        let Some(mut site) = take_site(&mut self.sites, keeper) else {
            return Err(EventFault::NoKeeper);
        };
        site.station = None;
        put_site(&mut self.sites, keeper, site);
        Ok(())
    }

    /// A keeper's machine crashes.
    pub(crate) fn crash(&mut self, keeper: Keeper, left: usize) -> Result<(), EventFault>
        ensures happens { OnOk result (KeeperHappens self.old (on.Crash keeper left) self.new) }
        ensures refused { IfErr result (KeeperRefuses self.old (on.Crash keeper left)) }
        ensures left { IfErr result (λ f. KeeperLeaves self.old (on.Crash keeper left) f self.new) }
        ensures goes { GoesTo self.old self.new }
    {
        let Some(mut site) = take_site(&mut self.sites, keeper) else {
            return Err(EventFault::NoKeeper);
        };
        keepers::crash(&mut site, left);
        put_site(&mut self.sites, keeper, site);
        Ok(())
    }

    /// A keeper is lost.
    pub(crate) fn lose(&mut self, keeper: Keeper) -> Result<(), EventFault>
        ensures happens { OnOk result (KeeperHappens self.old (on.Lose keeper) self.new) }
        ensures refused { IfErr result (KeeperRefuses self.old (on.Lose keeper)) }
        ensures left { IfErr result (λ f. KeeperLeaves self.old (on.Lose keeper) f self.new) }
        ensures goes { GoesTo self.old self.new }
    {
        let Some(_lost) = take_site(&mut self.sites, keeper) else {
            return Err(EventFault::NoKeeper);
        };
        Ok(())
    }

    /// A keeper's number goes to a new log, where its old one acknowledged nothing in the term or behind it.
    pub(crate) fn renew(
        &mut self,
        alloc: Global,
        keeper: Keeper,
        term: Term,
        handed: Vec<usize>,
    ) -> Result<(), EventFault>
        ensures happens { OnOk result (KeeperHappens self.old (on.Renew keeper term handed) self.new) }
        ensures refused { IfErr result (KeeperRefuses self.old (on.Renew keeper term handed)) }
        ensures left { IfErr result (λ f. KeeperLeaves self.old (on.Renew keeper term handed) f self.new) }
        ensures goes { GoesTo self.old self.new }
    {
        if has_said(&self.said, keeper, term) {
            return Err(EventFault::HasSaid);
        }
        let guest = self.image.guest();
        let quorum = self.quorum;
        let files = new_log(alloc, guest, quorum, keeper, term, &self.handed, &handed)?;
        replace_site(&mut self.sites, keeper, term, files)
    }

    /// Whoever hands a keeper's log over does this.
    pub(crate) fn hand(
        &mut self,
        alloc: Global,
        keeper: Keeper,
        act: HandAct,
    ) -> Result<(), EventFault>
        ensures happens { OnOk result (KeeperHappens self.old (on.Hand keeper act) self.new) }
        ensures refused { IfErr result (KeeperRefuses self.old (on.Hand keeper act)) }
        ensures left { IfErr result (λ f. KeeperLeaves self.old (on.Hand keeper act) f self.new) }
        ensures goes { GoesTo self.old self.new }
    {
        make_room(&mut self.handed)?;
        let Some(mut site) = take_site(&mut self.sites, keeper) else {
            return Err(EventFault::NoKeeper);
        };
        if let Err(fault) = site.files.hand_does(alloc, act) {
            put_site(&mut self.sites, keeper, site);
            return Err(fault);
        }
        let handed = keepers::handed(alloc, &self.image.guest(), keeper, &mut site);
        put_site(&mut self.sites, keeper, site);
        add_some(&mut self.handed, handed?);
        Ok(())
    }
}
