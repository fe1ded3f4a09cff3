//! A keeper's machine: its files, and its process where that runs.

ghost use Rattle.std.specs.Prelude.{◌≡◌, ◌<◌, length, replicate, slice_set, None, Some, IfOk, IfErr, IfSome, IfNone, OnOk, OnErr};
ghost use Rattle.ft_types.specs.declared.names.TheConstants.{KEEPER_LIMIT};
ghost use Rattle.live_world.specs.Renewals.{IsReplaced, IsNotReplaced};
ghost use Rattle.live_world.specs.Sites.{empty_site, site_at};

use crate::fault::EventFault;
use crate::files::MemoryFiles;
use ft_types::{Keeper, Memory, Term};
use stations::KeeperStation;
use std::alloc::Global;
use std::option::Option;
use std::result::Result;

/// A keeper's machine.
#[derive(Drop)]
pub struct Site {
    /// Its files.
    pub files: MemoryFiles,
    /// Its process, between two calls.
    pub station: Option<KeeperStation>,
}

/// So many machines with nothing on disk, and no process.
pub(crate) fn empty_sites(alloc: Global, keepers: u8) -> Result<Vec<Option<Site>>, Memory>
    ensures { IfOk result (λ sites. sites.items ≡ replicate keepers (Some empty_site)) }
{
    let mut sites = Vec::new(alloc);
    for _made in 0..keepers {
        sites.push(Some(Site {
            files: MemoryFiles::new(alloc),
            station: None,
        }))?;
    }
    Ok(sites)
}

/// Takes a machine out, where it is there.
pub(crate) fn take_site(sites: &mut Vec<Option<Site>>, keeper: Keeper) -> Option<Site>
    ensures some { IfSome result (λ site. (site_at sites.old.items keeper ≡ Some site) × (sites.new.items ≡ slice_set sites.old.items keeper None)) }
    ensures within { IfSome result (λ site. keeper < length sites.old.items) }
    ensures named { IfSome result (λ site. keeper < KEEPER_LIMIT) }
    ensures none { IfNone result ((site_at sites.old.items keeper ≡ None) × (sites.new.items ≡ sites.old.items)) }
{
    if keeper.index() >= sites.len() {
        return None;
    }
    sites[keeper.index()].take()
}

/// Puts a machine with these files in the place of the keeper's, whose last fence is not above the term.
pub(crate) fn replace_site(
    sites: &mut Vec<Option<Site>>,
    keeper: Keeper,
    term: Term,
    files: MemoryFiles,
) -> Result<(), EventFault>
    ensures replaced { OnOk result (IsReplaced sites.old.items keeper term files sites.new.items) }
    ensures err { OnErr result (sites.new.items ≡ sites.old.items) }
    ensures refused { IfErr result (IsNotReplaced sites.old.items keeper term) }
{
    let Some(old) = take_site(sites, keeper) else {
        return Err(EventFault::NoKeeper);
    };
    let fence = old.files.fence();
    if term == 0 || fence > term {
        put_site(sites, keeper, old);
        return Err(EventFault::Fenced(fence));
    }
    let station = None;
    put_site(sites, keeper, Site { files, station });
    Ok(())
}

/// Puts a machine back.
pub(crate) fn put_site(sites: &mut Vec<Option<Site>>, keeper: Keeper, site: Site)
    requires { keeper < length sites.old.items }
    ensures { sites.new.items ≡ slice_set sites.old.items keeper (Some site) }
{
    sites[keeper.index()] = Some(site);
}
