//! A new log, filled with what was handed over.

ghost use Rattle.std.specs.Prelude.{◌≡◌, ℕ, List, map, IfOk, IfErr};
ghost use Rattle.log_mending.specs.Mending.{IsWholeLog};
ghost use Rattle.log_mending.specs.declared.faults.MendFault.{MendFault as mend_fault_of_specs};
ghost use Rattle.live_world.specs.Renewals.{made_shelf};
ghost use Rattle.live_world.specs.declared.fault.EventFault.TheVariants.{Mend};

use crate::fault::EventFault;
use crate::files::MemoryFiles;
use ft_types::{Guest, Term};
use log_mending::renew;
use stations::{FilesFault, KeeperFiles};
use std::alloc::Global;
use std::result::Result;

/// New files, which are filled, and neither read nor cut: nothing happens between the acts.
#[derive(Drop)]
struct NewFiles {
    files: MemoryFiles,
}

impl KeeperFiles for NewFiles {
    ghost use Rattle.live_world.specs.machinery.Filled.{TellsNew};

    ghost acts = { λ new done. TellsNew new.files done };

    fn read_log(&mut self, _alloc: Global) -> Result<Vec<u8>, FilesFault> {
        Err(FilesFault::Log)
    }

    fn cut(&mut self, _size: usize) -> Result<(), FilesFault> {
        Err(FilesFault::Log)
    }

    fn add(&mut self, bytes: &[u8]) -> Result<(), FilesFault> {
        self.files.append(bytes)?;
        Ok(())
    }

    fn sync(&mut self) -> Result<(), FilesFault> {
        self.files.bring();
        Ok(())
    }

    fn last_fence(&mut self, _alloc: Global) -> Result<Term, FilesFault> {
        Err(FilesFault::Fences)
    }

    fn add_fence(&mut self, term: Term) -> Result<(), FilesFault> {
        self.files.fence_off(term);
        Ok(())
    }
}

/// New files with all frames of these logs, each once, and with the fence of the term.
pub(crate) fn filled(
    alloc: Global,
    guest: Guest,
    logs: &[Vec<u8>],
    term: Term,
) -> Result<MemoryFiles, EventFault>
    ensures filled { IfOk result (λ files. (bytes : List ℕ) × IsWholeLog guest (map (λ log. log.items) logs.now) bytes × (files ≡ made_shelf bytes term)) }
    ensures refused { IfErr result (λ f. (why : mend_fault_of_specs) × (f ≡ Mend why)) }
{
    let files = MemoryFiles::new(alloc);
    let mut new = NewFiles { files };
    match renew(alloc, guest, &mut new, logs, term) {
        Ok(()) => Ok(new.files),
        Err(fault) => Err(EventFault::Mend(fault)),
    }
}
