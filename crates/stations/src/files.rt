//! The files of a keeper.

ghost use Rattle.std.specs.Prelude.{◌≡◌, ◌++◌, ◌⊎◌, ℕ, List, [], ◌∷◌, IfOk, IfErr, OnOk};
ghost use Rattle.stations.specs.Acts.{Act, SawLog, CutTo, Added, Synced, SawFence, Fenced, Failed, Does};

use crate::faults::FilesFault;
use ft_types::Term;
use std::alloc::Global;
use std::result::Result;

/// A keeper's log and the fences beside it. They outlive the process, and other processes read both and add fences.
pub trait KeeperFiles {
    // Which acts may be all that this process did with them, in its order: files that tell nothing say so of any. Whoever answers a fault has failed as
    // the last that was done.
    ghost acts: { Self → List Act → Type 0 };

    /// Reads the log.
    fn read_log(&mut self, alloc: Global) -> Result<Vec<u8>, FilesFault>
        ensures ok { IfOk result (λ bytes. Does (acts self.old) (acts self.new) (SawLog bytes.items ∷ [])) }
        ensures failed { IfErr result (λ fault. Does (acts self.old) (acts self.new) (Failed fault ∷ [])) };

    /// Cuts the log to its first bytes.
    fn cut(&mut self, size: usize) -> Result<(), FilesFault>
        ensures ok { OnOk result (Does (acts self.old) (acts self.new) (CutTo size ∷ [])) }
        ensures failed { IfErr result (λ fault. Does (acts self.old) (acts self.new) (Failed fault ∷ [])) };

    /// Adds the bytes to the log, or a beginning of them where that fails.
    fn add(&mut self, bytes: &[u8]) -> Result<(), FilesFault>
        ensures ok { OnOk result (Does (acts self.old) (acts self.new) (Added bytes.now ∷ [])) }
        ensures failed { IfErr result (λ fault. (front : List ℕ) × (rest : List ℕ) × (bytes.now ≡ front ++ rest) ×
            Does (acts self.old) (acts self.new) (Added front ∷ Failed fault ∷ [])) };

    /// Brings what the log has to disk.
    fn sync(&mut self) -> Result<(), FilesFault>
        ensures ok { OnOk result (Does (acts self.old) (acts self.new) (Synced ∷ [])) }
        ensures failed { IfErr result (λ fault. Does (acts self.old) (acts self.new) (Failed fault ∷ [])) };

    /// Reads the last fence, 0 where there is none, where the log is the file of its name still.
    fn last_fence(&mut self, alloc: Global) -> Result<Term, FilesFault>
        ensures ok { IfOk result (λ fence. Does (acts self.old) (acts self.new) (SawFence fence ∷ [])) }
        ensures failed { IfErr result (λ fault. Does (acts self.old) (acts self.new) (Failed fault ∷ [])) };

    /// Adds a fence, and brings it to disk. Where that fails it may be there.
    fn add_fence(&mut self, term: Term) -> Result<(), FilesFault>
        ensures ok { OnOk result (Does (acts self.old) (acts self.new) (Fenced term ∷ [])) }
        ensures failed { IfErr result (λ fault. Does (acts self.old) (acts self.new) (Failed fault ∷ []) ⊎
            Does (acts self.old) (acts self.new) (Fenced term ∷ Failed fault ∷ [])) };
}
