//! The disk of a keeper, by calls of the system; fences that were not changed are remembered. What it holds outside is in no contract.

ghost use Rattle.std.specs.Prelude.{◌≡◌, ⊤, Ok, IfOk};

use ends::{Fault, NamedFile, Paths, Why, file_fault, read_file, sync_folder};
use ft_types::Memory;
use keeper_files::{Disk, DiskFiles, Identity, Known, Part};
use std::alloc::{AllocError, Global};
use std::fs::{File, Metadata, TryLockError};
use std::io;
use std::io::{Read, Seek, SeekFrom, Write};
use std::os::unix::fs::MetadataExt;
use std::result::Result;
use std::sync::{Arc, Mutex};
use std::time::UNIX_EPOCH;

/// The name of a file beside a log.
pub fn beside(alloc: Global, log: &str, ending: &str) -> Result<String, AllocError> {
    let mut name = String::from_str(alloc, log)?;
    name.push_str(ending)?;
    Ok(name)
}

/// The name that is given to a log that is not there, unless that is a link to no file.
fn new_name<R: Paths + AllocGlobal>(rt: &R, log: &str) -> Result<String, Fault> {
    match rt.look_at(log) {
        Ok(found) if found.is_symlink() => Err(Fault::Link),
        _ => Ok(String::from_str(rt.alloc(), log)?),
    }
}

/// The name of a log without links, by which its fences lie beside the file itself.
pub fn real_name<R: Paths + AllocGlobal>(rt: &R, log: &str) -> Result<String, Fault> {
    match rt.real_name(log) {
        Ok(name) => Ok(name),
        Err(error) if error.kind() == io::ErrorKind::NotFound => new_name(rt, log),
        Err(error) => Err(file_fault(&error, NamedFile::Log)),
    }
}

/// When a file was made, in nanoseconds since 1970; 0 where its file system does not tell.
fn born_of(file: &Metadata) -> u64 {
    let Ok(time) = file.created() else {
        return 0;
    };
    match time.duration_since(UNIX_EPOCH) {
        Ok(passed) => u64::try_from(passed.as_nanos()).unwrap_or(0),
        Err(_) => 0,
    }
}

/// Which file it is.
pub fn identity_of(file: &Metadata) -> Identity {
    Identity {
        device: file.dev(),
        inode: file.ino(),
        links: file.nlink(),
        born: born_of(file),
    }
}

/// By what it is known that a file, which is only added to, has what it had.
#[derive(Clone, Copy, PartialEq, Eq)]
struct Stamp {
    device: u64,
    inode: u64,
    size: u64,
    /// When it was changed last, in seconds and nanoseconds.
    changed: (i64, i64),
}

/// What a file had when it was read last.
#[derive(Drop)]
struct LastRead {
    stamp: Stamp,
    bytes: Vec<u8>,
}

/// The stamp of a file. None of a link, which does not tell what becomes of the file behind it.
fn stamp_of(file: &Metadata) -> Option<Stamp> {
    if file.is_symlink() {
        return None;
    }
    Some(Stamp {
        device: file.dev(),
        inode: file.ino(),
        size: file.size(),
        changed: (file.ctime(), file.ctime_nsec()),
    })
}

/// Whether there is anything of a name, a link also.
pub fn is_there<R: Paths + AllocGlobal>(rt: &R, name: &str) -> io::Result<bool> {
    match rt.look_at(name) {
        Ok(_) => Ok(true),
        Err(error) if error.kind() == io::ErrorKind::NotFound => Ok(false),
        Err(error) => Err(error),
    }
}

/// The stamp of the file of a name. None where it is not there.
fn stamp_if_there<R: Paths + AllocGlobal>(rt: &R, name: &str) -> io::Result<Option<Stamp>> {
    match rt.look_at(name) {
        Ok(found) => Ok(stamp_of(&found)),
        Err(error) if error.kind() == io::ErrorKind::NotFound => Ok(None),
        Err(error) => Err(error),
    }
}

/// What the file of a name has; nothing where it is not there.
fn read_if_there<R: Paths + AllocGlobal>(rt: &R, name: &str) -> io::Result<Vec<u8>> {
    match read_file(rt, name) {
        Err(error) if error.kind() == io::ErrorKind::NotFound => Ok(Vec::new(rt.alloc())),
        read => read,
    }
}

/// A copy of bytes.
fn copy_of(alloc: Global, bytes: &[u8]) -> io::Result<Vec<u8>> {
    match bytes.to_vec(alloc) {
        Ok(copy) => Ok(copy),
        Err(AllocError) => Err(io::Error::from(io::ErrorKind::OutOfMemory)),
    }
}

/// The bytes of an open file, from its beginning on.
fn read_again(alloc: Global, file: &mut File) -> io::Result<Vec<u8>> {
    let mut bytes = Vec::new(alloc);
    file.seek(SeekFrom::Start(0))?;
    file.read_to_end(&mut bytes)?;
    Ok(bytes)
}

/// An open file, or the error that it is not.
fn open_file(file: &mut Option<File>) -> io::Result<&mut File> {
    match file {
        Some(file) => Ok(file),
        None => Err(io::Error::from(io::ErrorKind::NotFound)),
    }
}

/// Why a call of the disk failed first.
#[derive(Drop)]
pub struct Reason {
    why: Arc<Mutex<Why>, Global>,
}

impl Reason {
    /// None failed yet.
    pub fn new(alloc: Global) -> Result<Reason, Memory> {
        Ok(Reason {
            why: Arc::new(alloc, Mutex::new(Why::Unknown))?,
        })
    }

    fn share(&self) -> Result<Reason, Memory> {
        Ok(Reason {
            why: Arc::try_clone(&self.why)?,
        })
    }

    /// What came of a call, whose error is noted where it is the first one.
    fn note<T: Drop>(&self, done: io::Result<T>) -> io::Result<T> {
        if let Err(error) = &done
            && let Some(mut why) = self.why.try_lock()
            && matches!(*why, Why::Unknown)
        {
            *why = Why::of(error);
        }
        done
    }

    /// What was done, or its fault with why the disk failed.
    pub fn told<T: Drop>(&self, done: Result<T, Fault>) -> Result<T, Fault>
        ensures { IfOk result (λ it. done ≡ Ok it) }
    {
        match done {
            Ok(it) => Ok(it),
            Err(fault) => match self.why.try_lock() {
                Some(why) => Err(fault.because(*why)),
                None => Err(fault),
            },
        }
    }
}

/// The names of a keeper's files, and those that are open.
#[derive(Drop)]
pub struct Places {
    reason: Reason,
    log: String,
    fences: String,
    mark: String,
    open_log: Option<File>,
    open_fences: Option<File>,
    /// The fences, as they were read last.
    last_read: Option<LastRead>,
}

impl Places {
    /// The names beside a log that is there, none of which is open. Where it is a link they are those of the file to which it leads.
    pub fn of<R: Paths + AllocGlobal>(rt: &R, log: &str, reason: &Reason) -> Result<Places, Fault> {
        Ok(Places::beside(rt, real_name(rt, log)?, reason)?)
    }

    /// The names beside a log that is to be made.
    pub fn new<R: Paths + AllocGlobal>(
        rt: &R,
        log: &str,
        reason: &Reason,
    ) -> Result<Places, Memory> {
        Places::beside(rt, String::from_str(rt.alloc(), log)?, reason)
    }

    fn beside<R: Paths + AllocGlobal>(
        rt: &R,
        log: String,
        reason: &Reason,
    ) -> Result<Places, Memory> {
        let fences = beside(rt.alloc(), log.as_str(), ".fences")?;
        let mark = beside(rt.alloc(), log.as_str(), ".failed")?;
        Ok(Places {
            reason: reason.share()?,
            log,
            fences,
            mark,
            open_log: None,
            open_fences: None,
            last_read: None,
        })
    }

    fn name(&self, part: Part) -> &str {
        match part {
            Part::Log => self.log.as_str(),
            Part::Fences => self.fences.as_str(),
        }
    }

    fn file(&mut self, part: Part) -> &mut Option<File> {
        match part {
            Part::Log => &mut self.open_log,
            Part::Fences => &mut self.open_fences,
        }
    }

    fn log(&mut self) -> io::Result<&mut File> {
        open_file(&mut self.open_log)
    }
}

/// Those files, with what opens them.
#[derive(Drop)]
pub struct HostDisk<R: Paths + AllocGlobal + Copy> {
    rt: R,
    places: Places,
}

impl<R: Paths + AllocGlobal + Copy> HostDisk<R> {
    /// Files of these names.
    pub fn new(rt: &R, places: Places) -> HostDisk<R> {
        HostDisk { rt: *rt, places }
    }
}

impl<R: Paths + AllocGlobal + Copy> Disk for HostDisk<R> {
    ghost deeds = { λ _ _. ⊤ };

    fn is_there(&mut self, part: Part) -> io::Result<bool> {
        let found = is_there(&self.rt, self.places.name(part));
        self.places.reason.note(found)
    }

    fn make(&mut self, part: Part) -> io::Result<()> {
        let made = self.rt.make_new(self.places.name(part));
        let file = self.places.reason.note(made)?;
        *self.places.file(part) = Some(file);
        Ok(())
    }

    fn open(&mut self, part: Part) -> io::Result<()> {
        let opened = self.rt.open_to_keep(self.places.name(part));
        let file = self.places.reason.note(opened)?;
        *self.places.file(part) = Some(file);
        Ok(())
    }

    fn sync_folder(&mut self) -> io::Result<()> {
        let synced = sync_folder(&self.rt, self.places.log.as_str());
        self.places.reason.note(synced)
    }

    fn try_lock_log(&mut self) -> io::Result<bool> {
        match self.places.log()?.try_lock() {
            Ok(()) => Ok(true),
            Err(TryLockError::WouldBlock) => Ok(false),
            Err(TryLockError::Error(error)) => self.places.reason.note(Err(error)),
        }
    }

    fn lock_fences(&mut self) -> io::Result<()> {
        let locked = open_file(&mut self.places.open_fences)?.lock();
        self.places.reason.note(locked)
    }

    fn own_identity(&mut self) -> io::Result<Identity> {
        let found = self.places.log()?.metadata();
        Ok(identity_of(&self.places.reason.note(found)?))
    }

    fn named_identity(&mut self) -> io::Result<Identity> {
        let found = self.rt.look_at(self.places.log.as_str());
        Ok(identity_of(&self.places.reason.note(found)?))
    }

    fn fences_identity(&mut self) -> io::Result<Identity> {
        let found = self.rt.look_at(self.places.fences.as_str());
        Ok(identity_of(&self.places.reason.note(found)?))
    }

    fn is_marked(&mut self) -> io::Result<bool> {
        let found = is_there(&self.rt, self.places.mark.as_str());
        self.places.reason.note(found)
    }

    fn mark(&mut self) -> io::Result<()> {
        let made = self.rt.make_new(self.places.mark.as_str());
        let synced = self.places.reason.note(made)?.sync_all();
        self.places.reason.note(synced)
    }

    fn unmark(&mut self) -> io::Result<()> {
        let removed = self.rt.remove(self.places.mark.as_str());
        self.places.reason.note(removed)
    }

    fn read_log(&mut self, alloc: Global) -> io::Result<Vec<u8>> {
        let read = read_again(alloc, self.places.log()?);
        self.places.reason.note(read)
    }

    /// They are not read again while they have the stamp that they had before they were read last: a fence makes them longer.
    fn read_fences(&mut self, alloc: Global) -> io::Result<Vec<u8>> {
        let found = stamp_if_there(&self.rt, self.places.fences.as_str());
        let stamp = self.places.reason.note(found)?;
        if let Some(stamp) = stamp
            && let Some(last) = &self.places.last_read
            && last.stamp == stamp
        {
            return copy_of(alloc, last.bytes.as_slice());
        }
        let read = read_if_there(&self.rt, self.places.fences.as_str());
        let bytes = self.places.reason.note(read)?;
        self.places.last_read = match stamp {
            Some(stamp) => Some(LastRead {
                stamp,
                bytes: copy_of(alloc, bytes.as_slice())?,
            }),
            None => None,
        };
        Ok(bytes)
    }

    fn cut(&mut self, size: usize) -> io::Result<()> {
        let cut = self.places.log()?.set_len(size as u64);
        self.places.reason.note(cut)
    }

    fn append(&mut self, part: Part, bytes: &[u8]) -> io::Result<()> {
        let added = open_file(self.places.file(part))?.write_all(bytes);
        self.places.reason.note(added)
    }

    fn sync(&mut self, part: Part) -> io::Result<()> {
        let synced = match part {
            Part::Log => self.places.log()?.sync_data(),
            Part::Fences => open_file(&mut self.places.open_fences)?.sync_all(),
        };
        self.places.reason.note(synced)
    }
}

/// The files of a keeper, with what opens them.
pub type HostFiles<R> = DiskFiles<HostDisk<R>>;

/// The open files of a keeper, while nothing is done with them.
#[derive(Drop)]
pub(crate) struct LogFiles {
    places: Places,
    known: Known,
}

impl LogFiles {
    /// Files with which nothing is done for now.
    pub(crate) fn of<R: Paths + AllocGlobal + Copy>(files: HostFiles<R>) -> LogFiles {
        let (disk, known) = files.into_parts();
        LogFiles {
            places: disk.places,
            known,
        }
    }

    /// With what opens them again.
    pub(crate) fn on<R: Paths + AllocGlobal + Copy>(self, rt: &R) -> HostFiles<R> {
        DiskFiles::from_parts(HostDisk::new(rt, self.places), self.known)
    }
}
