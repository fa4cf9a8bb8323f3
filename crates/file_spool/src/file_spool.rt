// A folder of message files, as the system has it.
ghost use Rattle.std.specs.Prelude.{◌≡◌, ◌≤◌, IfOk, length};
ghost use Rattle.file_spool.specs.FileSpool.{untold_folder, untold_distinct};

use crate::ahead::{Ahead, copy_front};
use base_bytes::Text;
use base_devices::{Failed, Name, Spool, counted};
use std::fs::{self, File, OpenFile, ReadDir};
use std::io::{self, ErrorKind};
use std::marker::Model;
use std::os::unix::fs::{FileExt, MetadataExt};
use std::rt::Files;

/// The message files of a folder.
///
/// Names come in the system's order, and what is no regular file by its own type, as a link or a folder, is passed over.
/// Each of these is a fault: a name that is not UTF-8 or has more than 255 bytes, the 16,777,217th entry, a file that
/// went away, and want of memory. Nothing is opened before the first call. One file is open at a time: the one that was
/// asked last, until another is asked. Its bytes are read 16,384 at a time, and what was read is not asked again until
/// bytes elsewhere are.
///
/// Nothing here is proved of the files themselves: the contract speaks of the count of faults alone.
#[derive(Drop)]
pub struct FileSpool<R: Files + AllocGlobal + Clone + Drop> {
    rt: R,
    folder: Text,
    entries: Option<ReadDir<R>>,
    open: Option<OpenMessage<R>>,
    ahead: Ahead,
    faults: u64,
}

// The file that was asked last.
#[derive(Drop)]
struct OpenMessage<R: Files> {
    name: Name,
    file: R::File,
}

impl<R: Files + AllocGlobal + Clone + Drop> Model for FileSpool<R> {
    ghost use Rattle.std.specs.Prelude.{ℕ};

    ghost Value = { ℕ };

    ghost view = { λ s. s.faults };
}

impl<R: Files + AllocGlobal + Clone + Drop> FileSpool<R> {
    ghost use Rattle.base_devices.specs.Causes.{HasCause};

    /// The folder at the path. Nothing is opened before the first call.
    pub fn new(rt: R, folder: Text) -> Self
        ensures { result ≡ 0 }
    {
        FileSpool {
            rt,
            folder,
            entries: None,
            open: None,
            ahead: Ahead::new(),
            faults: 0,
        }
    }

    // Reads ahead from an offset of the open file on.
    fn fill(&mut self, at: u64) -> Result<(), Failed>
    where
        R::File: FileExt,
        ensures { HasCause self.old self.new result }
    {
        self.ahead.forget();
        let into = &mut self.ahead.piece;
        let answer = read_open(&self.open, at, into);
        let count = counted(&mut self.faults, answer)?;
        self.ahead.keep(at, count);
        Ok(())
    }
}

// The next regular file's name.
fn next_file<R: Files + AllocGlobal + Clone + Drop>(
    entries: &mut ReadDir<R>,
) -> io::Result<Option<Name>> {
    for entry in entries {
        let entry = entry?;
        if entry.file_type()?.is_file() {
            let name = Name::of(entry.file_name()).ok_or(ErrorKind::InvalidFilename)?;
            return Ok(Some(name));
        }
    }
    Ok(None)
}

fn next_name<R: Files + AllocGlobal + Clone + Drop>(
    rt: &R,
    folder: &str,
    entries: &mut Option<ReadDir<R>>,
) -> io::Result<Option<Name>> {
    if entries.is_none() {
        *entries = Some(fs::read_dir(rt, folder)?);
    }
    match entries {
        Some(entries) => next_file(entries),
        None => Ok(None),
    }
}

// Opens a file for reading, unless it is the one that is open.
fn open<R: Files + AllocGlobal + Clone + Drop>(
    rt: &R,
    folder: &str,
    name: &Name,
    open: &mut Option<OpenMessage<R>>,
    ahead: &mut Ahead,
) -> io::Result<()> {
    if let Some(message) = open {
        if message.name.as_str() == name.as_str() {
            return Ok(());
        }
    }
    *open = None;
    ahead.forget();
    let text = name.as_str();
    let path = format!(in rt.alloc(); "{folder}/{text}")?;
    let file = File::open(rt, path.as_str())?;
    let name = Name::of(text).ok_or(ErrorKind::InvalidFilename)?;
    *open = Some(OpenMessage { name, file });
    Ok(())
}

// The time of the open file. One that is no regular file is an error.
fn file_time<R: Files>(open: &Option<OpenMessage<R>>) -> io::Result<u64> {
    match open {
        Some(message) => {
            let found = message.file.metadata()?;
            if !found.is_file() {
                return Err(ErrorKind::InvalidInput.into());
            }
            Ok(found.mtime().max(0) as u64)
        }
        None => Err(ErrorKind::NotFound.into()),
    }
}

fn read_open<R: Files>(open: &Option<OpenMessage<R>>, at: u64, into: &mut [u8]) -> io::Result<usize>
where
    R::File: FileExt,
    ensures { IfOk result (λ count. count ≤ length into.new) }
{
    match open {
        Some(message) => message.file.read_at(into, at),
        None => Err(ErrorKind::NotFound.into()),
    }
}

impl<R: Files + AllocGlobal + Clone + Drop> Spool for FileSpool<R>
where
    R::File: FileExt,
{
    ghost state = { untold_folder };

    ghost spool_rest = { λ a b. Unit {0} };

    ghost distinct = { untold_distinct };

    ghost rest_same = { λ a. tt };

    ghost rest_then = { λ a b c ab bc. tt };

    fn next_name(&mut self) -> Result<Option<Name>, Failed> {
        let answer = next_name(&self.rt, self.folder.as_str(), &mut self.entries);
        counted(&mut self.faults, answer)
    }

    fn time(&mut self, name: &Name) -> Result<u64, Failed> {
        let answer = open(
            &self.rt,
            self.folder.as_str(),
            name,
            &mut self.open,
            &mut self.ahead,
        );
        counted(&mut self.faults, answer)?;
        let answer = file_time(&self.open);
        counted(&mut self.faults, answer)
    }

    fn read(&mut self, name: &Name, at: u64, into: &mut [u8]) -> Result<usize, Failed> {
        if into.is_empty() {
            return Ok(0);
        }
        let answer = open(
            &self.rt,
            self.folder.as_str(),
            name,
            &mut self.open,
            &mut self.ahead,
        );
        counted(&mut self.faults, answer)?;
        if self.ahead.from(at).is_empty() {
            self.fill(at)?;
        }
        Ok(copy_front(self.ahead.from(at), into))
    }
}
