// The main file and the new file beside it, as files of the system.
ghost use Rattle.std.specs.Prelude.{◌<◌, ◌≤◌, IfOk, length};

use std::fs::{File, Metadata, OpenFile, OpenOptions, Permissions};
use std::io::{ErrorKind, Write};
use std::os::fd::AsRawFd;
use std::os::unix::fs::{FileExt, MetadataExt, OpenOptionsExt, PermissionsExt};
use std::path::Path;
use std::rt::Files;
use std::{fs, io};

// Read, write and run, for the owner, the group and all others.
const PERMISSION_BITS: u32 = 0o777;

// The owner alone may read and write.
const PRIVATE_MODE: u32 = 0o600;

// What a file is made with, less the umask.
const USUAL_MODE: u32 = 0o666;

// The numbers of standard input, output and error.
const LAST_STREAM: i32 = 2;

// Refuses a file that the system gave the number of a standard stream, since that was closed when the program began: what
// is printed there would be written into the file.
fn apart_from_streams<F: AsRawFd + Drop>(file: F) -> io::Result<F> {
    if file.as_raw_fd() <= LAST_STREAM {
        return Err(ErrorKind::Other.into());
    }
    Ok(file)
}

// The regular file at the path, or None where nothing is there. A link is followed, and nothing is opened, so a pipe
// can't hang it.
fn find_file<R: Files>(rt: &R, path: &str) -> io::Result<Option<Metadata>> {
    match fs::metadata(rt, path) {
        Ok(found) if found.is_file() => Ok(Some(found)),
        Ok(_) => Err(ErrorKind::InvalidInput.into()),
        Err(error) if error.kind() == ErrorKind::NotFound => Ok(None),
        Err(error) => Err(error),
    }
}

// A file's name is on the disk once its folder is.
fn sync_folder<R: Files>(rt: &R, path: &str) -> io::Result<()> {
    let folder = Path::new(path).parent().map_or("", |p| p.as_str());
    let folder = if folder.is_empty() { "." } else { folder };
    File::open(rt, folder)?.sync_all()
}

/// The main file. It is opened at the first call, and stays open.
#[derive(Drop)]
pub(crate) struct MainFile<R: Files> {
    file: Option<R::File>,
    // Whether the folder was synced since the file took its name. An earlier run may have been killed before it did
    // that, so at first it is false.
    is_name_synced: bool,
}

impl<R: Files> MainFile<R> {
    /// The main file before its first call.
    pub(crate) fn closed(is_name_synced: bool) -> Self {
        MainFile {
            file: None,
            is_name_synced,
        }
    }

    // Opens the file for reading and writing, if it is there and not open yet.
    fn open(&mut self, rt: &R, path: &str) -> io::Result<()>
    where
        R::File: AsRawFd,
    {
        if self.file.is_none() && find_file(rt, path)?.is_some() {
            let file = OpenOptions::new().read(true).write(true).open(rt, path)?;
            self.file = Some(apart_from_streams(file)?);
        }
        Ok(())
    }

    /// The length in bytes, or None where nothing is at the path.
    pub(crate) fn length(&mut self, rt: &R, path: &str) -> io::Result<Option<u64>>
    where
        R::File: AsRawFd,
    {
        self.open(rt, path)?;
        match &self.file {
            Some(file) => Ok(Some(file.metadata()?.len())),
            None => Ok(None),
        }
    }

    /// Reads at least one byte. A file that ends at or before the offset is an error.
    pub(crate) fn read_at(
        &mut self,
        rt: &R,
        path: &str,
        at: u64,
        into: &mut [u8],
    ) -> io::Result<usize>
    where
        R::File: FileExt + AsRawFd,
        ensures { IfOk result (λ count. (0 < count) × (count ≤ length into.new)) }
    {
        self.open(rt, path)?;
        match &self.file {
            Some(file) => {
                let count = file.read_at(into, at)?;
                if count == 0 {
                    return Err(ErrorKind::UnexpectedEof.into());
                }
                Ok(count)
            }
            None => Err(ErrorKind::NotFound.into()),
        }
    }

    /// Writes all the bytes. Where the file ends before the offset, zeros come to stand between; code that is generic
    /// over `Disk` asks for no such offset.
    pub(crate) fn write_at(&mut self, rt: &R, path: &str, at: u64, bytes: &[u8]) -> io::Result<()>
    where
        R::File: FileExt + AsRawFd,
    {
        self.open(rt, path)?;
        match &self.file {
            Some(file) => file.write_all_at(bytes, at),
            None => Err(ErrorKind::NotFound.into()),
        }
    }

    /// Cuts the file to its first bytes, so many. A shorter one gets zeros at its end; code that is generic over `Disk`
    /// asks for no such length.
    pub(crate) fn cut(&mut self, rt: &R, path: &str, length: u64) -> io::Result<()>
    where
        R::File: AsRawFd,
    {
        self.open(rt, path)?;
        match &self.file {
            Some(file) => file.set_len(length),
            None => Err(ErrorKind::NotFound.into()),
        }
    }

    /// Puts the file's bytes on the disk, with the length that reads them back, and its name where that is not there.
    pub(crate) fn sync(&mut self, rt: &R, path: &str) -> io::Result<()>
    where
        R::File: AsRawFd,
    {
        self.open(rt, path)?;
        match &self.file {
            Some(file) => file.sync_data()?,
            None => return Err(ErrorKind::NotFound.into()),
        }
        if !self.is_name_synced {
            sync_folder(rt, path)?;
            self.is_name_synced = true;
        }
        Ok(())
    }
}

/// The new file, from its start until it takes the main file's place.
#[derive(Drop)]
pub(crate) struct NewFile<R: Files> {
    file: R::File,
    name: String,
}

impl<R: Files + AllocGlobal + Drop> NewFile<R> {
    /// Makes an empty new file, with the permission bits of the main file, if there is one.
    pub(crate) fn start(rt: &R, path: &str) -> io::Result<Self> {
        let main = find_file(rt, path)?;
        let name = format!(in rt.alloc(); "{path}.NEW")?;
        remove_if_there(rt, name.as_str())?;
        let file = match main {
            Some(main) => create_like(rt, name.as_str(), &main)?,
            None => create_new(rt, name.as_str(), USUAL_MODE)?,
        };
        Ok(NewFile { file, name })
    }

    /// Adds bytes at the end.
    pub(crate) fn write(&mut self, bytes: &[u8]) -> io::Result<()> {
        self.file.write_all(bytes)
    }

    /// Puts the bytes on the disk, and the permission bits too.
    pub(crate) fn sync(&self) -> io::Result<()> {
        self.file.sync_all()
    }

    /// Puts the file in the main file's place, and that on the disk.
    pub(crate) fn publish(self, rt: &R, path: &str) -> io::Result<()> {
        fs::rename(rt, self.name.as_str(), path)?;
        sync_folder(rt, path)
    }
}

fn remove_if_there<R: Files>(rt: &R, name: &str) -> io::Result<()> {
    match fs::remove_file(rt, name) {
        Err(error) if error.kind() != ErrorKind::NotFound => Err(error),
        _ => Ok(()),
    }
}

// Makes a file where nothing is, not even a link. The mode is less the umask.
fn create_new<R: Files>(rt: &R, name: &str, mode: u32) -> io::Result<R::File> {
    OpenOptions::new()
        .write(true)
        .create_new(true)
        .mode(mode)
        .open(rt, name)
}

// Makes a file that is the owner's alone until it has the other one's permission bits.
fn create_like<R: Files>(rt: &R, name: &str, other: &Metadata) -> io::Result<R::File> {
    let file = create_new(rt, name, PRIVATE_MODE)?;
    file.set_permissions(Permissions::from_mode(other.mode() & PERMISSION_BITS))?;
    Ok(file)
}
