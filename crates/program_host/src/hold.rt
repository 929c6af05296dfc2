//! A feed's name, taken for one run alone.

ghost use Rattle.std.specs.Prelude.{◌≡◌, ◌≢◌, ◌++◌, Err, IfOk, Ok, false, string_bytes};
ghost use Rattle.std.specs.IoError.{error_kind};
ghost use Rattle.feed_files.specs.Files.{new_name};
ghost use Rattle.program_host.specs.Host.{LeadsTo};

use crate::trouble::{Asked, Trouble};
use std::fs::{self, File, OpenOptions, TryLockError};
use std::io::{self, ErrorKind};
use std::path::Path;

/// How many links are followed from a name.
const MAX_LINKS: u32 = 40;

/// A name that is held: where it leads, and the open file that is locked. The system gives the lock back where that
/// file is closed, and so at the end of every run, however it ends.
#[derive(Drop)]
pub struct Hold {
    /// The name as it was given.
    pub name: String,
    /// The name of the writing.
    pub new: String,
    /// The file that the name leads to.
    pub place: String,
    /// The file of the writing, which stands beside it.
    pub new_place: String,
    pub lock: File,
    /// Whether a writing or a renaming was asked for since.
    pub is_touched: bool,
}

impl Hold {
    /// Takes a name: its file and the folder must let the feed be stored, and no other run may have it.
    pub fn take(host: &HostRuntime, name: &str) -> Result<Hold, Trouble>
        ensures name { IfOk result (λ hold. string_bytes hold.name ≡ name.now) }
        ensures untouched { IfOk result (λ hold. hold.is_touched ≡ false) }
        ensures new { IfOk result (λ hold. string_bytes hold.new ≡ new_name name.now) }
        ensures beside { IfOk result (λ hold. string_bytes hold.new_place ≡ new_name (string_bytes hold.place)) }
    {
        let place = place_of(host, name).map_err(|error| trouble(Asked::Find, error))?;
        check_file(host, place.as_str()).map_err(|error| trouble(Asked::Replace, error))?;
        let lock = locked(host, place.as_str())?;
        let new_place = beside(host, place.as_str(), ".new").map_err(|error| trouble(
            Asked::Write,
            error,
        ))?;
        check_folder(host, new_place.as_str()).map_err(|error| trouble(Asked::Write, error))?;
        let new = beside(host, name, ".new").map_err(|error| trouble(Asked::Write, error))?;
        let name = copied(host, name).map_err(|error| trouble(Asked::Find, error))?;
        Ok(Hold {
            name,
            new,
            place,
            new_place,
            lock,
            is_touched: false,
        })
    }

    /// Where a name leads: the held one and that of its writing to their places, any other to itself.
    pub fn place_of<'b>(&'b self, name: &'b str) -> &'b str
        ensures { LeadsTo self.now name.now result.now }
    {
        if name == self.name.as_str() {
            return self.place.as_str();
        }
        if name == self.new.as_str() {
            return self.new_place.as_str();
        }
        name
    }
}

fn trouble(asked: Asked, error: io::Error) -> Trouble {
    Trouble { asked, error }
}

fn copied(host: &HostRuntime, text: &str) -> io::Result<String>
    ensures { IfOk result (λ s. string_bytes s ≡ text.now) }
{
    Ok(String::from_str(host.alloc(), text)?)
}

/// The name with an ending.
fn beside(host: &HostRuntime, name: &str, ending: &str) -> io::Result<String>
    ensures { IfOk result (λ s. string_bytes s ≡ name.now ++ ending.now) }
{
    let mut longer = String::from_str(host.alloc(), name)?;
    longer.push_str(ending)?;
    Ok(longer)
}

/// Where the link of a name leads.
fn target_of(host: &HostRuntime, name: &str) -> io::Result<String> {
    let target = fs::read_link(host, name)?;
    let path = Path::new(name).with_file_name(host.alloc(), target.as_str())?;
    Ok(path.into_string())
}

/// Where a name leads: past its links, to a file or to where one can be made.
fn place_of(host: &HostRuntime, name: &str) -> io::Result<String> {
    if name.is_empty() {
        return Err(io::Error::from(ErrorKind::NotFound));
    }
    let mut place = copied(host, name)?;
    for _ in 0..MAX_LINKS {
        if !is_link(host, place.as_str())? {
            return Ok(place);
        }
        place = target_of(host, place.as_str())?;
    }
    Err(io::Error::from(ErrorKind::FilesystemLoop))
}

fn is_link(host: &HostRuntime, name: &str) -> io::Result<bool> {
    match fs::symlink_metadata(host, name) {
        Ok(found) => Ok(found.is_symlink()),
        Err(error) => missing_or(error, false),
    }
}

/// The value where nothing of the name is there, and else the error.
pub fn missing_or<T: Drop>(error: io::Error, value: T) -> io::Result<T>
    ensures missing { error_kind error ≡ ErrorKind.NotFound → result ≡ Ok value }
    ensures failed { error_kind error ≢ ErrorKind.NotFound → result ≡ Err error }
{
    if error.kind() == ErrorKind::NotFound {
        return Ok(value);
    }
    Err(error)
}

/// Refuses what stands in the place of a feed and cannot be replaced by one: all but a plain file that may be written.
fn check_file(host: &HostRuntime, place: &str) -> io::Result<()> {
    match fs::metadata(host, place) {
        Ok(found) => {
            check_plain(&found)?;
            if found.permissions().readonly() {
                return Err(io::Error::from(ErrorKind::PermissionDenied));
            }
            let _ = OpenOptions::new().write(true).open(host, place)?;
            Ok(())
        }
        Err(error) => missing_or(error, ()),
    }
}

fn check_plain(found: &fs::Metadata) -> io::Result<()> {
    if found.is_dir() {
        return Err(io::Error::from(ErrorKind::IsADirectory));
    }
    if !found.is_file() {
        return Err(io::Error::new(ErrorKind::InvalidInput, "it is no plain file"));
    }
    Ok(())
}

/// Refuses a folder in which the file of the writing cannot be made, by making it. What has its name stays.
fn check_folder(host: &HostRuntime, new_place: &str) -> io::Result<()> {
    match File::create_new(host, new_place) {
        Ok(_) => fs::remove_file(host, new_place),
        Err(error) => {
            if error.kind() != ErrorKind::AlreadyExists {
                return Err(error);
            }
            if fs::symlink_metadata(host, new_place)?.is_dir() {
                return Err(io::Error::from(ErrorKind::IsADirectory));
            }
            Ok(())
        }
    }
}

/// The open file whose lock is that of the place, locked.
fn locked(host: &HostRuntime, place: &str) -> Result<File, Trouble> {
    let lock = lock_file(host, place).map_err(|error| trouble(Asked::Lock, error))?;
    match lock.try_lock() {
        Ok(()) => Ok(lock),
        Err(TryLockError::WouldBlock) => Err(trouble(
            Asked::Hold,
            io::Error::from(ErrorKind::WouldBlock),
        )),
        Err(TryLockError::Error(error)) => Err(trouble(Asked::Lock, error)),
    }
}

/// The file beside the place that is locked. It is made where it is not there, and never written or removed. Where it
/// is another user's it is opened to be read.
fn lock_file(host: &HostRuntime, place: &str) -> io::Result<File> {
    let name = beside(host, place, ".lock")?;
    match fs::symlink_metadata(host, name.as_str()) {
        Ok(found) => check_plain(&found)?,
        Err(error) => missing_or(error, ())?,
    }
    let mut how = OpenOptions::new();
    how.read(true).write(true).create(true);
    match how.open(host, name.as_str()) {
        Ok(file) => Ok(file),
        Err(error) => {
            if error.kind() != ErrorKind::PermissionDenied {
                return Err(error);
            }
            match File::open(host, name.as_str()) {
                Ok(file) => Ok(file),
                Err(_) => Err(error),
            }
        }
    }
}
