//! Replaces files in one step: even if the program is killed or the disk is full, the path leads to
//! either the complete old file or the complete new one.

ghost use Rattle.std.specs.Prelude.{◌≡◌, ◌++◌, ℕ, List, Ok, IfErr, IfOk, IfSome, OnErr, OnOk, codes, false};
ghost use Rattle.std.specs.Prelude.{is_ok, is_some, string_bytes, true};
ghost use Rattle.minisign_tool.specs.Replacing.{IsBeside, IsTemporaryName, IsWriteFault, is_file};

use crate::permissions::give_permissions;
use minisign::base::devices::sinks::{WriterSink, put_and_flush};
use minisign::base::{NamedFault, PError, Result};
use std::fs::{File, Metadata, OpenOptions};
use std::os::unix::fs::{MetadataExt, OpenOptionsExt};
use std::random::RandomSource;
use std::{fs, io};

/// The mode of a new file: everybody may read and write it, except for the bits that the umask removes.
pub const MODE_FOR_ALL: u32 = 0o666;

/// The mode of a new file that only its owner may read and write.
pub const MODE_FOR_OWNER: u32 = 0o600;

// The maximum number of links that are followed one after another, as in Linux.
const MAX_LINKS: u32 = 40;

// The maximum number of names that are tried for a temporary file.
const MAX_NAMES: u64 = 100;

/// The new contents of a file.
#[derive(Clone, Copy)]
pub struct Contents<'a> {
    /// The path as it was given.
    pub path: &'a str,
    /// The permission bits if no file exists yet, before the umask.
    pub mode: u32,
    /// All the bytes of the file.
    pub bytes: &'a [u8],
}

// The target of a path.
#[derive(Drop)]
enum Place {
    // A regular file, or no file yet.
    File(FilePlace),
    // Anything else, such as a device, a pipe or a stream of the program itself. It is written
    // directly.
    Stream,
}

// The path after following all links, and the existing file.
#[derive(Drop)]
struct FilePlace {
    path: String,
    older: Option<Metadata>,
    keeps_permissions: bool,
}

// A temporary file beside the target, complete and synced. If it is dropped before it is installed,
// it is deleted.
struct TemporaryFile {
    rt: HostRuntime,
    temporary_path: String,
    place: FilePlace,
    directory: Option<File>,
    is_installed: bool,
}

impl Drop for TemporaryFile {
    fn drop(self) {
        if !self.is_installed {
            let _removed = fs::remove_file(&self.rt, self.temporary_path.as_str());
        }
        let TemporaryFile {
            rt: _rt,
            temporary_path: _temporary_path,
            place: _place,
            directory: _directory,
            is_installed: _is_installed,
        } = self;
    }
}

impl TemporaryFile {
    // Gives the temporary file the permissions of the existing file, writes all bytes and syncs it.
    fn fill(&self, file: File, bytes: &[u8]) -> Result<()>
        ensures { IfErr result IsWriteFault }
    {
        if self.place.keeps_permissions {
            written(give_permissions(&file, &self.place.older))?;
        }
        let Ok(()) = put_and_flush(&mut WriterSink::new(&file), bytes) else {
            return Err(NamedFault::WritingFailed.into());
        };
        written(file.sync_all())
    }

    // Renames the temporary file to the target, in one step. If this fails, the temporary file is still
    // deleted when it is dropped.
    fn install(&mut self) -> Result<()>
        ensures installed { OnOk result (self.new ≡ record self.old { is_installed = true }) }
        ensures unchanged { OnErr result (self.new ≡ self.old) }
        ensures refused { IfErr result IsWriteFault }
    {
        written(fs::rename(
            &self.rt,
            self.temporary_path.as_str(),
            self.place.path.as_str(),
        ))?;
        self.is_installed = true;
        Ok(())
    }

    // Syncs the directory, so that the new name survives a crash. Does nothing if the directory
    // could not be opened or its file system cannot sync directories.
    fn sync(&self) -> Result<()>
        ensures { IfErr result IsWriteFault }
    {
        let Some(directory) = &self.directory else {
            return Ok(());
        };
        match directory.sync_all() {
            Err(error) if error.kind() != io::ErrorKind::InvalidInput => Err(
                NamedFault::WritingFailed.into(),
            ),
            _ => Ok(()),
        }
    }
}

/// Replaces the file at the path, after following links, in one step: creates a temporary file
/// beside it, writes and syncs it, and renames it. The new file gets the permissions and, if that
/// is allowed, the owner and the group of the existing file, or else `mode`. Its group gets no
/// permission that others do not have. Anything that is not a regular file is written directly.
///
/// If it fails, with out of memory or `WritingFailed`, the existing file is unchanged and no
/// temporary file is left. But if only the sync of the directory failed, the new file is already
/// installed.
pub fn replace_file(rt: &HostRuntime, contents: Contents<'_>) -> Result<()>
    // The only errors are `out of memory` and `writing failed`.
    ensures { IfErr result IsWriteFault }
{
    let place = find_place(rt, contents.path)?;
    match make_temporary_file(rt, place, contents)? {
        Some(mut temporary) => {
            temporary.install()?;
            temporary.sync()
        }
        None => write_stream(rt, contents),
    }
}

/// Replaces the file of a public key and the file of its secret key, each as `replace_file` does. Both new
/// files are created and synced, and anything that is not a regular file is written, before any file is
/// replaced. The secret key's file is replaced last.
///
/// If both paths lead to the same file, it ends up with the secret key and the mode for new files,
/// because the existing file's permissions were also chosen for a public key. If the paths are two
/// hard links to the same file, each of them becomes a separate file.
pub fn replace_both(rt: &HostRuntime, public: Contents<'_>, secret: Contents<'_>) -> Result<()>
    // The only errors are `out of memory` and `writing failed`.
    ensures { IfErr result IsWriteFault }
{
    let public_place = find_place(rt, public.path)?;
    let secret_place = find_place(rt, secret.path)?.apart_from(&public_place);
    let mut public_file = make_temporary_file(rt, public_place, public)?;
    let mut secret_file = make_temporary_file(rt, secret_place, secret)?;
    put_both(rt, public, secret, &mut public_file, &mut secret_file)
}

// Writes directly what is not a regular file, installs both temporary files, and then syncs the new
// names.
fn put_both(
    rt: &HostRuntime,
    public: Contents<'_>,
    secret: Contents<'_>,
    public_file: &mut Option<TemporaryFile>,
    secret_file: &mut Option<TemporaryFile>,
) -> Result<()>
    ensures public_installed { OnOk result (IfSome public_file.new (λ t. t.is_installed ≡ true)) }
    ensures secret_installed { OnOk result (IfSome secret_file.new (λ t. t.is_installed ≡ true)) }
    ensures kept { (is_some public_file.new ≡ is_some public_file.old)
        × (is_some secret_file.new ≡ is_some secret_file.old) }
    ensures refused { IfErr result IsWriteFault }
{
    if public_file.is_none() {
        write_stream(rt, public)?;
    }
    if secret_file.is_none() {
        write_stream(rt, secret)?;
    }
    install(public_file)?;
    install(secret_file)?;
    sync(public_file)?;
    sync(secret_file)
}

// Renames the temporary file to its target, if there is one.
fn install(temporary: &mut Option<TemporaryFile>) -> Result<()>
    ensures installed { OnOk result (IfSome temporary.new (λ t. t.is_installed ≡ true)) }
    ensures kept { is_some temporary.new ≡ is_some temporary.old }
    ensures refused { IfErr result IsWriteFault }
{
    match temporary {
        Some(temporary) => temporary.install(),
        None => Ok(()),
    }
}

// Syncs the directory of the temporary file, if there is one.
fn sync(temporary: &Option<TemporaryFile>) -> Result<()>
    ensures { IfErr result IsWriteFault }
{
    match temporary {
        Some(temporary) => temporary.sync(),
        None => Ok(()),
    }
}

impl Place {
    // Returns this place. If both places are the same file, its permissions are not kept.
    fn apart_from(self, other: &Place) -> Place {
        match self {
            Place::File(place) => Place::File(FilePlace {
                keeps_permissions: !other.leads_to(&place.older),
                path: place.path,
                older: place.older,
            }),
            Place::Stream => Place::Stream,
        }
    }

    // Returns true if `file` is the existing file at this place.
    fn leads_to(&self, file: &Option<Metadata>) -> bool {
        match (self, file) {
            (
                Place::File(
                    FilePlace {
                        older: Some(older),
                        ..
                    },
                ),
                Some(file),
            ) => is_same_file(older, file),
            _ => false,
        }
    }
}

/// Returns true if both are the same file.
pub fn is_same_file(one: &Metadata, other: &Metadata) -> bool {
    one.dev() == other.dev() && one.ino() == other.ino()
}

// Finds the target of a path.
fn find_place(rt: &HostRuntime, path: &str) -> Result<Place>
    ensures { IfErr result IsWriteFault }
{
    let older = match fs::metadata(rt, path) {
        Ok(found) if found.is_file() => Some(found),
        Ok(_) => return Ok(Place::Stream),
        Err(error) if error.kind() == io::ErrorKind::NotFound && !path.is_empty() => None,
        Err(_) => return Err(NamedFault::WritingFailed.into()),
    };
    Ok(match follow_links(rt, path)? {
        Some(path) => Place::File(FilePlace {
            path,
            older,
            keeps_permissions: true,
        }),
        None => Place::Stream,
    })
}

// Follows all links. Returns `None` if a link refers to a stream of the program itself, such as
// `/dev/stdout`.
fn follow_links(rt: &HostRuntime, path: &str) -> Result<Option<String>>
    ensures { IfErr result IsWriteFault }
{
    let mut path = String::from_str(rt.alloc(), path)?;
    for _ in 0..MAX_LINKS {
        let link = match fs::symlink_metadata(rt, path.as_str()) {
            Ok(found) if found.is_symlink() => found,
            Ok(_) => return Ok(Some(path)),
            Err(error) if error.kind() == io::ErrorKind::NotFound => return Ok(Some(path)),
            Err(_) => return Err(NamedFault::WritingFailed.into()),
        };
        if is_of_processes(rt, &link) {
            return Ok(None);
        }
        let target = written(fs::read_link(rt, path.as_str()))?;
        path = path_beside(rt, &path, target.as_str())?;
    }
    Err(NamedFault::WritingFailed.into())
}

// Returns true if the link is in `/proc`, where the system shows the open files of each process as
// links.
fn is_of_processes(rt: &HostRuntime, link: &Metadata) -> bool {
    match fs::metadata(rt, "/proc") {
        Ok(processes) => processes.dev() == link.dev(),
        Err(_) => false,
    }
}

// Creates and fills the temporary file for a place. Returns `None` if the place is not a regular
// file.
fn make_temporary_file(
    rt: &HostRuntime,
    place: Place,
    contents: Contents<'_>,
) -> Result<Option<TemporaryFile>>
    ensures made { IfOk result (λ temporary. (is_some temporary ≡ is_file place)
        × IfSome temporary (λ t. t.is_installed ≡ false)) }
    ensures refused { IfErr result IsWriteFault }
{
    let Place::File(place) = place else {
        return Ok(None);
    };
    let mode = match &place.older {
        Some(_) => {
            // A file without write permission is not replaced.
            let _writable = written(OpenOptions::new().write(true).open(rt, place.path.as_str()))?;
            MODE_FOR_OWNER
        }
        None => contents.mode,
    };
    let directory = fs::open(rt, directory_of(&place.path)).ok();
    let (file, temporary_path) = create_beside(rt, &place.path, mode)?;
    let temporary = TemporaryFile {
        rt: *rt,
        temporary_path,
        place,
        directory,
        is_installed: false,
    };
    temporary.fill(file, contents.bytes)?;
    Ok(Some(temporary))
}

// Creates a temporary file with a new name in the directory of a path.
fn create_beside(rt: &HostRuntime, path: &str, mode: u32) -> Result<(File, String)>
    ensures named { IfOk result (λ made. (name : List ℕ) × IsTemporaryName name
        × IsBeside path.now name (string_bytes made.1)) }
    ensures refused { IfErr result IsWriteFault }
{
    let mut number = [0u8; 8];
    written(rt.fill_bytes(&mut number))?;
    let number = u64::from_le_bytes(number);
    for more in 0..MAX_NAMES {
        let name = temporary_name(rt, number.wrapping_add(more))?;
        let temporary_path = path_beside(rt, path, &name)?;
        let made = OpenOptions::new()
            .write(true)
            .create_new(true)
            .mode(mode)
            .open(rt, temporary_path.as_str());
        match made {
            Ok(file) => return Ok((file, temporary_path)),
            Err(error) if error.kind() == io::ErrorKind::AlreadyExists => {}
            Err(_) => return Err(NamedFault::WritingFailed.into()),
        }
    }
    Err(NamedFault::WritingFailed.into())
}

// Returns the name of a temporary file.
fn temporary_name(rt: &HostRuntime, number: u64) -> Result<String>
    ensures named { IfOk result (λ name. IsTemporaryName (string_bytes name)) }
    ensures refused { IfErr result IsWriteFault }
{
    let digits = format!(in rt.alloc(); "{number:016x}")?;
    Ok(format!(in rt.alloc(); ".minisign_tool-{digits}")?)
}

// Writes directly to something that is not a regular file.
fn write_stream(rt: &HostRuntime, contents: Contents<'_>) -> Result<()>
    ensures { IfErr result IsWriteFault }
{
    let stream = written(
        OpenOptions::new()
            .write(true)
            .truncate(true)
            .open(rt, contents.path),
    )?;
    match put_and_flush(&mut WriterSink::new(stream), contents.bytes) {
        Ok(()) => Ok(()),
        Err(_) => Err(NamedFault::WritingFailed.into()),
    }
}

// Maps the error of a system call that writes: a failed allocation is `OutOfMemory`, and any other
// error is `WritingFailed`.
fn written<T>(answer: io::Result<T>) -> Result<T>
    ensures kept { IfOk answer (λ value. result ≡ Ok value) }
    ensures mapped { IfErr answer (λ _. is_ok result ≡ false) }
    ensures refused { IfErr result IsWriteFault }
{
    match answer {
        Ok(value) => Ok(value),
        Err(error) if error.kind() == io::ErrorKind::OutOfMemory => Err(
            NamedFault::OutOfMemory.into(),
        ),
        Err(_) => Err(NamedFault::WritingFailed.into()),
    }
}

// Returns a path that is relative to the directory of another path.
fn path_beside(rt: &HostRuntime, path: &str, other: &str) -> Result<String>
    ensures joined { IfOk result (λ joined. IsBeside path.now other.now (string_bytes joined)) }
    ensures refused { IfErr result IsWriteFault }
{
    match path.rsplit_once('/') {
        Some((directory, _)) if !other.starts_with('/') => path_in(rt, directory, other),
        _ => Ok(String::from_str(rt.alloc(), other)?),
    }
}

// Joins a directory and a path.
fn path_in(rt: &HostRuntime, directory: &str, path: &str) -> Result<String>
    ensures joined { IfOk result (λ joined. string_bytes joined ≡ directory.now ++ codes "/" ++ path.now) }
    ensures refused { IfErr result IsWriteFault }
{
    Ok(format!(in rt.alloc(); "{directory}/{path}")?)
}

// Returns the directory of a path.
fn directory_of(path: &str) -> &str {
    match path.rsplit_once('/') {
        Some(("", _)) => "/",
        Some((directory, _)) => directory,
        None => ".",
    }
}
