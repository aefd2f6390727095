//! A regular file that is read, and replaced as a whole.

use std::fs::{self, File, Metadata, OpenOptions, Permissions};
use std::io::{self, ErrorKind, Write};
use std::os::unix::fs::{MetadataExt, OpenOptionsExt, PermissionsExt, fchown};
use std::path::{Path, PathBuf};

// How many names beside the file are tried: one of a run that was cut off stays taken.
const TRIES: u32 = 1000;

// The bits of a mode that the new file gets. The others, such as set-user-ID, mean nothing for a text.
const KEPT_BITS: u32 = 0o777;

/// Opens the regular file at a path that leads through no symlink. Returns `InvalidInput` if the path names anything else,
/// such as a FIFO or a device, whose text may have no end, or if the path changes meanwhile.
pub fn open_regular(rt: &HostRuntime, path: Path<'_>) -> io::Result<File> {
    // Looks before it opens: to open a device may change it.
    if !fs::symlink_metadata(rt, path)?.is_file() {
        let message = "this is not a regular file";
        return Err(io::Error::new(ErrorKind::InvalidInput, message));
    }
    // Asks to write too, so that a file is replaced only by those who may write to it. Linux opens a FIFO that took the
    // file's place without waiting then.
    let file = OpenOptions::new().read(true).write(true).open(rt, path)?;
    let (found, named) = (file.metadata()?, fs::symlink_metadata(rt, path)?);
    if !found.is_file() || found.dev() != named.dev() || found.ino() != named.ino() {
        let message = "the file was replaced while it was opened";
        return Err(io::Error::new(ErrorKind::InvalidInput, message));
    }
    Ok(file)
}

/// Replaces the file at a path that leads through no symlink. The text is written to a new file beside it with the owner,
/// group and permissions of the old one, which is synced and then renamed. If a step fails, the old file stays, and the
/// new one is removed if it can be. No clause of std says so: read the body.
pub fn replace(rt: &HostRuntime, path: Path<'_>, old: &Metadata, text: &str) -> io::Result<()> {
    let (mut file, fresh) = create_beside(rt, path)?;
    let mut done = write_synced(&mut file, old, text);
    if done.is_ok() {
        done = fs::rename(rt, fresh.as_path(), path);
    }
    if done.is_err() {
        let _ = fs::remove_file(rt, fresh.as_path());
    }
    done
}

/// Syncs the folder of the file at a path, and with it the name that the file got last.
pub fn sync_folder(rt: &HostRuntime, path: Path<'_>) -> io::Result<()> {
    match path.parent() {
        Some(folder) => fs::open(rt, folder)?.sync_all(),
        None => Ok(()),
    }
}

/// Creates a file beside the one at a path, under the first name that no file has. Nobody else may read it yet.
fn create_beside(rt: &HostRuntime, path: Path<'_>) -> io::Result<(File, PathBuf)> {
    let mut options = OpenOptions::new();
    options.write(true).create_new(true).mode(0o600);
    for turn in 0..TRIES {
        let fresh = format!(in rt.alloc(); "{}.{turn}.new", path.as_str())?;
        match options.open(rt, fresh.as_str()) {
            Ok(file) => return Ok((file, PathBuf::from(fresh))),
            Err(error) if error.kind() == ErrorKind::AlreadyExists => {}
            Err(error) => return Err(error),
        }
    }
    Err(io::Error::from(ErrorKind::AlreadyExists))
}

/// Writes a text to a new file with the owner, group and permissions of an old one, and returns when it is on the disk.
fn write_synced(file: &mut File, old: &Metadata, text: &str) -> io::Result<()> {
    set_owner(file, old.uid(), old.gid())?;
    file.set_permissions(Permissions::from_mode(old.mode() & KEPT_BITS))?;
    file.write_all(text.as_bytes())?;
    file.sync_all()
}

/// Gives an open file to an owner and a group. It takes no path: somebody else may have given that to another file.
fn set_owner(file: &File, owner: u32, group: u32) -> io::Result<()> {
    match fchown(file, Some(owner), Some(group)) {
        Ok(()) => Ok(()),
        Err(error) => {
            let message = "the owner or the group of the file cannot be kept";
            Err(io::Error::new(error.kind(), message))
        }
    }
}
