//! The new file that takes the place of one that is rewritten, and the backup of that one.

use std::alloc::Global;
use std::fs::{File, Files, Metadata, OpenFile, OpenOptions, Permissions};
use std::io::{self, ErrorKind};
use std::os::unix::fs::{MetadataExt, OpenOptionsExt, PermissionsExt};

/// How many names are tried for a new file.
const NAMES: u32 = 1000;

/// The bit of a file that runs as its owner, and that of one that runs as its group.
const SET_USER_ID: u32 = 0o4000;

const SET_GROUP_ID: u32 = 0o2000;

/// A file to rewrite: its path, without symbolic links, and who may read and write it.
#[derive(Drop)]
pub(crate) struct Original {
    pub(crate) path: String,
    pub(crate) metadata: Metadata,
}

/// The file that gets the name of the original.
#[derive(Clone, Copy)]
pub(crate) struct Successor<'p> {
    pub(crate) original: &'p Original,
    /// Its name until then.
    pub(crate) name: &'p str,
    /// What is after the name of the original in that of its backup. If it is empty, there is none.
    pub(crate) suffix: &'p str,
}

/// Creates a file beside the one with this path, which only its owner may read and write, and returns its name.
pub(crate) fn create_beside<R: Files>(
    rt: &R,
    alloc: Global,
    path: &str,
) -> io::Result<(String, R::File)> {
    for number in 0..NAMES {
        let name = format!(in alloc; "{path}.regex-{number}")?;
        match create(rt, name.as_str()) {
            Ok(file) => return Ok((name, file)),
            Err(error) => match error.kind() {
                ErrorKind::AlreadyExists => {}
                _ => return Err(error),
            },
        }
    }
    Err(io::Error::from(ErrorKind::AlreadyExists))
}

/// Creates a file, which only its owner may read and write.
fn create<R: Files>(rt: &R, name: &str) -> io::Result<R::File> {
    let mut how = OpenOptions::new();
    how.write(true);
    how.create_new(true);
    how.mode(0o600);
    how.open(rt, name)
}

/// Gives a new file the permissions and the name of the original, of which a backup is kept if there is a suffix. At each
/// moment that name is the one of the original or of the new file.
///
/// # Errors
/// Returns `AlreadyExists` if the backup has the name of another file.
pub(crate) fn succeed<R: Files>(
    rt: &R,
    alloc: Global,
    successor: Successor<'_>,
    new: &R::File,
) -> io::Result<()> {
    let original = successor.original;
    take_permissions(rt, &original.metadata, successor.name, new)?;
    new.sync_all()?;
    if successor.suffix.is_empty() {
        return rt.rename(successor.name, original.path.as_str());
    }
    let backup = format!(in alloc; "{}{}", original.path, successor.suffix)?;
    let is_new = keep_backup(rt, original, backup.as_str())?;
    let renamed = rt.rename(successor.name, original.path.as_str());
    if is_new && renamed.is_err() {
        let _ = rt.remove_file(backup.as_str());
    }
    renamed
}

/// Gives the original a second name, or copies it where that cannot be, and returns whether it did not have that name yet: an
/// interrupted run may have given it.
fn keep_backup<R: Files>(rt: &R, original: &Original, backup: &str) -> io::Result<bool> {
    let Err(error) = rt.hard_link(original.path.as_str(), backup) else {
        return Ok(true);
    };
    match error.kind() {
        ErrorKind::AlreadyExists if names_original(rt, original, backup) => Ok(false),
        ErrorKind::AlreadyExists => Err(error),
        _ => {
            copy_original(rt, original, backup)?;
            Ok(true)
        }
    }
}

/// Returns whether a name is one of the original.
fn names_original<R: Files>(rt: &R, original: &Original, name: &str) -> bool {
    match rt.symlink_metadata(name) {
        Ok(found) => {
            found.dev() == original.metadata.dev() && found.ino() == original.metadata.ino()
        }
        Err(_) => false,
    }
}

/// Copies the original, with its permissions. What cannot be copied to its end is removed.
fn copy_original<R: Files>(rt: &R, original: &Original, backup: &str) -> io::Result<()> {
    let from = File::open(rt, original.path.as_str())?;
    let to = create(rt, backup)?;
    let copied = fill_backup(rt, original, backup, from, to);
    if copied.is_err() {
        let _ = rt.remove_file(backup);
    }
    copied
}

fn fill_backup<R: Files>(
    rt: &R,
    original: &Original,
    backup: &str,
    mut from: R::File,
    mut to: R::File,
) -> io::Result<()> {
    io::copy(&mut from, &mut to)?;
    take_permissions(rt, &original.metadata, backup, &to)?;
    to.sync_all()
}

/// Gives a new file the owner and the group of another one, as far as that is allowed, and then its permissions. Before that
/// only its owner may read and write it.
fn take_permissions<R: Files>(
    rt: &R,
    original: &Metadata,
    name: &str,
    new: &R::File,
) -> io::Result<()> {
    let (uid, gid) = (original.uid(), original.gid());
    if rt.lchown(name, Some(uid), Some(gid)).is_err() {
        let _ = rt.lchown(name, None, Some(gid));
    }
    let found = new.metadata()?;
    let mode = kept_mode(original.mode(), found.uid() == uid, found.gid() == gid);
    new.set_permissions(Permissions::from_mode(mode))
}

/// Returns the permissions of a file that are kept for a new one, which has the same owner and the same group or not: another
/// group may do no more than all may, and the new file runs as its owner or group only if the original did as the same.
fn kept_mode(mode: u32, same_owner: bool, same_group: bool) -> u32 {
    let owner_bits = if same_owner { SET_USER_ID } else { 0 };
    let group_bits = if same_group {
        SET_GROUP_ID | 0o070
    } else {
        (mode & 0o007) << 3
    };
    mode & (0o1707 | owner_bits | group_bits)
}
