//! Gives a new file the permissions of the file that it replaces.

ghost use Rattle.std.specs.Prelude.{◌≡◌};
ghost use Rattle.minisign_tool.specs.Permissions.{KeepsPermissions, LosesGroup, group_bits, other_bits};
ghost use Rattle.minisign_tool.specs.Permissions.{owner_bits};

use std::fs::{File, Metadata, Permissions};
use std::io;
use std::io::ErrorKind;
use std::os::unix::fs::{MetadataExt, PermissionsExt, fchown};

// The nine permission bits of a file's mode.
const ALL: u32 = 0o777;

// The maximum number of attempts of a system call that signals interrupt.
const MAX_INTERRUPTIONS: u32 = 1_000_000;

/// Returns the permission bits for a new file that replaces one with this mode.
///
/// If the old file has an access control list, the group bits of its mode are the mask of the list instead
/// of the permissions of the group, and the mode does not show which. So the new file keeps only those group
/// bits that all others have too.
#[tactic(auto, using(std::proofs::lemmas::Nat::and_le_r))]
pub fn permissions_after(older: u32) -> u32
    // The result has the old mode's bits for the owner and for all others, and those group bits that all
    // others have too. No other bit is set.
    ensures permissions { KeepsPermissions older result }
{
    let (owner, group, others) = digits(older);
    owner * 64 + others + (group & others) * 8
}

/// Returns the permission bits for a new file that could not get the group of the old one. `older` are the
/// bits that it would have with this group. Members of the old group now have the permissions of all others,
/// so all others get only bits that the old group had too.
#[tactic(auto, using(std::proofs::lemmas::Nat::and_le_r))]
pub fn without_group(older: u32) -> u32
    // The result has the bits of the owner, none for the group, and for all others those bits that the group
    // had too. No other bit is set.
    ensures lost { LosesGroup older result }
{
    let (owner, group, others) = digits(older);
    owner * 64 + (group & others)
}

// Returns the three octal digits of a mode's permissions: for the owner, for the group, and for all others.
fn digits(mode: u32) -> (u32, u32, u32)
    ensures { result ≡ (owner_bits mode, group_bits mode, other_bits mode) }
{
    (mode / 64 % 8, mode / 8 % 8, mode % 8)
}

/// Gives a new file the owner and the group of the old one, as far as the system allows it, and the
/// permissions that `permissions_after` and `without_group` compute. Does nothing if there is no
/// old file.
pub fn give_permissions(file: &File, older: &Option<Metadata>) -> io::Result<()> {
    let Some(older) = older else {
        return Ok(());
    };
    let made = retry_interrupted(|| file.metadata())?;
    let is_same = made.uid() == older.uid() && made.gid() == older.gid();
    let has_group = is_same
        || retry_interrupted(|| fchown(file, Some(older.uid()), Some(older.gid()))).is_ok()
        || retry_interrupted(|| fchown(file, None, Some(older.gid()))).is_ok();
    let same_mode = permissions_after(older.mode());
    let expected_mode = if has_group {
        same_mode
    } else {
        without_group(same_mode)
    };
    if made.mode() & ALL == expected_mode {
        return Ok(());
    }
    file.set_permissions(Permissions::from_mode(expected_mode))
}

// Makes a system call, and repeats it if a signal interrupts it.
fn retry_interrupted<T, F: FnMut() -> io::Result<T>>(mut call: F) -> io::Result<T>
    requires { F.IsAlwaysCallable call }
{
    for _ in 0..MAX_INTERRUPTIONS {
        match call() {
            Err(error) if error.kind() == ErrorKind::Interrupted => {}
            answer => return answer,
        }
    }
    Err(ErrorKind::Interrupted.into())
}
