//! Looks up a name in a list. Nothing here allocates.

ghost use Rattle.std.specs.Prelude.{◌≡◌, ℕ, List, [], ◌∷◌, Ok, Err, IfErr, IfOk, IsOk, MatchOption};
ghost use Rattle.std.specs.Prelude.{OnSome, ◌<◌};
ghost use Rattle.minisign.specs.Texts.{IsReading};
ghost use Rattle.minisign_lists.specs.Faults.{and_then, checked, map_ok};
ghost use Rattle.minisign_lists.specs.Lines.{LongDigest};
ghost use Rattle.minisign_lists.specs.Lists.{IsListed, listed_entry, only_entry};
ghost use Rattle.minisign_lists.specs.Pieces.{IsNumbered, unread_entries_named, unread_len};

use crate::entries::Entries;
use crate::faults::{ListFault, Result};
use crate::lines::{EntryView, LongDigest};
use crate::names::{is_name, same, without_dot};

/// States that `listed_entry`, the definition by which names are looked up, agrees with the
/// relation `IsListed`. This function is a law: it does nothing, and exists only for its contract.
#[tactic(auto, using(crate::proofs::Deciding::decided))]
pub fn lists_are_decided()
    // A lookup succeeds with an entry exactly if the name can be looked up, every line of the list is well
    // formed, this entry has the name, and all other entries have other names.
    ensures { (long : LongDigest) (list name : List ℕ)
        → IsReading (IsListed long list name) (listed_entry long list name) }
{}

// Returns the next entry with this name.
fn next_entry_named<'a>(entries: &mut Entries<'a>, name: &[u8]) -> Result<Option<EntryView<'a>>>
    requires { IsNumbered entries.old }
    ensures entry { IfOk result (λ next. MatchOption next (unread_entries_named name.now entries.old ≡ Ok [])
        (λ e. unread_entries_named name.now entries.old
        ≡ map_ok (λ es. e ∷ es) (unread_entries_named name.now entries.new))) }
    ensures refused { IfErr result (λ e. unread_entries_named name.now entries.old ≡ Err e) }
    ensures shorter { IfOk result (λ next. OnSome next (unread_len entries.new < unread_len entries.old)) }
    ensures numbered { IsNumbered entries.new }
{
    'entries: while let Some(entry) = entries.next_entry()? {
        if same(entry.name, name) {
            return Ok(Some(entry));
        }
    }
    Ok(None)
}

// Reads the rest of the list, and returns the error of a malformed line.
fn read_to_end(entries: &mut Entries<'_>, name: &[u8]) -> Result<()>
    requires { IsNumbered entries.old }
    ensures { result ≡ checked (unread_entries_named name.now entries.old) }
{
    'entries: while let Some(_) = next_entry_named(entries, name)? {}
    Ok(())
}

/// Returns the entry of a name, which must be on exactly one line of the list.
///
/// A list is UTF-8, and its lines end with LF or CR LF. A line is empty, a comment that begins with
/// `#`, or an entry. An entry has the form of sha256sum, sha512sum and b2sum (`HEX  NAME` or `HEX
/// *NAME`) or that of the BSD tools (`SHA256 (NAME) = HEX`, or with SHA512 or BLAKE2b). Digits may
/// have either case. `long` is the hash function of 128 digits on a line that does not name it.
/// A backslash at the beginning of an entry means that its name contains escapes; no name
/// that can be looked up matches it. The name of an entry is a relative path without empty, `.` or
/// `..` parts. One leading `./` is ignored, in the list and in `name`.
///
/// Errors come in this order: `BadName`, if the name is not such a path, or contains a control
/// character or a backslash; `MalformedLine`, if a line has none of these forms or contains a
/// control character; `NotListed`; `ListedTwice`.
#[tactic(auto, unfolding(crate::specs::Lists::listed_entry))]
pub fn find_listed<'a>(long: LongDigest, list: &'a str, name: &str) -> Result<EntryView<'a>>
    // The result is the entry with this name if the name can be looked up, every line of the list is well
    // formed, and exactly one entry has the name. Otherwise the error is that of the first check that
    // fails.
    ensures { result ≡ listed_entry long list.now name.now }
{
    if !is_name(name.as_bytes()) {
        return Err(ListFault::BadName);
    }
    let mut entries = Entries::new(long, list);
    find_only(&mut entries, without_dot(name.as_bytes()))
}

// Returns the only entry of a name. The list is read to its end, because a malformed line is an
// error wherever it is.
fn find_only<'a>(entries: &mut Entries<'a>, name: &[u8]) -> Result<EntryView<'a>>
    requires { IsNumbered entries.old }
    ensures { result ≡ and_then (unread_entries_named name.now entries.old) only_entry }
{
    let Some(entry) = next_entry_named(entries, name)? else {
        return Err(ListFault::NotListed);
    };
    let Some(second) = next_entry_named(entries, name)? else {
        return Ok(entry);
    };
    read_to_end(entries, name)?;
    Err(ListFault::ListedTwice { line: second.line })
}
