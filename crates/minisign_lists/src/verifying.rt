//! Checks a file against the entry of its name in a signed list.

ghost use Rattle.std.specs.Prelude.{◌≡◌, ◌≤◌, ◌++◌, length, [], ℕ, List, Option, option_map, IfOk, IfErr};
ghost use Rattle.std.specs.Prelude.{Result};
ghost use Rattle.std.specs.Prelude.{Err};
ghost use Rattle.minisign_lists.specs.Faults.{ListFault, map_ok};
ghost use Rattle.minisign_lists.specs.Pieces.{IsFedFile, IsOpen};
ghost use Rattle.minisign_lists.specs.Verdicts.{check_list_name, listed_verdict};

use crate::comments::names_list;
use crate::digests::FileCheck;
use crate::faults::{ListFault, Result};
use crate::finding::find_listed;
use crate::lines::LongDigest;
use minisign::{Scheme, verify_in_place};

// Checks that the first `file:` field of the trusted comment has the name of the list, if a name is
// given.
fn check_list_name(list_name: Option<&str>, comment: &str) -> Result<()>
    ensures { result ≡ check_list_name (option_map (λ n. n.now) list_name.entry) comment.now }
{
    match list_name {
        Some(list_name) if !names_list(comment, list_name) => Err(ListFault::OtherList),
        _ => Ok(()),
    }
}

/// Verifies a list with the texts of a public key and a signature, and compares data in memory with
/// the entry for `name`. Returns the trusted comment of the list. Does not allocate. `long` is the
/// hash function of 128 digits on a line of the list that does not name it. `room` is scratch space,
/// which must be at least as long as the text of the signature.
///
/// Errors come in this order: those of `minisign::verify_in_place` for the list, with legacy
/// signatures always rejected; `OtherList`, if `list_name` is given and the first `file:` field of
/// the trusted comment has another name or does not exist; those of [`find_listed`];
/// `DigestMismatch`.
#[tactic(auto, unfolding(crate::specs::Verdicts::listed_verdict))]
pub fn verify_listed<'a, S: Scheme>(
    scheme: &S,
    pk_text: &str,
    sig_text: &'a str,
    list_name: Option<&str>,
    long: LongDigest,
    list: &str,
    name: &str,
    message: &[u8],
    room: &mut [u8],
) -> Result<&'a str>
    requires { length sig_text.now ≤ length room.old }
    // **For every scheme, all files and all data: the result is the list's trusted comment exactly if the
    // signature is valid for the list and prehashed, the comment names the list (if a list name is given),
    // every line is well formed, the name is on exactly one line, and the data has the digest on that line.
    // Otherwise it is the error of the first check that fails.**
    ensures { map_ok (λ t. t.now) result
        ≡ listed_verdict (S.accepts scheme.now) pk_text.now sig_text.now
        (option_map (λ n. n.now) list_name.entry) long list.now name.now message.now }
{
    let comment = verify_in_place(scheme, pk_text, sig_text, list.as_bytes(), false, room)?;
    check_list_name(list_name, comment)?;
    let entry = find_listed(long, list, name)?;
    if !entry.digest.matches(message) {
        return Err(ListFault::DigestMismatch);
    }
    Ok(comment)
}

/// A file that comes in pieces. Its list was verified and contains its name.
#[derive(Drop)]
pub struct ListedFile<'a> {
    comment: &'a str,
    check: FileCheck,
}

#[tactic(auto, unfolding(crate::specs::Pieces::IsFedFile, crate::specs::Verdicts::listed_verdict))]
impl<'a> ListedFile<'a> {
    /// Verifies the list and finds the entry of the name, as [`verify_listed`] does. Then pass the
    /// data to `update`.
    pub fn new<S: Scheme>(
        scheme: &S,
        pk_text: &str,
        sig_text: &'a str,
        list_name: Option<&str>,
        long: LongDigest,
        list: &str,
        name: &str,
        room: &mut [u8],
    ) -> Result<ListedFile<'a>>
        requires { length sig_text.now ≤ length room.old }
        // On success, the file has been fed no data, and its verdict on any data will be that of
        // `verify_listed`.
        ensures fed { IfOk result (λ file. IsFedFile file (listed_verdict (S.accepts scheme.now) pk_text.now
            sig_text.now (option_map (λ n. n.now) list_name.entry) long list.now name.now) []) }
        // The calls of `update` and `finish` are allowed.
        ensures usable { IfOk result IsOpen }

        // After an error, `verify_listed` would return the same error for all data.
        ensures refused { IfErr result (λ e. (m : List ℕ) → listed_verdict (S.accepts scheme.now)
            pk_text.now sig_text.now (option_map (λ n. n.now) list_name.entry) long list.now name.now
            m ≡ Err e) }
    {
        let comment = verify_in_place(scheme, pk_text, sig_text, list.as_bytes(), false, room)?;
        check_list_name(list_name, comment)?;
        let entry = find_listed(long, list, name)?;
        Ok(ListedFile {
            comment,
            check: FileCheck::new(entry.digest),
        })
    }

    /// Feeds the next piece of the data.
    pub fn update(&mut self, piece: &[u8])
        requires { IsOpen self.old }
        // The piece is appended to the data that the file was fed.
        ensures fed { (verdict : List ℕ → Result (List ℕ) ListFault) (m : List ℕ)
            → IsFedFile self.old verdict m → IsFedFile self.new verdict (m ++ piece.now) }
        // More calls are allowed.
        ensures usable { IsOpen self.new }
    {
        self.check.update(piece);
    }

    /// Returns the verdict on the data that was fed.
    pub fn finish(self) -> Result<&'a str>
        requires { IsOpen self }
        // The result is the verdict on all data that the file was fed.
        ensures { (verdict : List ℕ → Result (List ℕ) ListFault) (m : List ℕ)
            → IsFedFile self.entry verdict m → map_ok (λ t. t.now) result ≡ verdict m }
    {
        if self.check.finish() {
            Ok(self.comment)
        } else {
            Err(ListFault::DigestMismatch)
        }
    }
}
