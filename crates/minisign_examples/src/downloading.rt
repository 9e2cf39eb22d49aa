//! A caller that verifies a download by the signed list of its release.

ghost use Rattle.std.specs.Prelude.{◌≤◌, ◌<◌, ◌++◌, ℕ, List, Result, Some, length, MatchResult};
ghost use Rattle.minisign.specs.Devices.{ErrorCountRises};
ghost use Rattle.minisign.specs.Reading.{ReadsWhole};
ghost use Rattle.minisign_lists.specs.declared.faults.ListFault.{ListFault};
ghost use Rattle.minisign_lists.specs.Faults.{map_ok};
ghost use Rattle.minisign_lists.specs.Pieces.{IsFedFile, IsOpen};
ghost use Rattle.minisign_lists.specs.Verdicts.{listed_verdict};
ghost use Rattle.minisign_lists.specs.declared.lines.LongDigest.TheVariants.{Rejected};
ghost use Rattle.minisign_examples.specs.Downloading.{IsDownloadVerdict};

use minisign::{DeviceFault, NamedFault, Scheme, Source};
use minisign_lists::{ListFault, ListedFile, LongDigest, Result};

/// The signed list of a release.
#[derive(Clone, Copy, Debug, Drop)]
pub struct SignedList<'a> {
    /// The name of the list, such as `SHA256SUMS`.
    pub name: &'a str,
    /// The text of the list.
    pub text: &'a str,
    /// The text of its signature.
    pub sig_text: &'a str,
}

/// Reads a download to its end and verifies it by a signed list, which must have an entry for its name.
/// Returns the trusted comment of the list. Does not allocate. The data is read through `buf`, which must
/// have at least as many bytes as the signature.
///
/// The errors are those of `minisign_lists::verify_listed`, and `ReadingFailed`. If the list is rejected,
/// nothing is read.
pub fn verify_download<'a, S: Scheme, R: Source>(
    scheme: &S,
    pk_text: &str,
    list: SignedList<'a>,
    name: &str,
    download: &mut R,
    buf: &mut [u8],
) -> Result<&'a str>
    requires not_empty { 0 < length buf.old }
    requires room { length list.sig_text.now ≤ length buf.old }
    // Unless reading fails, the result is the verdict on the whole download under its name in the list: the
    // trusted comment, or the error of the first check that fails.
    ensures { IsDownloadVerdict R.Source download.old download.new (listed_verdict (S.accepts scheme.now)
        pk_text.now list.entry.sig_text.now (Some list.entry.name.now) Rejected list.entry.text.now name.now)
        (map_ok (λ t. t.now) result) }
{
    let mut file = ListedFile::new(
        scheme,
        pk_text,
        list.sig_text,
        Some(list.name),
        LongDigest::Rejected,
        list.text,
        name,
        buf,
    )?;
    match read_all(download, buf, &mut file) {
        Ok(()) => file.finish(),
        Err(_) => Err(ListFault::from(NamedFault::ReadingFailed)),
    }
}

// Reads all data through the buffer, and feeds it to the file.
fn read_all<R: Source>(
    source: &mut R,
    buf: &mut [u8],
    file: &mut ListedFile<'_>,
) -> std::result::Result<(), DeviceFault>
    requires not_empty { 0 < length buf.old }
    requires open { IsOpen file.old }
    ensures fed { MatchResult result (λ _. (message : List ℕ) × ReadsWhole R.Source source.old source.new
        message × ((verdict : List ℕ → Result (List ℕ) ListFault) (m : List ℕ) → IsFedFile file.old verdict m
        → IsFedFile file.new verdict (m ++ message))) (λ _. ErrorCountRises (R.faults source.old)
        (R.faults source.new)) }
    ensures open { IsOpen file.new }
{
    'pieces: loop {
        let n = source.read(buf)?;
        if n == 0 {
            return Ok(());
        }
        file.update(&buf[..n]);
    }
}
