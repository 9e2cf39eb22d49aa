//! Reads the entries of a list, one after the other. Nothing here allocates.

ghost use Rattle.std.specs.Prelude.{◌≡◌, ◌<◌, ◌+◌, ◌∷◌, [], Ok, Err, IfErr, IfOk, IfSome, IfNone};
ghost use Rattle.std.specs.Prelude.{MatchOption, OnSome};
ghost use Rattle.std.specs.Prelude.{length};
ghost use Rattle.std.specs.List.{slice_split};
ghost use Rattle.std.specs.Str.Lines.{lines, strip_carriage_return};
ghost use Rattle.minisign_lists.specs.Faults.{map_ok};
ghost use Rattle.minisign_lists.specs.Lists.{read_list};
ghost use Rattle.minisign_lists.specs.Pieces.{IsNumbered, unread_entries, is_feed, unread_len};
ghost use Rattle.minisign_lists.specs.Positions.{after_line};

use crate::faults::Result;
use crate::lines::{EntryView, LongDigest, read_line};

/// The entries of a list that have not been read yet.
#[derive(Drop)]
pub struct Entries<'a> {
    long: LongDigest,
    // The number of lines read so far.
    line: u64,
    rest: &'a [u8],
}

impl<'a> Entries<'a> {
    /// Returns all entries of a list. `long` is the hash function of 128 digits on a line that does
    /// not name it.
    pub fn new(long: LongDigest, list: &'a str) -> Entries<'a>
        // The entries that are still to be returned are all entries of the list, in the order of
        // their lines.
        ensures unread_entries { unread_entries result ≡ read_list long list.now }
        ensures numbered { IsNumbered result }
    {
        Entries {
            long,
            line: 0,
            rest: list.as_bytes(),
        }
    }

    /// Returns the next entry, or `None` at the end. The error of a malformed line is
    /// `MalformedLine`.
    pub fn next_entry(&mut self) -> Result<Option<EntryView<'a>>>
        requires { IsNumbered self.old }
        // The entries are returned in the order of their lines, and then `None`. An error means
        // that one of the remaining lines is malformed. If there is such a line, the end is never
        // reported.
        ensures entry { IfOk result (λ next. MatchOption next (unread_entries self.old ≡ Ok [])
            (λ e. unread_entries self.old ≡ map_ok (λ es. e ∷ es) (unread_entries self.new))) }
        ensures refused { IfErr result (λ e. unread_entries self.old ≡ Err e) }
        ensures shorter { IfOk result (λ next. OnSome next (unread_len self.new < unread_len self.old)) }
        ensures numbered { IsNumbered self.new }
    {
        'lines: while let Some((line, more)) = next_line(self.rest) {
            self.rest = more;
            self.line += 1;
            if let Some(entry) = read_line(self.long, self.line, line)? {
                return Ok(Some(entry));
            }
        }
        Ok(None)
    }
}

// Splits off the first line, without its line ending.
pub(crate) fn next_line(text: &[u8]) -> Option<(&[u8], &[u8])>
    ensures some { IfSome result (λ p. lines text.now ≡ p.0.now ∷ lines p.1.now) }
    ensures text_after_line { IfSome result (λ p. p.1.now ≡ after_line text.now) }
    ensures shorter { IfSome result (λ p. length p.1.now < length text.now) }
    ensures none { IfNone result (lines text.now ≡ []) }
{
    if text.is_empty() {
        return None;
    }
    match split_line(text) {
        Some((line, more)) => Some((without_return(line), more)),
        None => Some((text, &[])),
    }
}

// Returns the text after its first line feed, or nothing if there is no line feed.
pub(crate) fn after_line(text: &[u8]) -> &[u8]
    ensures { result.now ≡ after_line text.now }
{
    match split_line(text) {
        Some((_, more)) => more,
        None => &[],
    }
}

// Splits a text at its first line feed.
fn split_line(text: &[u8]) -> Option<(&[u8], &[u8])>
    ensures some { IfSome result
        (λ p. slice_split is_feed text.now ≡ p.0.now ∷ slice_split is_feed p.1.now) }
    ensures text_after_line { IfSome result (λ p. p.1.now ≡ after_line text.now) }
    ensures shorter { IfSome result (λ p. length p.1.now < length text.now) }
    ensures none { IfNone result (slice_split is_feed text.now ≡ text.now ∷ []) }
    ensures nothing_after_line { IfNone result (after_line text.now ≡ []) }
{
    match text.iter().position(|&letter| letter == b'\n') {
        Some(at) => Some((&text[..at], &text[at + 1..])),
        None => None,
    }
}

// Returns a line without one carriage return at its end.
fn without_return(line: &[u8]) -> &[u8]
    ensures { result.now ≡ strip_carriage_return line.now }
{
    match line.split_last() {
        Some((b'\r', front)) => front,
        _ => line,
    }
}
