//! Finds the trusted comment in a signature text, for callers that store its position instead of
//! the comment.

ghost use Rattle.std.specs.Prelude.{◌≡◌, ◌+◌, ◌≤◌, ◌++◌, [], List, ℕ, Ok, length, slice_index_or};
ghost use Rattle.std.specs.Str.{trim};
ghost use Rattle.std.specs.Str.Lines.{lines};
ghost use Rattle.minisign.specs.SignatureText.{IsAtOffset, after_first_line, comment_offset, comment_start};
ghost use Rattle.minisign.specs.SignatureText.{SignatureTextRecord, read_signature};
ghost use Rattle.minisign.specs.SignatureText.{trusted_comment_label};

use crate::signature_box::trusted_comment_in;
use crate::texts::next_line;
use std::mem::forget;

/// Returns the place of the trusted comment in a signature text: the number of bytes before it, and its
/// length in bytes. The comment is in the third line, between the label and any white space on either side.
/// For a text that does not parse as a signature the result is unspecified. Does not allocate.
pub fn trusted_comment_place(text: &str) -> (usize, usize)
    // If the text parses as a signature, the trusted comment is at the returned offset with the returned
    // length, and the offset is a function of the text.
    ensures { (t : SignatureTextRecord) → read_signature text.now ≡ Ok t
        → (result.0 ≡ comment_offset text.now) × (result.1 ≡ length t.comments.trusted)
        × IsAtOffset t.comments.trusted text.now result.0 }
{
    let third = after_first_line(after_first_line(text));
    let (start, len) = comment_in_line(first_line(third));
    (text.len() - third.len() + start, len)
}

// Returns the text after the first line feed, or nothing if there is none.
fn after_first_line(text: &str) -> &str
    ensures value { result.now ≡ after_first_line text.now }
    ensures size { length result.now ≤ length text.now }
{
    match text.split_once('\n') {
        Some((_, rest)) => rest,
        None => "",
    }
}

// Returns the first line without its line ending.
fn first_line(text: &str) -> &str
    ensures value { result.now ≡ slice_index_or (lines text.now) 0 [] }
    ensures size { length result.now ≤ length text.now }
{
    let mut lines = text.lines();
    match next_line(&mut lines) {
        Some(line) => line,
        None => "",
    }
}

// Returns the offset and the length, in bytes, of the comment in a line with the label.
fn comment_in_line(line: &str) -> (usize, usize)
    ensures within { result.0 ≤ length line.now }
    ensures place { (comment : List ℕ) → line.now ≡ trusted_comment_label ++ comment
        → (result.0 ≡ comment_start line.now) × (result.1 ≡ length (trim comment))
        × IsAtOffset (trim comment) line.now result.0 }
{
    let comment = match trusted_comment_in(line) {
        Ok(comment) => comment,
        Err(fault) => {
            // The module for the web page has no deallocator, so the error must not be dropped.
            forget(fault);
            return (line.len(), 0);
        }
    };
    let rest = comment.trim_start();
    (line.len() - rest.len(), rest.trim_end().len())
}
