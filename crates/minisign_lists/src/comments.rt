//! Checks whether a trusted comment names a list. Does not allocate.

ghost use Rattle.std.specs.Prelude.{◌≡◌, ◌∷◌, ◌<◌, ◌++◌, [], find, bytes_eq, option_copied, take, length};
ghost use Rattle.std.specs.Prelude.{IfSome, IfNone};
ghost use Rattle.std.specs.List.{slice_split};
ghost use Rattle.minisign_lists.specs.Comments.{file_label, has_label, is_field_of, is_tab, names_list};

// Returns true if a field begins with `file:`.
fn has_label(field: &[u8]) -> bool
    ensures { result ≡ has_label field.now }
{
    field.starts_with(b"file:")
}

// Splits a text at its first tab.
fn split_field(text: &[u8]) -> Option<(&[u8], &[u8])>
    ensures some { IfSome result
        (λ p. slice_split is_tab text.now ≡ p.0.now ∷ slice_split is_tab p.1.now) }
    ensures shorter { IfSome result (λ p. length p.1.now < length text.now) }
    ensures none { IfNone result (slice_split is_tab text.now ≡ text.now ∷ []) }
{
    match text.iter().position(|&letter| letter == b'\t') {
        Some(at) => Some((&text[..at], &text[at + 1..])),
        None => None,
    }
}

// Returns the first `file:` field of a comment.
fn file_field(comment: &[u8]) -> Option<&[u8]>
    ensures { option_copied result ≡ find has_label (slice_split is_tab comment.now) }
{
    let mut rest = comment;
    'fields: while let Some((field, more)) = split_field(rest) {
        if has_label(field) {
            return Some(field);
        }
        rest = more;
    }
    if has_label(rest) { Some(rest) } else { None }
}

// Returns true if the first `file:` field of the trusted comment has exactly this name.
pub(crate) fn field_names_list(comment: &[u8], list_name: &[u8]) -> bool
    ensures { result ≡ names_list list_name.now comment.now }
{
    match file_field(comment) {
        Some(field) => match field.strip_prefix(b"file:") {
            Some(name) => name == list_name,
            None => false,
        },
        None => false,
    }
}

/// Returns true if the first `file:` field of the trusted comment has exactly this name. Fields are
/// separated by tabs. Signing writes the last part of the signed path into this field. So a signed
/// text that was not meant as a list, but looks like one, has another name in this field, or no
/// such field.
pub fn names_list(comment: &str, list_name: &str) -> bool
    // The result is true exactly if the first `file:` field of the comment has exactly this name.
    ensures { result ≡ names_list list_name.now comment.now }
{
    field_names_list(comment.as_bytes(), list_name.as_bytes())
}
