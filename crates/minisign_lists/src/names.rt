//! The names of files in a list: relative paths. Nothing here allocates.

ghost use Rattle.std.specs.Prelude.{◌≡◌, ◌==◌, ◌&&◌, ◌||◌, not, bytes_eq, codes, true, false, ◌∷◌, ◌<◌};
ghost use Rattle.std.specs.Prelude.{[], length, IfSome, IfNone};
ghost use Rattle.std.specs.List.{list_all, list_any, slice_split};
ghost use Rattle.minisign_lists.specs.Names.{is_backslash, is_control, is_name, is_path_part, is_path};
ghost use Rattle.minisign_lists.specs.Names.{is_slash};
ghost use Rattle.minisign_lists.specs.Names.{without_dot};

pub(crate) fn same(one: &[u8], other: &[u8]) -> bool
    ensures { result ≡ bytes_eq one.now other.now }
{
    one == other
}

// Returns true if the text contains an ASCII control character.
pub(crate) fn has_control(text: &[u8]) -> bool
    ensures { result ≡ list_any is_control text.now }
{
    text.iter().any(|letter| *letter < 32 || *letter == 127)
}

pub(crate) fn has_backslash(name: &[u8]) -> bool
    ensures { result ≡ list_any is_backslash name.now }
{
    name.contains(&b'\\')
}

// Returns true if the part of a path is neither empty nor `.` nor `..`.
fn is_path_part(part: &[u8]) -> bool
    ensures { result ≡ is_path_part part.now }
{
    !(part.is_empty() || same(part, b".") || same(part, b".."))
}

// Splits a path at its first slash.
fn split_part(path: &[u8]) -> Option<(&[u8], &[u8])>
    ensures some { IfSome result
        (λ p. slice_split is_slash path.now ≡ p.0.now ∷ slice_split is_slash p.1.now) }
    ensures shorter { IfSome result (λ p. length p.1.now < length path.now) }
    ensures none { IfNone result (slice_split is_slash path.now ≡ path.now ∷ []) }
{
    match path.iter().position(|&letter| letter == b'/') {
        Some(at) => Some((&path[..at], &path[at + 1..])),
        None => None,
    }
}

// Returns true if the name is a relative path without empty, `.` or `..` parts.
pub(crate) fn is_path(name: &[u8]) -> bool
    ensures { result ≡ is_path name.now }
{
    let mut rest = name;
    'parts: while let Some((part, more)) = split_part(rest) {
        if !is_path_part(part) {
            return false;
        }
        rest = more;
    }
    is_path_part(rest)
}

// Removes one leading `./`.
pub(crate) fn without_dot(name: &[u8]) -> &[u8]
    ensures { result.now ≡ without_dot name.now }
{
    match name.strip_prefix(b"./") {
        Some(rest) => rest,
        None => name,
    }
}

// Returns true if the name can be looked up.
pub(crate) fn is_name(name: &[u8]) -> bool
    ensures { result ≡ is_name name.now }
{
    is_path(without_dot(name)) && !has_control(name) && !has_backslash(name)
}
