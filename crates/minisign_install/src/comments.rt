//! Parses the fields of a trusted comment that describe an update.

ghost use Rattle.std.specs.Prelude.{◌≡◌, ◌==◌, ◌<◌, ◌∷◌, [], ℕ, Bool, if◌then◌else◌, List};
ghost use Rattle.std.specs.Prelude.{Some, None, Option, false, is_some, option_map, MatchOption, filter_map};
ghost use Rattle.std.specs.Prelude.{length, nat_le};
ghost use Rattle.std.specs.Char.{to_ascii_lowercase};
ghost use Rattle.minisign_install.specs.Comments.{IsNumberText, expiries, expiry_in, fields, folded};
ghost use Rattle.minisign_install.specs.Comments.{number_label, strip, value_of, values_of};
ghost use Rattle.minisign_install.specs.CommentChecks.{CommentSays, IsCommentRefused};
ghost use Rattle.minisign_install.specs.Decisions.{Options, comment_fault, is_too_old, version_in};
ghost use Rattle.minisign_install.specs.Faults.{InstallFault};
ghost use Rattle.minisign_install.specs.Installations.{numbering_of};
ghost use Rattle.minisign_install.specs.RecordTexts.{other_field};

/// The field of the trusted comment that holds the version number of an update. Fields are separated by tabs.
/// If several fields have the label, the first one is used.
#[derive(Clone, Copy, PartialEq, Eq)]
pub enum Numbering {
    /// `timestamp:`, which Minisign writes by default.
    Timestamp,
    /// `version:`, which the signer has to write.
    Version,
}

impl Numbering {
    /// Returns the field with this number: 0 is the timestamp, 1 the version.
    pub fn of_number(number: u32) -> Option<Numbering>
        ensures { result ≡ (if nat_le number 1 then Some (numbering_of number) else None) }
    {
        match number {
            0 => Some(Numbering::Timestamp),
            1 => Some(Numbering::Version),
            _ => None,
        }
    }

    // Returns the label of the field.
    pub(crate) fn label(self) -> &'static str
        ensures { result.now ≡ number_label self }
    {
        match self {
            Numbering::Timestamp => "timestamp:",
            Numbering::Version => "version:",
        }
    }

    // Returns the other field.
    pub(crate) fn other(self) -> Numbering
        ensures { result ≡ other_field self }
    {
        match self {
            Numbering::Timestamp => Numbering::Version,
            Numbering::Version => Numbering::Timestamp,
        }
    }
}

// Returns the rest of the comment after its first field `expires:`, or `None` if there is no such field. If
// `must_expire` is true, fields that differ from it only in white space or case are included.
#[tactic(auto, using(crate::proofs::Fields::no_expiry))]
pub(crate) fn first_expiry(comment: &str, must_expire: bool) -> Option<&str>
    ensures { MatchOption result (expiries must_expire comment.now ≡ [])
        (λ rest. (v : List ℕ) × (expiries must_expire comment.now ≡ v ∷ expiries must_expire rest.now)) }
{
    let mut rest = comment;
    'fields: while !rest.is_empty() {
        let (field, more) = first_field(rest);
        if begins(field, "expires:", must_expire) {
            return Some(more);
        }
        rest = more;
    }
    None
}

// Returns true if the field begins with the label. If `loosely` is true, white space and case are ignored.
fn begins(field: &str, label: &str, loosely: bool) -> bool
    ensures { result ≡ is_some (strip label.now (if loosely then folded field.now else field.now)) }
{
    if loosely {
        begins_loosely(field.as_bytes(), label.as_bytes())
    } else {
        strip(field, label).is_some()
    }
}

// Returns true if the text, without its white space and in lower case, begins with the label.
fn begins_loosely(text: &[u8], label: &[u8]) -> bool
    ensures { result ≡ is_some (strip label.now (folded text.now)) }
{
    let mut label = label;
    let mut rest = text;
    'letters: while let Some((letter, more)) = rest.split_first() {
        if !letter.is_ascii_whitespace() {
            match label.split_first() {
                None => return true,
                Some((lower, others)) if is_letter(*letter, *lower) => label = others,
                Some(_) => return false,
            }
        }
        rest = more;
    }
    label.is_empty()
}

// Returns true if `letter` is the lower-case letter `lower` or its upper-case form.
fn is_letter(letter: u8, lower: u8) -> bool
    ensures { result ≡ (to_ascii_lowercase letter == lower) }
{
    letter.to_ascii_lowercase() == lower
}

// Returns the value of the first field with this label.
pub(crate) fn value<'a>(comment: &'a str, label: &str) -> Option<&'a str>
    requires { 0 < length label.now }
    ensures { option_map (λ v. v.now) result ≡ value_of label.now comment.now }
{
    match first_value(comment, label) {
        Some((value, _)) => Some(value),
        None => None,
    }
}

// Returns the value of the first field with this label, and the fields after it.
#[tactic(auto, using(crate::proofs::Fields::nothing))]
pub(crate) fn first_value<'a>(comment: &'a str, label: &str) -> Option<(&'a str, &'a str)>
    requires { 0 < length label.now }
    ensures { MatchOption result (values_of label.now comment.now ≡ [])
        (λ (v, rest). values_of label.now comment.now ≡ v.now ∷ values_of label.now rest.now) }
{
    let mut rest = comment;
    'fields: while !rest.is_empty() {
        let (field, more) = first_field(rest);
        if let Some(value) = strip(field, label) {
            return Some((value, more));
        }
        rest = more;
    }
    None
}

// Returns the first field of a comment, and the other fields, which are empty if there are no more.
fn first_field(comment: &str) -> (&str, &str)
    ensures field { (label : List ℕ) → 0 < length label
        → values_of label comment.now ≡ filter_map (strip label) (result.0.now ∷ fields result.1.now) }
    ensures expiry { (must : Bool)
        → expiries must comment.now ≡ filter_map (expiry_in must) (result.0.now ∷ fields result.1.now) }
    ensures shorter { 0 < length comment.now → length result.1.now < length comment.now }
{
    match comment.split_once('\t') {
        Some((field, more)) => (field, more),
        None => (comment, ""),
    }
}

// Returns the text after the label, if the text begins with the label.
#[tactic(auto, using(crate::proofs::Fields::strip_answers))]
pub(crate) fn strip<'a>(text: &'a str, label: &str) -> Option<&'a str>
    ensures { option_map (λ v. v.now) result ≡ strip label.now text.now }
{
    text.strip_prefix(label)
}

// Parses decimal digits. A plus sign is rejected here, because `parse` accepts one.
pub(crate) fn number_of(text: &str) -> Option<u64>
    ensures { MatchOption result ((n : ℕ) → ¬ (IsNumberText text.now n)) (IsNumberText text.now) }
{
    match text.as_bytes().first() {
        Some(b'+') => None,
        _ => match text.parse::<u64>() {
            Ok(number) => Some(number),
            Err(_) => None,
        },
    }
}

/// States which trusted comments are accepted, and for each error, which comments are rejected with it. This
/// function is a law: it does nothing, and exists only for its contract.
pub fn any_comment_is_judged()
    // A comment that is not rejected names the file, has a version number, has not expired, and has no
    // field `size:`, or only one, with a number. The version number is not below the recorded one, unless
    // `roll_back` is set.
    ensures accepted { (o : Options) (recorded time : Option ℕ) (comment : List ℕ)
        → comment_fault o recorded time comment ≡ None
        → (n : ℕ) × (version_in o.numbering comment ≡ Some n) × CommentSays o time comment n
        × (is_too_old o recorded (Some n) ≡ false) }

    // If a comment is rejected, it fails the check that belongs to the error, and has passed all checks
    // before that.
    ensures rejected { (o : Options) (recorded time : Option ℕ) (comment : List ℕ) (e : InstallFault)
        → comment_fault o recorded time comment ≡ Some e → IsCommentRefused o recorded time comment e }
{}
