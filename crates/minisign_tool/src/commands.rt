//! Parses the arguments to a command.

ghost use Rattle.std.specs.Prelude.{◌≡◌, length, map};
ghost use Rattle.minisign_tool.specs.Commands.{AsksFor};

/// A command and the paths of its files.
#[derive(Clone, Copy)]
pub enum Command<'a> {
    /// Generate a key pair, and write the text of each key to a file.
    Keygen {
        pk: &'a str,
        sk: &'a str,
    },
    /// Sign a file with the secret key in a file, and write the signature text.
    Sign {
        sk: &'a str,
        file: &'a str,
        sig: &'a str,
    },
    /// Verify a file with the texts of a public key and a signature.
    Verify {
        pk: &'a str,
        file: &'a str,
        sig: &'a str,
    },
    /// Verify standard input with the files of a raw public key and a raw signature.
    VerifyRaw {
        pk: &'a str,
        sig: &'a str,
    },
    /// Verify a file with the texts of a public key and a signature, and write it to standard output.
    Cat {
        pk: &'a str,
        file: &'a str,
        sig: &'a str,
    },
    /// Show the usage.
    Usage,
}

/// Returns the command that the words after the program's path ask for. Words that match none of the five
/// forms, for example too few or too many of them, ask for the usage. Does not allocate.
pub fn command_of<'a>(words: &[&'a str]) -> Command<'a>
    // The result is the command that docs/FORMATS.md gives for these words: each of the five forms asks for
    // its command with its paths, in order, and all other words ask for the usage.
    ensures { AsksFor (map (λ w. w.now) words.now) result }
{
    match words.len() {
        3 => with_two_paths(words),
        4 => with_three_paths(words),
        _ => Command::Usage,
    }
}

// Parses a command with two paths.
fn with_two_paths<'a>(words: &[&'a str]) -> Command<'a>
    requires { length words.now ≡ 3 }
    ensures { AsksFor (map (λ w. w.now) words.now) result }
{
    match *words {
        ["keygen", pk, sk] => Command::Keygen { pk, sk },
        ["verify-raw", pk, sig] => Command::VerifyRaw { pk, sig },
        _ => Command::Usage,
    }
}

// Parses a command with three paths.
fn with_three_paths<'a>(words: &[&'a str]) -> Command<'a>
    requires { length words.now ≡ 4 }
    ensures { AsksFor (map (λ w. w.now) words.now) result }
{
    match *words {
        ["sign", sk, file, sig] => Command::Sign { sk, file, sig },
        ["verify", pk, file, sig] => Command::Verify { pk, file, sig },
        ["cat", pk, file, sig] => Command::Cat { pk, file, sig },
        _ => Command::Usage,
    }
}
