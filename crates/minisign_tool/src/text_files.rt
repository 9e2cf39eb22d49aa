//! Reads the texts of keys and signatures from files.

ghost use Rattle.std.specs.Prelude.{string_bytes, IfOk, IfErr};
ghost use Rattle.minisign.specs.DeviceCalls.{source_call};
ghost use Rattle.minisign_tool.specs.TextFiles.{EitherFails, ReadsBoth};

use minisign::Result;
use minisign::base::devices::sources::Source;
use minisign::reading::read_text;
use std::alloc::Global;

/// Reads the texts of two files. The first is read whole, and must be UTF-8, before the second is read. The
/// error is that of the first file that cannot be read as a text, as for `read_text`.
pub fn read_both_texts<P: Source, Q: Source>(
    alloc: Global,
    first: &mut P,
    second: &mut Q,
) -> Result<(String, String)>
    // On success, each text consists of all the unread bytes of its source.
    ensures texts { IfOk result (λ both. ReadsBoth (source_call P.Source first.old first.new)
        (source_call Q.Source second.old second.new) (string_bytes both.0) (string_bytes both.1)) }

    // The error is that of the first file that cannot be read as a text, as `read_text` promises. If the
    // first file cannot be read as a text, the second is unchanged.
    ensures refused { IfErr result (EitherFails (source_call P.Source first.old first.new)
        (source_call Q.Source second.old second.new)) }
{
    let first_text = read_text(alloc, first)?;
    let second_text = read_text(alloc, second)?;
    Ok((first_text, second_text))
}
