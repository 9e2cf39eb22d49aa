//! The options of verification, as one value with named fields.

ghost use Rattle.std.specs.Prelude.{◌≡◌, true, false};

/// Options of verification. By default the status lines are written, nothing is copied, and legacy
/// signatures are rejected.
#[derive(Clone, Copy, Debug, Drop)]
pub struct VerifyOptions {
    /// Write no status lines.
    pub quiet: bool,
    /// Copy the verified data to the output.
    pub output: bool,
    /// Accept a legacy signature, which signs the data itself, as well as a prehashed one, which signs its
    /// digest.
    pub allow_legacy: bool,
}

impl VerifyOptions {
    /// Options to write no status lines and to copy nothing.
    pub const SILENT: VerifyOptions = VerifyOptions {
        quiet: true,
        output: false,
        allow_legacy: false,
    };

    /// Options to write no status lines and to copy the verified data.
    pub const COPYING: VerifyOptions = VerifyOptions {
        quiet: true,
        output: true,
        allow_legacy: false,
    };
}

/// By default, the status lines are written, nothing is copied, and legacy signatures are rejected.
impl Default for VerifyOptions {
    ghost is_default = { λ o. (o.quiet ≡ false) × (o.output ≡ false) × (o.allow_legacy ≡ false) };

    fn default() -> VerifyOptions {
        VerifyOptions {
            quiet: false,
            output: false,
            allow_legacy: false,
        }
    }
}
