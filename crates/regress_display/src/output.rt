//! Writes the output.
ghost use Rattle.std.specs.Prelude.{◌≡◌, ◌++◌, IfErr, IfSome, OnOk};
ghost use Rattle.std.specs.Io.KnownBytes.{Appends};
ghost use Rattle.regress_display.specs.declared.error.ShowError.TheVariants.{Output};

use crate::error::ShowError;
use std::fmt::Display;
use std::io::Write;

/// Writes a value, its end and the text after it, and flushes the output, so that it is written even if an
/// allocation fails later.
pub(crate) fn write_out<D: Display, W: Write>(
    shown: &D,
    end: &str,
    after: &str,
    out: &mut W,
) -> Result<(), ShowError>
    ensures written { OnOk result (IfSome (D.output shown.now)
        (λ text. Appends (W.contents out.old) (W.contents out.new) ((text ++ end.now) ++ after.now))) }
    ensures failed { IfErr result (λ failure. failure ≡ Output) }
{
    write!(out, "{shown}{end}{after}").map_err(|_| ShowError::Output)?;
    out.flush().map_err(|_| ShowError::Output)
}
