//! Lines on standard output.
ghost use Rattle.std.specs.Prelude.{◌≡◌, OnOk, IfErr};
ghost use Rattle.std.specs.Io.KnownBytes.{Appends};
ghost use Rattle.plant_text.specs.{with_lf, AppendsPrefix};

use crate::fault::ProgramFault;
use crate::lines::ShortLine;
use plant_text::write_line;
use std::io::Write;

/// Writes a line and an LF. At the fault `Write` a prefix of both was written, and not all of it.
pub(crate) fn print_line<W: Write>(writer: &mut W, line: &ShortLine) -> Result<(), ProgramFault>
    ensures ok { OnOk result (Appends (W.contents writer.old) (W.contents writer.new)
        (with_lf line.now.bytes)) }
    ensures fault { IfErr result (λ fault. fault ≡ ProgramFault.Write) }
    ensures prefix { IfErr result (λ _. AppendsPrefix (W.contents writer.old) (W.contents writer.new)
        (with_lf line.now.bytes)) }
{
    match write_line(writer, line.as_bytes()) {
        Ok(()) => Ok(()),
        Err(_) => Err(ProgramFault::Write),
    }
}
