// The output of the program, written whole or up to a fault.
ghost use Rattle.archive_program.specs.Output.{WritesOutput};

use blob_device::{IoFault, Sink};

/// Writes this text. After an Err a prefix of it was written. For an empty text nothing is done, and that is Ok.
pub fn write_output<W: Sink>(out: &mut W, text: &[u8]) -> Result<(), IoFault>
    ensures { WritesOutput W.Sink result out.old out.new text.now }
{
    let mut rest = text;
    while !rest.is_empty() {
        match out.write(rest) {
            Ok(count) => rest = &rest[count..],
            Err(e) => return Err(e),
        }
    }
    Ok(())
}
