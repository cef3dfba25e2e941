// What is read from the input and written to the outputs.
ghost use Rattle.std.specs.Prelude.{◌≡◌, ◌≤◌, ◌^◌, IfErr, IfOk, IsFalse, OnErr, OnOk, vec_len};
ghost use Rattle.std.specs.Io.KnownBytes.{Appends, Consumes, IsAtEnd};
ghost use Rattle.canvas_lines.specs.Faults.{HasRead, IsNoBadLine};

use crate::fault::Fault;
use std::alloc::Global;
use std::io::{ErrorKind, Read, Write};

/// The most bytes that an input has.
const MAX_BYTES: usize = 1 << 30;

/// The most reads that an input takes.
const MAX_READS: u32 = 1 << 31;

/// The most bytes that one read gives.
const CHUNK: usize = 1 << 13;

/// All bytes of the input. A read that was interrupted is tried again. The errors: `Stream`, where a
/// read fails, and for an input of more than 2^30 bytes or 2^31 reads; `Memory`, if memory runs
/// out.
pub fn read_input<R: Read>(alloc: Global, input: &mut R) -> Result<Vec<u8>, Fault>
    ensures size { IfOk result (λ text. vec_len text ≤ 2 ^ 30) }
    ensures bytes { IfOk result
        (λ text. Consumes (R.remaining input.old) (R.remaining input.new) text.items) }
    ensures end { OnOk result (IsAtEnd (R.remaining input.new)) }
    ensures fault { IfErr result IsNoBadLine }
{
    let mut text = Vec::new(alloc);
    for _ in 0..MAX_READS {
        if !read_more(input, &mut text)? {
            return Ok(text);
        }
    }
    Err(Fault::Stream)
}

// Adds what one read gives. Whether there may be more.
fn read_more<R: Read>(input: &mut R, text: &mut Vec<u8>) -> Result<bool, Fault>
    requires { vec_len text.old ≤ 2 ^ 30 }
    ensures size { OnOk result (vec_len text.new ≤ 2 ^ 30) }
    ensures bytes { OnOk result
        (HasRead (R.remaining input.old) (R.remaining input.new) text.old.items text.new.items) }
    ensures end { IfOk result (λ more. IsFalse more → IsAtEnd (R.remaining input.new)) }
    ensures fault { IfErr result IsNoBadLine }
    ensures unchanged { OnErr result (text.new.items ≡ text.old.items) }
{
    let mut chunk = [0u8; CHUNK];
    match input.read(&mut chunk) {
        Ok(0) => Ok(false),
        Ok(count) => {
            if count > MAX_BYTES - text.len() {
                return Err(Fault::Stream);
            }
            text.extend_from_slice(&chunk[..count])?;
            Ok(true)
        }
        Err(error) => {
            if error.kind() == ErrorKind::Interrupted {
                Ok(true)
            } else {
                Err(Fault::Stream)
            }
        }
    }
}

/// Writes a text to its end, and flushes the writer.
pub fn write_out<W: Write>(output: &mut W, text: &[u8]) -> Result<(), Fault>
    ensures bytes { OnOk result (Appends (W.contents output.old) (W.contents output.new) text.now) }
    ensures fault { IfErr result (λ fault. fault ≡ Fault.Stream) }
{
    if output.write_all(text).is_err() || output.flush().is_err() {
        return Err(Fault::Stream);
    }
    Ok(())
}
