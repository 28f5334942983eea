ghost use Rattle.std.specs.Prelude.{◌≡◌, IfOk, IfSome, take};

use std::alloc::Global;
use std::io;
use std::io::Read;
use text::bounds::MOST_BYTES;

// As much of the input as decides what it reads as: one byte more than a text may have. So an endless input is answered too.
pub(crate) fn read_text<R: Read + Drop>(input: R, alloc: Global) -> io::Result<Vec<u8>>
    ensures { IfOk result (λ text. IfSome (R.Read.remaining input) (λ bytes. text.items ≡ take 32769 bytes)) }
{
    let mut text = Vec::new(alloc);
    input.take(MOST_BYTES as u64 + 1).read_to_end(&mut text)?;
    Ok(text)
}
