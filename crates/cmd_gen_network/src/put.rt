//! Texts that grow.

ghost use Rattle.std.specs.Prelude.{◌≡◌, ◌++◌, IfOk, decimal};

use itoa::Buffer;
use rvc_base::Memory;

/// Puts a text behind what stands in `out`.
pub(crate) fn put(text: &[u8], out: &mut Vec<u8>) -> Result<(), Memory>
    ensures { IfOk result (λ _. out.new.items ≡ out.old.items ++ text.now) }
{
    out.extend_from_slice(text)?;
    Ok(())
}

/// Puts a text, a number in decimal and another text behind what stands in `out`.
pub(crate) fn put_numbered(
    before: &[u8],
    number: u32,
    after: &[u8],
    out: &mut Vec<u8>,
) -> Result<(), Memory>
    ensures { IfOk result (λ _. out.new.items
        ≡ out.old.items ++ (before.now ++ decimal number ++ after.now)) }
{
    let mut buffer = Buffer::new();
    out.extend_from_slice(before)?;
    out.extend_from_slice(buffer.format(number).as_bytes())?;
    out.extend_from_slice(after)?;
    Ok(())
}
