//! Classes of bytes.

ghost use Rattle.std.specs.Prelude.{◌≡◌, IfOk};
ghost use Rattle.fnl_markup.specs.Bytes.{is_blank, begins_name, goes_on_name};

use std::alloc::AllocError;

/// The same bytes once more.
pub(crate) fn copied(bytes: &Vec<u8>) -> Result<Vec<u8>, AllocError>
    ensures { IfOk result (λ copied. copied.items ≡ bytes.now.items) }
{
    let copied = bytes.clone()?;
    Ok(copied)
}

/// Space, tab, CR or LF.
pub(crate) fn is_blank(b: u8) -> bool
    ensures { result ≡ is_blank b }
{
    b == b' ' || (b == b'\t' || (b == b'\r' || b == b'\n'))
}

/// A letter, `_` or `:`.
pub(crate) fn begins_name(b: u8) -> bool
    ensures { result ≡ begins_name b }
{
    b.is_ascii_alphabetic() || (b == b'_' || b == b':')
}

/// What begins a name, a digit, `-` or `.`.
pub(crate) fn goes_on_name(b: u8) -> bool
    ensures { result ≡ goes_on_name b }
{
    begins_name(b) || (b.is_ascii_digit() || (b == b'-' || b == b'.'))
}
