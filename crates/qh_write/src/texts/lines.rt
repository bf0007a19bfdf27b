//! Appending bytes and numbers to a text.
ghost use Rattle.std.specs.{Fmt.signed_decimal, Prelude.◌≡◌, Prelude.◌++◌, Prelude.[], Prelude.◌∷◌, Prelude.OnOk, Prelude.decimal};
ghost use Rattle.qh_model.specs.headline.Text.{spaced};

use itoa::Buffer;
use std::alloc::AllocError;

/// Appends byte 10.
pub fn push_line_end(text: &mut Vec<u8>) -> Result<(), AllocError>
    ensures { OnOk result (text.new.items ≡ text.old.items ++ 10 ∷ []) }
{
    text.push(b'\n')?;
    Ok(())
}

/// Appends decimal digits.
pub fn push_number(text: &mut Vec<u8>, number: u64) -> Result<(), AllocError>
    ensures { OnOk result (text.new.items ≡ text.old.items ++ decimal number) }
{
    text.extend_from_slice(Buffer::new().format(number).as_bytes())
}

/// Appends a blank and decimal digits.
pub fn push_spaced(text: &mut Vec<u8>, number: u64) -> Result<(), AllocError>
    ensures { OnOk result (text.new.items ≡ text.old.items ++ spaced number) }
{
    text.push(b' ')?;
    push_number(text, number)
}

/// Appends a `-` where the number is below 0, and decimal digits.
pub fn push_signed(text: &mut Vec<u8>, number: i32) -> Result<(), AllocError>
    ensures { OnOk result (text.new.items ≡ text.old.items ++ signed_decimal number) }
{
    text.extend_from_slice(Buffer::new().format(number).as_bytes())
}
