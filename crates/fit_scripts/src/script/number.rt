// Words that are numbers.

ghost use Rattle.std.specs.Prelude.{◌≡◌, ◌≤◌, ◌<◌, ◌+◌, ◌^◌, ◌≤ℤ◌, pos, neg_ℤ, IfOk, IfErr};
ghost use Rattle.std.specs.Result.{result_ok};
ghost use Rattle.fit_scripts.specs.Scripts.Words.{decimal_number, signed_number, number_as};
ghost use Rattle.fit_scripts.specs.declared.script.fault.ScriptFaultKind.TheVariants as kinds;

use crate::script::fault::ScriptFaultKind;
use fit_base::BaseType;

/// An unsigned decimal number of at most `most`.
pub fn number(word: &[u8], most: u32) -> Result<u32, ScriptFaultKind>
    ensures value { result_ok result ≡ decimal_number most word.now }
    ensures fault { IfErr result (λ kind. kind ≡ kinds.BadNumber) }
    ensures most { IfOk result (λ n. n ≤ most) }
{
    let mut value = 0;
    for byte in word {
        if !byte.is_ascii_digit() {
            return Err(ScriptFaultKind::BadNumber);
        }
        value = value * 10 + u64::from(*byte - b'0');
        if value > u64::from(most) {
            return Err(ScriptFaultKind::BadNumber);
        }
    }
    if word.is_empty() {
        return Err(ScriptFaultKind::BadNumber);
    }
    Ok(value as u32)
}

/// A decimal number from -(`most` + 1) to `most`. It may have a `-` in front.
pub fn signed_number(word: &[u8], most: u32) -> Result<i32, ScriptFaultKind>
    requires { most < 2 ^ 31 }
    ensures value { result_ok result ≡ signed_number most word.now }
    ensures least { IfOk result (λ z. neg_ℤ (pos (most + 1)) ≤ℤ z) }
    ensures most { IfOk result (λ z. z ≤ℤ pos most) }
{
    match word {
        [b'-', digits @ ..] => {
            let size = number(digits, most + 1)?;
            Ok((-i64::from(size)) as i32)
        }
        _ => Ok(number(word, most)? as i32),
    }
}

/// Reads a word as a number in the range of an integer base type of 1, 2 or 4 bytes. Returns the unsigned number of its bytes, or
/// `None` if the word is no such number or the base type is another.
pub fn number_as(base: BaseType, word: &[u8]) -> Option<u32>
    ensures { result ≡ number_as base word.now }
{
    match base {
        BaseType::Sint8 => Some(u32::from((signed_number(word, 127).ok()? as i8).cast_unsigned())),
        BaseType::Uint8 => number(word, 255).ok(),
        BaseType::Sint16 => Some(u32::from(
            (signed_number(word, 32_767).ok()? as i16).cast_unsigned(),
        )),
        BaseType::Uint16 => number(word, 65_535).ok(),
        BaseType::Sint32 => Some(signed_number(word, 2_147_483_647).ok()?.cast_unsigned()),
        BaseType::Uint32 => number(word, 4_294_967_295).ok(),
        _ => None,
    }
}
