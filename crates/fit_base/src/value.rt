// A field of a data message, read from its bytes.

ghost use Rattle.std.specs.Prelude.{◌≡◌, ◌^◌, ◌<◌, ◌↔◌, ◌==◌, IsTrue, IsSome, IfSome, IsUtf8, position};

use crate::base::BaseType;
use crate::number::{number_of, with_sign};
use crate::order::Arch;
use std::marker::Model;

/// A field's bytes, under the base type byte and the architecture of its definition. It borrows the bytes, and reads a value
/// only when a caller asks for it.
#[derive(Debug, Drop)]
pub struct FieldValue<'a> {
    base: u8,
    // The type that the base type byte names.
    known: Option<BaseType>,
    arch: Arch,
    bytes: &'a [u8],
}

impl<'a> Model for FieldValue<'a> {
    ghost use Rattle.std.specs.Prelude.{◌≡◌};
    ghost use Rattle.fit_base.specs.Base.{base_type};
    ghost use Rattle.fit_base.specs.Value.{Field};

    ghost Value = { Field };

    ghost view = { λ v. record { base = v.base; arch = v.arch; bytes = v.bytes.now } };

    ghost invariant = { λ v. v.known ≡ base_type v.base };
}

impl<'a> FieldValue<'a> {
    ghost use Rattle.fit_base.specs.Base.{base_type};
    ghost use Rattle.fit_base.specs.Value.{is_raw, count_of, value_size, unsigned_at, is_signed, signed_at, IsInvalidAt, text_of};

    /// The field with this base type byte, which may be unknown, this architecture and these bytes.
    pub fn new(base: u8, arch: Arch, bytes: &'a [u8]) -> Self
        ensures { result ≡ record { base = base; arch = arch; bytes = bytes.now } }
    {
        FieldValue {
            base,
            known: BaseType::of(base),
            arch,
            bytes,
        }
    }

    /// The base type byte.
    pub fn base(&self) -> u8
        ensures { result ≡ self.now.base }
    {
        self.base
    }

    /// The type that the base type byte names, if one exists.
    pub fn base_type(&self) -> Option<BaseType>
        ensures { result ≡ base_type self.now.base }
    {
        self.known
    }

    /// The byte order of a value.
    pub fn arch(&self) -> Arch
        ensures { result ≡ self.now.arch }
    {
        self.arch
    }

    /// All bytes of the field, as they are in the message.
    pub fn raw(&self) -> &'a [u8]
        ensures { result.now ≡ self.now.bytes }
    {
        self.bytes
    }

    /// Whether the field is carried raw: its base type byte is unknown, or its size is not a multiple of the base size.
    pub fn is_raw(&self) -> bool
        ensures { result ≡ is_raw self.now }
    {
        match self.known {
            Some(base) => self.bytes.len() % base.size() != 0,
            None => true,
        }
    }

    /// The number of values of the field. A field that is carried raw has none.
    pub fn count(&self) -> usize
        ensures { result ≡ count_of self.now }
    {
        match self.known {
            Some(base) if !self.is_raw() => self.bytes.len() / base.size(),
            _ => 0,
        }
    }

    // The number of bytes of one value; 0 if the base type byte names no type.
    fn value_size(&self) -> usize
        ensures { result ≡ value_size self.now }
    {
        match self.known {
            Some(base) => base.size(),
            None => 0,
        }
    }

    /// The number of the value at this index, below `count`. For a type with a sign it is the number before the sign is read;
    /// for a float, its bits.
    pub fn unsigned(&self, i: usize) -> u64
        requires { i < count_of self.now }
        ensures number { result ≡ unsigned_at self.now i }
        ensures fits { result < 256 ^ value_size self.now }
    {
        let size = self.value_size();
        number_of(self.arch, &self.bytes[i * size..i * size + size])
    }

    /// The value at this index, below `count`. The type has a sign.
    pub fn signed(&self, i: usize) -> i64
        requires index { i < count_of self.now }
        requires sign { IsTrue (is_signed self.now) }
        ensures { result ≡ signed_at self.now i }
    {
        with_sign(self.value_size(), self.unsigned(i))
    }

    /// Whether the value at this index, below `count`, is its type's invalid value, which means "no value". The values of a
    /// field of type `byte` are invalid if and only if all its bytes are 0xFF.
    pub fn is_invalid(&self, i: usize) -> bool
        requires { i < count_of self.now }
        ensures { IsTrue result ↔ IsInvalidAt self.now i }
    {
        match self.known {
            Some(BaseType::Byte) => self.bytes.iter().all(|byte| *byte == 0xFF),
            Some(base) => self.unsigned(i) == base.invalid(),
            None => unreachable!(),
        }
    }

    /// The text of the field: its bytes before the first zero byte, or all of them if none is zero. `None` if they are not
    /// UTF-8.
    pub fn text(&self) -> Option<&'a str>
        ensures text { IfSome result (λ text. text.now ≡ text_of self.now) }
        ensures utf8 { IsSome result ↔ IsUtf8 (text_of self.now) }
    {
        str::from_utf8(self.text_bytes()).ok()
    }

    /// The bytes of the text, UTF-8 or not.
    pub fn text_bytes(&self) -> &'a [u8]
        ensures { result.now ≡ text_of self.now }
    {
        match zero_place(self.bytes) {
            Some(end) => &self.bytes[..end],
            None => self.bytes,
        }
    }
}

fn zero_place(bytes: &[u8]) -> Option<usize>
    ensures { result ≡ position (λ byte. byte == 0) bytes.now }
{
    bytes.iter().position(|byte| *byte == 0)
}
