// The base types, and the table of their bytes and sizes.

ghost use Rattle.std.specs.Prelude.{◌≡◌, ◌≢◌, IfSome, IfNone};
ghost use Rattle.fit_base.specs.declared.base.BaseType.{BaseType as AnyBaseType};

/// A base type of the FIT protocol: how the bytes of a value are read.
#[derive(Clone, Copy, Debug, PartialEq, Eq)]
pub enum BaseType {
    Enum,
    Sint8,
    Uint8,
    Sint16,
    Uint16,
    Sint32,
    Uint32,
    String,
    Float32,
    Float64,
    Uint8z,
    Uint16z,
    Uint32z,
    Byte,
    Sint64,
    Uint64,
    Uint64z,
}

impl BaseType {
    ghost use Rattle.fit_base.specs.Base.{row_of, base_type, has_sign};

    /// The type that a definition's base type byte names. `None` if the protocol has no such type: a field with such a byte is
    /// carried raw.
    pub fn of(code: u8) -> Option<BaseType>
        ensures table { result ≡ base_type code }
        ensures some { IfSome result (λ t. (row_of t).code ≡ code) }
        ensures none { IfNone result ((t : AnyBaseType) → (row_of t).code ≢ code) }
    {
        match code {
            0x00 => Some(BaseType::Enum),
            0x01 => Some(BaseType::Sint8),
            0x02 => Some(BaseType::Uint8),
            0x83 => Some(BaseType::Sint16),
            0x84 => Some(BaseType::Uint16),
            0x85 => Some(BaseType::Sint32),
            0x86 => Some(BaseType::Uint32),
            0x07 => Some(BaseType::String),
            0x88 => Some(BaseType::Float32),
            0x89 => Some(BaseType::Float64),
            0x0A => Some(BaseType::Uint8z),
            0x8B => Some(BaseType::Uint16z),
            0x8C => Some(BaseType::Uint32z),
            0x0D => Some(BaseType::Byte),
            0x8E => Some(BaseType::Sint64),
            0x8F => Some(BaseType::Uint64),
            0x90 => Some(BaseType::Uint64z),
            _ => None,
        }
    }

    /// The size of one value in bytes: 1, 2, 4 or 8.
    pub fn size(self) -> usize
        ensures { result ≡ (row_of self).size }
    {
        match self {
            BaseType::Enum
            | BaseType::Sint8
            | BaseType::Uint8
            | BaseType::String
            | BaseType::Uint8z
            | BaseType::Byte => 1,
            BaseType::Sint16 | BaseType::Uint16 | BaseType::Uint16z => 2,
            BaseType::Sint32 | BaseType::Uint32 | BaseType::Float32 | BaseType::Uint32z => 4,
            BaseType::Float64 | BaseType::Sint64 | BaseType::Uint64 | BaseType::Uint64z => 8,
        }
    }

    /// The base type byte, as a definition holds it.
    pub fn code(self) -> u8
        ensures { result ≡ (row_of self).code }
    {
        match self {
            BaseType::Enum => 0x00,
            BaseType::Sint8 => 0x01,
            BaseType::Uint8 => 0x02,
            BaseType::Sint16 => 0x83,
            BaseType::Uint16 => 0x84,
            BaseType::Sint32 => 0x85,
            BaseType::Uint32 => 0x86,
            BaseType::String => 0x07,
            BaseType::Float32 => 0x88,
            BaseType::Float64 => 0x89,
            BaseType::Uint8z => 0x0A,
            BaseType::Uint16z => 0x8B,
            BaseType::Uint32z => 0x8C,
            BaseType::Byte => 0x0D,
            BaseType::Sint64 => 0x8E,
            BaseType::Uint64 => 0x8F,
            BaseType::Uint64z => 0x90,
        }
    }

    /// The invalid value of the type, which means "no value". For a type with a sign it is the number before the sign is read;
    /// for a float, its bits.
    pub fn invalid(self) -> u64
        ensures { result ≡ (row_of self).invalid }
    {
        match self {
            BaseType::Enum | BaseType::Uint8 | BaseType::Byte => 0xFF,
            BaseType::Sint8 => 0x7F,
            BaseType::Sint16 => 0x7FFF,
            BaseType::Uint16 => 0xFFFF,
            BaseType::Sint32 => 0x7FFF_FFFF,
            BaseType::Uint32 | BaseType::Float32 => 0xFFFF_FFFF,
            BaseType::Sint64 => 0x7FFF_FFFF_FFFF_FFFF,
            BaseType::Uint64 | BaseType::Float64 => 0xFFFF_FFFF_FFFF_FFFF,
            BaseType::String
            | BaseType::Uint8z
            | BaseType::Uint16z
            | BaseType::Uint32z
            | BaseType::Uint64z => 0,
        }
    }

    /// Whether values of the type have a sign.
    pub fn is_signed(self) -> bool
        ensures { result ≡ has_sign self }
    {
        matches!(
            self,
            BaseType::Sint8 | BaseType::Sint16 | BaseType::Sint32 | BaseType::Sint64
        )
    }
}
