// Fields of one value each, of which messages are made.

ghost use Rattle.std.specs.Prelude.{◌≡◌};
ghost use Rattle.fit_base.specs.declared.base.BaseType.TheVariants as types;
ghost use Rattle.fit_activity.specs.Messages.ProfileField.{profile_field, profile_field_or_invalid, is_invalid, ProfileFieldFits};

use fit_base::BaseType;

// A field of one value: its number in the profile, its base type, and the value as the unsigned number of its bytes.
#[derive(Clone, Copy, Debug, PartialEq, Eq)]
pub(crate) struct ProfileField {
    pub(crate) number: u8,
    pub(crate) base: BaseType,
    pub(crate) value: u32,
}

impl Default for ProfileField {
    fn default() -> ProfileField {
        ProfileField {
            number: 0,
            base: BaseType::Enum,
            value: 0,
        }
    }
}

impl ProfileField {
    // A value of an enumeration.
    pub(crate) fn enumeration(number: u8, value: u8) -> ProfileField
        ensures profile_field { result ≡ profile_field number types.Enum value }
        ensures fits { ProfileFieldFits result }
    {
        ProfileField {
            number,
            base: BaseType::Enum,
            value: u32::from(value),
        }
    }

    pub(crate) fn uint16(number: u8, value: u16) -> ProfileField
        ensures profile_field { result ≡ profile_field number types.Uint16 value }
        ensures fits { ProfileFieldFits result }
    {
        ProfileField {
            number,
            base: BaseType::Uint16,
            value: u32::from(value),
        }
    }

    pub(crate) fn uint32(number: u8, value: u32) -> ProfileField
        ensures profile_field { result ≡ profile_field number types.Uint32 value }
        ensures fits { ProfileFieldFits result }
    {
        ProfileField {
            number,
            base: BaseType::Uint32,
            value: value,
        }
    }

    // A number whose invalid value is 0.
    pub(crate) fn uint32z(number: u8, value: u32) -> ProfileField
        ensures profile_field { result ≡ profile_field number types.Uint32z value }
        ensures fits { ProfileFieldFits result }
    {
        ProfileField {
            number,
            base: BaseType::Uint32z,
            value: value,
        }
    }

    // The value, or the invalid value if there is none.
    pub(crate) fn uint8_or_invalid(number: u8, value: Option<u8>) -> ProfileField
        ensures profile_field { result ≡ profile_field_or_invalid number types.Uint8 value }
        ensures fits { ProfileFieldFits result }
    {
        ProfileField {
            number,
            base: BaseType::Uint8,
            value: u32::from(value.unwrap_or(u8::MAX)),
        }
    }

    // The value, or the invalid value if there is none.
    pub(crate) fn uint16_or_invalid(number: u8, value: Option<u16>) -> ProfileField
        ensures profile_field { result ≡ profile_field_or_invalid number types.Uint16 value }
        ensures fits { ProfileFieldFits result }
    {
        ProfileField {
            number,
            base: BaseType::Uint16,
            value: u32::from(value.unwrap_or(u16::MAX)),
        }
    }

    // The value, or the invalid value if there is none.
    pub(crate) fn uint32_or_invalid(number: u8, value: Option<u32>) -> ProfileField
        ensures profile_field { result ≡ profile_field_or_invalid number types.Uint32 value }
        ensures fits { ProfileFieldFits result }
    {
        ProfileField {
            number,
            base: BaseType::Uint32,
            value: value.unwrap_or(u32::MAX),
        }
    }

    // Whether it holds the invalid value of its base type.
    pub(crate) fn is_invalid(&self) -> bool
        ensures { result ≡ is_invalid self.now }
    {
        u64::from(self.value) == self.base.invalid()
    }
}
