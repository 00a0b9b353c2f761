// The fields of a sample, in the order of their numbers (FIT profile, "record").

use fit_base::BaseType;

/// A field of a sample: its number in the profile, its base type, and its key in a script. Its range is that of the base type.
pub type SampleField = (u8, BaseType, &'static str);

/// How many fields a sample may have.
pub const FIELDS: usize = 11;

/// The fields of a sample.
pub const SAMPLE_FIELDS: [SampleField; FIELDS] = [
    (0, BaseType::Sint32, "lat"),
    (1, BaseType::Sint32, "long"),
    (2, BaseType::Uint16, "alt"),
    (3, BaseType::Uint8, "hr"),
    (4, BaseType::Uint8, "cad"),
    (5, BaseType::Uint32, "dist"),
    (6, BaseType::Uint16, "speed"),
    (7, BaseType::Uint16, "power"),
    (13, BaseType::Sint8, "temp"),
    (73, BaseType::Uint32, "espeed"),
    (78, BaseType::Uint32, "ealt"),
];
