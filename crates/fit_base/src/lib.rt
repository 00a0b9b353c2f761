//! The parts that every FIT file is built on: base types, the numbers of fields, and the checksums.
//!
//! A field of a data message is some bytes under a base type byte and an architecture. `FieldValue` borrows these bytes:
//! it counts the values, reads them by index, and reports which are invalid. `BaseType` is a row of the protocol's table
//! of types, `Arch` is the byte order, and `number_of` reads the number of some bytes. `put` writes a value that
//! `FieldValue` reads back. `Crc` is the checksum of a file, and `Crc32` that of zlib, over bytes that may come in
//! pieces.
//!
//!     let field = FieldValue::new(0x84, Arch::Little, &[0xC8, 0x00, 0xFF, 0xFF]);
//!     assert_eq!(rt; field.count(), 2);
//!     assert_eq!(rt; field.unsigned(0), 200);
//!     assert!(rt; field.is_invalid(1));
//!     assert_eq!(rt; Crc::of(b"123456789"), 0xBB3D);
//!
//! (The test `the_example_of_the_crate` of `fit_format_tests`.) Nothing here takes memory. The contracts use the definitions
//! in `specs/`: `Base` has the table of types, `Number` the number that bytes encode, `Value` what a field holds, and
//! `Checksum` the register. The proofs check the tables of the checksum against `Checksum` entry by entry.
//!
//! Proved: the number of each field of each type and byte order, which values are invalid, and that a checksum is the fold over the bits,
//! by whichever table it is computed. Trusted is the kit alone.
#![tactic(auto)]

mod base;
mod checksum;
mod checksum32;
mod number;
mod order;
mod putting;
mod value;

pub use base::BaseType;
pub use checksum::Crc;
pub use checksum32::Crc32;
pub use number::number_of;
pub use order::Arch;
pub use putting::put;
pub use value::FieldValue;
