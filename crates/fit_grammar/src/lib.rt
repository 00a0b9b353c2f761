//! The grammar of FIT files: items, the definitions in force, messages, and whole files.
//!
//! A file is a header (`Frame`), a row of items and a closing checksum. An `Item` is a definition or a `DataMessage`. A
//! definition gives the layout of the data messages of its local number from there on. A `Table` has the definitions in
//! force. `next_item` reads the item at the front of some bytes, and `message_of` makes the `Message` of a data message,
//! with its time and its `Fields`. `write_definition`, `write_native_definition` and `write_data` write items.
//!
//! `decode_file` reads a whole file into a `File`, or refuses it for what its shortest faulty prefix shows. A `Decoder`
//! does the same for a file that is fed to it in pieces, wherever they are cut. A `File` can also be built item by item.
//! It lends its messages one after another, or its items where they are (`FileItem`), and `encode_file` writes it. A `LentFile` does
//! the same for a file whose bytes are all there, and takes no memory:
//!
//!     let frame = Frame { header_size: 14, protocol: 0x10, profile: 100 };
//!     let mut file = File::new(alloc, frame);
//!     file.define(&Definition { local: 0, arch: Arch::Little, global: 20, fields, developer: ArrayVec::new() })?;
//!     file.data(0, None, &[100])?;
//!     encode_file(&file, &mut bytes)?;
//!     let read = decode_file(alloc, bytes.as_slice())?;
//!     let message = read.messages().next().expect(&rt, "one message");
//!     assert_eq!(rt; message.global(), 20);
//!
//! (The test `the_example_of_the_crate` of `fit_format_tests`.) The contracts use the definitions in `specs/`: `Format` has the
//! FIT format itself, `Calls` what public contracts use beside it, and `Private` what only proofs need. `laws` has what
//! follows from the definitions alone.
//!
//! Proved: `decode_file` and a `Decoder` take exactly the files of the format and refuse any other bytes with the first fault; what is
//! read, encoded again, is the same bytes; a message is read under the definition in force. Trusted is the kit alone.
#![tactic(auto)]

mod definition;
mod file;
mod item;
pub mod laws;
mod message;
mod plain;
mod sink;

pub use definition::{
    Definition, DefinitionMessage, Definitions, DeveloperFieldDefinition, FieldDefinition,
    FrozenShort, Latest, ShortDefinition, ShortTable, Table,
};
pub use file::{
    Decoder, EncodeFault, FaultKind, File, FileFault, Frame, Header, LentFile, Places, PutFault,
    decode_file, encode_extended, encode_file, encode_file_extended, encode_records, header_front,
    put_checked, put_header, read_header_front,
};
pub use item::{
    DataMessage, FileItem, Item, ItemFault, Items, Step, least_length, longest_front, next_item,
    step_after, take_over, write_data, write_definition, write_native_definition,
};
pub use message::{
    DeveloperField, DeveloperFields, Field, Fields, Message, Messages, developer_fields_of,
    message_of,
};
pub use plain::{
    PlainFault, PlainFaultKind, WritePlainFault, plain_file, put_definition, write_plain,
    write_plain_records,
};
pub use sink::{Sink, WriteFailed};
