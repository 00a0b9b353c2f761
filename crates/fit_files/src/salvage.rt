// The readable part of a file that has no journal.

ghost use Rattle.std.specs.Prelude.{◌<◌, ◌^◌, length};

use crate::decoding::decode_whole;
use crate::fault::ReportFault;
use crate::plain::plain_of;
use crate::printing::print_line;
use crate::reading::ReadFault;
use fit_grammar::{File, Frame, Places, Sink, encode_records};
use std::alloc::Global;
use std::fmt::{self, Formatter};
use std::io::Write;

/// The readable part of a file: the longest prefix of the bytes looked at that is a row of whole items.
#[derive(Clone, Copy)]
pub struct Salvage<'a> {
    /// The header of the file that is written.
    pub frame: Frame,
    pub row: &'a [u8],
    /// The number of bytes looked at.
    pub looked_at: usize,
    /// The number of bytes after those looked at and the two of a checksum.
    pub not_looked_at: usize,
    ghost fits: { length row.now < 2 ^ 32 },
}

impl Salvage<'_> {
    ghost use Rattle.std.specs.Prelude.{◌≡◌, ◌++◌, Bool, List, ℕ, codes, IfErr};
    ghost use Rattle.fit_grammar.specs.Calls.Output.{WritesText};
    ghost use Rattle.fit_grammar.specs.Format.File.{FileOf, IsFrame};
    ghost use Rattle.fit_grammar.specs.Format.Item.{Item};
    ghost use Rattle.fit_grammar.specs.Format.Records.{Records};
    ghost use Rattle.fit_files.specs.Printed.Salvaged.{IsSalvage, IsNoForm, DecodesSalvage, ReadsSalvage, PlainsSalvage, saved_file, left_text};
    ghost use Rattle.fit_files.specs.Printed.Shown.{IsOutputFault};

    /// Writes the row as a file of its own: a header, the row and a checksum. After an `Err` a prefix of that file is written. No
    /// data is invented, and no memory is allocated.
    pub fn write<S: Sink>(&self, out: &mut S) -> Result<(), S::Fault>
        ensures written { WritesText (S.held out.old) (S.held out.new) result
            (saved_file self.now) }
        ensures file { (all : Bool) (bytes : List ℕ) (found : IsSalvage all bytes self.now)
            → FileOf (saved_file self.now)
            (record { frame = self.now.frame; items = found.items }) }
        // The same of any row of whole items.
        ensures row { (items : List Item) → IsFrame self.now.frame → Records self.now.row.now items
            → FileOf (saved_file self.now) (record { frame = self.now.frame; items = items }) }
    {
        encode_records(self.frame, self.row, out)
    }

    /// The plain form of the file that `write` writes. The place of a fault is an offset in that file.
    pub fn plain(&self, alloc: Global) -> Result<File, ReportFault>
        ensures form { PlainsSalvage self.now result }
        // What `salvage_bytes` found is a file, so no other fault occurs.
        ensures taken { (all : Bool) (bytes : List ℕ) → IsSalvage all bytes self.now
            → IfErr result IsNoForm }
    {
        match self.decoded(alloc) {
            Ok((file, places)) => plain_of(alloc, &file, &places),
            Err(fault) => Err(fault),
        }
    }

    /// The file that `write` writes.
    pub fn file(&self, alloc: Global) -> Result<File, ReportFault>
        ensures file { ReadsSalvage self.now result }
        // What `salvage_bytes` found is a file, so only memory may be refused.
        ensures taken { (all : Bool) (bytes : List ℕ) → IsSalvage all bytes self.now
            → IfErr result IsNoForm }
    {
        match self.decoded(alloc) {
            Ok((file, _)) => Ok(file),
            Err(fault) => Err(fault),
        }
    }

    // The file that `write` writes. No copy of its bytes is kept.
    fn decoded(&self, alloc: Global) -> Result<(File, Places), ReportFault>
        ensures decodes { DecodesSalvage self.now result }
        ensures file { (all : Bool) (bytes : List ℕ) (found : IsSalvage all bytes self.now)
            → FileOf (saved_file self.now)
            (record { frame = self.now.frame; items = found.items }) }
    {
        let mut bytes = Vec::new(alloc);
        let Ok(()) = self.write(&mut bytes) else {
            return Err(ReportFault::Input(ReadFault::NoMemory));
        };
        decode_whole(alloc, bytes.as_slice())
    }

    /// Prints `not_looked_at`, unless it is 0. If the output fails, a prefix of that line is written.
    pub fn print_left<O: Write>(&self, out: &mut O) -> Result<(), ReportFault>
        ensures fault { IfErr result IsOutputFault }
        ensures none { self.now.not_looked_at ≡ 0 → O.contents out.new ≡ O.contents out.old }
        ensures line { 0 < self.now.not_looked_at
            → WritesText (O.contents out.old) (O.contents out.new) result (left_text self.now
            ++ codes "\n") }
    {
        if self.not_looked_at == 0 {
            return Ok(());
        }
        print_line(&LeftLine(self.not_looked_at), out)
    }
}

// The line with the number of bytes that were not looked at.
#[derive(Clone, Copy)]
struct LeftLine(usize);

impl fmt::Display for LeftLine {
    ghost use Rattle.std.specs.Prelude.{Some};
    ghost use Rattle.fit_files.specs.Printed.Salvaged.{count_left};

    ghost output = { λ line. Some (count_left line.0) };

    fn fmt<W: fmt::Write>(&self, f: &mut Formatter<W>) -> fmt::Result {
        let LeftLine(count) = self;
        write!(
            f,
            "fitrec: {count} bytes after the end that the header gives were not read; salvage --all reads them",
        )
    }
}

impl fmt::Display for Salvage<'_> {
    ghost use Rattle.std.specs.Prelude.{Some};
    ghost use Rattle.fit_files.specs.Printed.Salvaged.{kept_text};

    ghost output = { λ salvage. Some (kept_text salvage) };

    fn fmt<W: fmt::Write>(&self, f: &mut Formatter<W>) -> fmt::Result {
        write!(f, "kept {} of {}", self.row.len(), self.looked_at)
    }
}
