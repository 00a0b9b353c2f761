// The files that stand somewhere in the bytes of a card.

ghost use Rattle.std.specs.Prelude.{◌≡◌, Ok, Err, ◌↔◌, IfOk, IfErr, take};
ghost use Rattle.fit_mending.specs.Found.{AreFound, BeginsFile, BeginsWithFile, IsReadTo, TakesTooLong};
ghost use Rattle.fit_mending.specs.declared.finding.FindFault.TheVariants.{TooManyHeaders};

use crate::chained::{Part, first_file};
use fit_grammar::LentFile;
use std::alloc::Global;

// How often as many bytes as there are may be read in vain.
const MOST_PASSES: usize = 32;

/// Why the files of a card are not found.
#[derive(Clone, Copy, Debug, PartialEq, Eq)]
pub enum FindFault {
    /// So much looks like the beginning of a file and is none that it would take too long to read it all.
    TooManyHeaders,
    /// Memory was refused.
    Memory,
}

/// The whole files that stand in these bytes, in order, each with the place where it begins. A file inside another is not looked for. Work
/// is in proportion to the number of bytes.
pub fn find_files(alloc: Global, bytes: &[u8]) -> Result<Vec<Part<'_>>, FindFault>
    // Each is a file, none begins within another, and no other file begins between them.
    ensures found { IfOk result (λ parts. AreFound bytes.now 0 parts.items) }
    // It gives up only where that is so.
    ensures too_many { IfErr result (λ fault. fault ≡ TooManyHeaders → TakesTooLong bytes.now) }
{
    let mut parts: Vec<Part<'_>> = Vec::new(alloc);
    let mut at: usize = 0;
    let mut passed: usize = 0;
    while at < bytes.len() {
        let (_, rest) = bytes.split_at(at);
        match file_at(rest) {
            Ok(file) => {
                let part = Part {
                    number: at,
                    bytes: file,
                };
                if parts.push(part).is_err() {
                    return Err(FindFault::Memory);
                }
                at += file.len();
            }
            Err(read) => {
                passed = passed.saturating_add(read);
                if passed / MOST_PASSES > bytes.len() {
                    return Err(FindFault::TooManyHeaders);
                }
                at += 1;
            }
        }
    }
    Ok(parts)
}

// The whole file at the front of these bytes; or, if none begins there, how many bytes were read to see that.
fn file_at(bytes: &[u8]) -> Result<&[u8], usize>
    ensures file { IfOk result (λ file. BeginsWithFile bytes.now file.now) }
    ensures none { IfErr result (λ _. BeginsFile bytes.now → ⊥) }
    ensures read { IfErr result (IsReadTo bytes.now) }
{
    let (file, _) = bytes.split_at(first_file(bytes));
    match LentFile::read(file) {
        Ok(_) => Ok(file),
        Err(fault) => Err(fault.place),
    }
}
