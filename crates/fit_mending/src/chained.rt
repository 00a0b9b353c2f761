// Files that are chained, one after another.

ghost use Rattle.std.specs.Prelude.{◌≡◌, ◌≤◌, ◌++◌, List, ℕ, length, flat_map, map, IfOk};
ghost use Rattle.fit_grammar.specs.Format.File.{FileValue, FileOf};
ghost use Rattle.fit_mending.specs.Chained.{EndsFirst, AreChained, AreNumbered};

use fit_grammar::read_header_front;
use std::alloc::{AllocError, Global};

/// One of several files, by its number or the place where it begins.
#[derive(Clone, Copy)]
pub struct Part<'a> {
    pub number: usize,
    pub bytes: &'a [u8],
}

/// Where the first file of these bytes ends: after the records that its header gives and the two bytes of a checksum, or where the bytes
/// end, if they end before that or begin with no header. What the file has after its header is not looked at.
pub fn first_file(bytes: &[u8]) -> usize
    ensures ends { EndsFirst bytes.now result }
    // A whole file ends where it does.
    ensures whole { (file rest : List ℕ) (v : FileValue) → bytes.now ≡ file ++ rest
        → FileOf file v → result ≡ length file }
    ensures some { 1 ≤ length bytes.now → 1 ≤ result }
{
    match read_header_front(bytes) {
        Ok(header) => {
            let whole = header.frame.header_size as usize + header.data_size as usize + 2;
            whole.min(bytes.len())
        }
        Err(_) => bytes.len(),
    }
}

/// The files that are chained in these bytes, in order, with their numbers from 1 on. What begins with no header comes last.
pub fn split_files(alloc: Global, bytes: &[u8]) -> Result<Vec<Part<'_>>, AllocError>
    ensures chained { IfOk result
        (λ parts. AreChained bytes.now (map (λ part. part.bytes.now) parts.items)) }
    // One after another, they are the bytes.
    ensures joined { IfOk result
        (λ parts. flat_map (λ part. part.bytes.now) parts.items ≡ bytes.now) }
    ensures numbered { IfOk result (λ parts. AreNumbered 0 parts.items) }
{
    let mut parts: Vec<Part<'_>> = Vec::new(alloc);
    let mut rest = bytes;
    while !rest.is_empty() {
        let (file, others) = rest.split_at(first_file(rest));
        let number = parts.len() + 1;
        parts.push(Part {
            number,
            bytes: file,
        })?;
        rest = others;
    }
    Ok(parts)
}
