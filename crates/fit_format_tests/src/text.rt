// Files as text, and text on its way to a writer.

mod developer;
mod json;
mod names;
mod showing;
mod writing;

use crate::equality::equal;
use fit_grammar::File;
use fit_text::show;
use std::alloc::{AllocError, Global};
use std::process::Abort;
use std::test::Fail;

// The text of the file. Times are shown as dates or as numbers.
fn shown(alloc: Global, file: &File, utc: bool) -> Result<Vec<u8>, Fail> {
    let mut out = Vec::new(alloc);
    show(&file.lend(), utc, &mut out)?;
    Ok(out)
}

// Asserts that the file is shown as this text.
fn assert_shown(
    rt: &impl Abort,
    alloc: Global,
    file: &File,
    utc: bool,
    text: &str,
) -> Result<(), Fail> {
    let out = shown(alloc, file, utc)?;
    equal(rt, out.as_slice(), text.as_bytes());
    Ok(())
}

// These texts, one after the other.
fn joined(alloc: Global, texts: &[&'static str]) -> Result<String, AllocError> {
    let mut whole = String::new(alloc);
    for text in texts {
        whole.push_str(*text)?;
    }
    Ok(whole)
}
