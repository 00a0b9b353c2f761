// A part of an activity.

ghost use Rattle.std.specs.Prelude.{◌↔◌, IsTrue};
ghost use Rattle.std.specs.List.{AllByRecursion};
ghost use Rattle.fit_grammar.specs.Calls.LentItem.{item_lent, lent_item};
ghost use Rattle.fit_grammar.specs.Calls.PlainForm.{IsPlain};

use fit_grammar::{FileItem, LentFile};

/// A file that is a part of an activity, lent in its bytes, and its name.
#[derive(Drop)]
pub struct Part<'n, 'a> {
    pub name: &'n str,
    pub file: LentFile<'a>,
}

impl Default for Part<'_, '_> {
    /// A part without a name and without items.
    fn default() -> Self {
        Part {
            name: "",
            file: LentFile::default(),
        }
    }
}

/// Whether a file has no compressed timestamps, as each part has to.
pub fn is_plain(file: &LentFile<'_>) -> bool
    ensures { IsTrue result ↔ AllByRecursion IsPlain file.now.items }
{
    for item in file.items() {
        if !is_item_plain(item) {
            return false;
        }
    }
    true
}

fn is_item_plain(item: FileItem<'_>) -> bool
    ensures { IsTrue result ↔ IsPlain (item_lent (lent_item item.entry)) }
{
    match item {
        FileItem::Definition(_) => true,
        FileItem::Data(message, _) => message.offset.is_none(),
    }
}
