// What a folder lacks in which nothing is recorded.

ghost use Rattle.std.specs.Prelude.{◌≡◌, Some};
ghost use Rattle.fit_recordings.specs.Lacking.{lack_of, lack_text, journal_lack};

use std::fmt::{self, Display, Formatter, Write};

/// What a folder lacks in which nothing is recorded, while one of the two files is there.
#[derive(Clone, Copy, Debug, PartialEq, Eq)]
pub enum Lack {
    /// The data file is missing.
    NoData,
    /// The data file is empty.
    EmptyData,
    /// The journal is missing.
    NoJournal,
    /// The journal is empty.
    EmptyJournal,
    /// The journal does not begin as a journal does.
    JournalHead,
    /// The journal states no commit.
    NoCommit,
}

impl Lack {
    /// Of the bytes of a data file and a journal in which nothing is recorded.
    pub fn of(in_data: &[u8], in_journal: &[u8]) -> Lack
        ensures { result ≡ lack_of in_data.now in_journal.now }
    {
        if in_data.is_empty() {
            Lack::EmptyData
        } else {
            Lack::of_journal(in_journal)
        }
    }

    /// Of the bytes of a journal in which nothing is recorded, while the data file has bytes.
    pub fn of_journal(in_journal: &[u8]) -> Lack
        ensures { result ≡ journal_lack in_journal.now }
    {
        if in_journal.is_empty() {
            Lack::EmptyJournal
        } else if in_journal.len() < 8 || in_journal[0] != b'F' {
            Lack::JournalHead
        } else {
            Lack::NoCommit
        }
    }

    fn text(&self) -> &'static str
        ensures { result.now ≡ lack_text self.now }
    {
        match self {
            Lack::NoData => "activity.fit is missing",
            Lack::EmptyData => "activity.fit is empty",
            Lack::NoJournal => {
                "activity.frj is missing; salvage copies what is readable of activity.fit"
            }
            Lack::EmptyJournal => {
                "activity.frj is empty; salvage copies what is readable of activity.fit"
            }
            Lack::JournalHead => {
                "activity.frj is damaged in its head; salvage copies what is readable of activity.fit"
            }
            Lack::NoCommit => {
                "activity.frj states no commit; salvage copies what is readable of activity.fit"
            }
        }
    }
}

impl Display for Lack {
    ghost output = { λ lack. Some (lack_text lack) };

    fn fmt<W: Write>(&self, f: &mut Formatter<W>) -> fmt::Result {
        f.write_str(self.text())
    }
}
