// The messages and the columns that words choose for a table.

ghost use Rattle.std.specs.Prelude.{◌≤◌, length, OnOk};
ghost use Rattle.fit_commands.specs.Chosen.{AddsColumn};

use arrayvec::ArrayVec;
use fit_profile::{fields_of, usual_fields};
use fit_table::{DeveloperColumns, Layout, MOST_NAMES, field_of_word, message_of_word};
use fit_words::TableForm;

// The most columns of a table.
const MOST_COLUMNS: usize = 128;

// The global number of records.
const RECORD: u16 = 20;

// The number of the field that has the time of a message.
const TIMESTAMP: u8 = 253;

/// What the words choose.
#[derive(Drop)]
pub struct Chosen<'a> {
    pub message: u16,
    pub fields: ArrayVec<u8, MOST_COLUMNS>,
    /// The names of developer fields, whose columns follow.
    pub names: ArrayVec<&'a [u8], MOST_NAMES>,
}

/// Why words choose nothing.
#[derive(Clone, Copy)]
pub enum NotChosen<'a> {
    /// No messages have this name.
    Message(&'a str),
    /// No field of these messages has this name.
    Field(&'a str),
    /// There are more than 128 names of fields.
    TooMany,
}

impl<'a> Chosen<'a> {
    /// The messages and fields that the words name: records, and the fields that have a name, if there are no words. With
    /// `--profile` these are the first 127 of the Profile, after the time.
    pub fn of(form: &TableForm<'a>) -> Result<Chosen<'a>, NotChosen<'a>> {
        let message = match form.message {
            Some(word) => message_of_word(form.profile, word).ok_or(NotChosen::Message(word))?,
            None => RECORD,
        };
        match form.fields {
            Some(words) => named_in(form.profile, message, words),
            None if form.profile => Ok(Chosen::with(message, profile_fields(message))),
            None => Ok(Chosen::with(message, all_of(usual_fields(message)))),
        }
    }

    // These fields, and no developer field.
    fn with(message: u16, fields: ArrayVec<u8, MOST_COLUMNS>) -> Chosen<'a> {
        Chosen {
            message,
            fields,
            names: ArrayVec::new(),
        }
    }

    // Adds the column that a word names: of a field, or with `--profile`, if no field has this name, of a developer field.
    fn add(&mut self, profile: bool, word: &'a str) -> Result<(), NotChosen<'a>>
        ensures { OnOk result (AddsColumn profile word.now self.old self.new) }
    {
        let number = field_of_word(profile, self.message, word);
        if number.is_none() && (!profile || word.is_empty()) {
            return Err(NotChosen::Field(word));
        }
        if self.fields.len() + self.names.len() >= MOST_COLUMNS {
            return Err(NotChosen::TooMany);
        }
        match number {
            Some(number) => self.fields.push(number),
            None => self.names.push(word.as_bytes()),
        }
        Ok(())
    }

    /// The layout of a table of them.
    pub fn layout(&self, form: &TableForm<'_>) -> Layout<'_>
        ensures { length result.fields.now ≤ 128 }
    {
        Layout {
            message: self.message,
            fields: self.fields.as_slice(),
            raw: form.raw,
            utc: form.utc,
            profile: form.profile,
            developer: match form.fields {
                Some(_) => DeveloperColumns::Named(&self.names),
                None if form.profile => DeveloperColumns::All,
                None => DeveloperColumns::Without,
            },
        }
    }
}

// What these names choose, which have commas between them. The time comes before developer fields alone, so that no line is empty.
fn named_in<'a>(profile: bool, message: u16, words: &'a str) -> Result<Chosen<'a>, NotChosen<'a>> {
    let mut chosen = Chosen::with(message, ArrayVec::new());
    for word in words.split(',') {
        chosen.add(profile, word)?;
    }
    if chosen.fields.is_empty() {
        chosen.fields.push(TIMESTAMP);
    }
    Ok(chosen)
}

// The time, and the fields of the message that the Profile has, as far as there is room.
fn profile_fields(message: u16) -> ArrayVec<u8, MOST_COLUMNS> {
    let mut fields = all_of(&[TIMESTAMP]);
    for row in fields_of(message) {
        if row.0 != TIMESTAMP {
            let _ = fields.try_push(row.0);
        }
    }
    fields
}

fn all_of(numbers: &[u8]) -> ArrayVec<u8, MOST_COLUMNS> {
    let mut fields = ArrayVec::new();
    for number in numbers {
        let _ = fields.try_push(*number);
    }
    fields
}
