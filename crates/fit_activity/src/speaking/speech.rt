// Messages as they are handed on.

ghost use Rattle.std.specs.Prelude.{◌≡◌, ◌+◌, ◌≤◌, ◌<◌, ◌++◌, ◌∷◌, [], length, drop};
ghost use Rattle.std.specs.List.{AllByRecursion};
ghost use Rattle.fit_base.specs.declared.base.BaseType.TheVariants as types;
ghost use Rattle.fit_grammar.specs.Format.Item.{Defines, item_size};
ghost use Rattle.fit_grammar.specs.Format.Encoding.{encoded_item};
ghost use Rattle.fit_grammar.specs.Calls.Possible.{DefinitionFits};
ghost use Rattle.fit_activity.specs.Messages.Numbers.{record_global, timestamp_field};
ghost use Rattle.fit_activity.specs.Messages.ProfileField.{profile_field, field_definition, field_content, content_length, present, ProfileFieldFits, OptionFits};

use crate::speaking::numbers::{RECORD, TIMESTAMP};
use crate::speaking::profile_field::ProfileField;
use arrayvec::ArrayVec;
use fit_base::Arch;
use fit_grammar::{Definition, FieldDefinition, write_native_definition};
use std::marker::Model;

// The most fields of a message: those of a session.
const MOST_FIELDS: usize = 19;

/// A message as it is handed on: its definition, which has no developer fields, and the bytes of its content
/// under it, little-endian. Contracts see these two.
#[derive(Debug, Drop)]
pub struct SpokenMessage {
    local: u8,
    global: u16,
    fields: ArrayVec<FieldDefinition, MOST_FIELDS>,
    content: ArrayVec<u8, 41>,
}

impl Model for SpokenMessage {
    ghost use Rattle.fit_base.specs.declared.order.Arch.TheVariants.{Little};
    ghost use Rattle.fit_grammar.specs.Format.Item.{native_definition};
    ghost use Rattle.fit_activity.specs.Messages.SpokenMessage.{SpokenMessage as AnyMessage};

    ghost Value = { AnyMessage };

    ghost view = { λ s. record {
      definition = native_definition s.local Little s.global s.fields.items;
      content = s.content.items;
    } };
}

/// The messages of one entry, of a start, or of the end of a recording: at most four. It is made once and
/// reused, so nothing of it is copied for an entry. Contracts see the list of its messages.
#[derive(Debug, Drop)]
pub struct Speech {
    slots: [SpokenMessage; 4],
    count: usize,
}

impl Model for Speech {
    ghost use Rattle.std.specs.Prelude.{List, take, ◌≤◌};
    ghost use Rattle.fit_activity.specs.Messages.SpokenMessage.{SpokenMessage as AnyMessage};

    ghost Value = { List AnyMessage };

    ghost view = { λ s. take s.count s.slots };

    ghost invariant = { λ s. s.count ≤ 4 };
}

impl SpokenMessage {
    ghost use Rattle.fit_activity.specs.Messages.MessageBytes.{spelled, CanPut, HasPut, CanBeSpelled};

    /// The local message number.
    pub fn local(&self) -> u8
        ensures { result ≡ self.now.definition.local }
    {
        self.local
    }

    /// Its definition.
    pub fn definition(&self) -> Definition
        ensures { result ≡ self.now.definition }
    {
        let mut fields = ArrayVec::new();
        fields.try_extend_from_slice(&self.fields).unwrap();
        Definition {
            local: self.local,
            arch: Arch::Little,
            global: self.global,
            fields,
            developer: ArrayVec::new(),
        }
    }

    /// The bytes of its content, little-endian.
    pub fn content(&self) -> &[u8]
        ensures { result.now ≡ self.now.content }
    {
        &self.content
    }

    /// Writes its definition at the front of `out`, which has room for it, and returns the number of bytes.
    /// The local number must be below 16.
    pub fn write_definition(&self, out: &mut [u8]) -> usize
        requires local { self.now.definition.local < 16 }
        requires room { item_size (Defines self.now.definition) ≤ length out.old }
        ensures count { result ≡ item_size (Defines self.now.definition) }
        ensures written { out.new
            ≡ encoded_item (Defines self.now.definition) ++ drop result out.old }
        // This follows from the types.
        ensures fits { DefinitionFits self.now.definition }
    {
        write_native_definition(self.local, Arch::Little, self.global, &self.fields, out)
    }

    // No message yet.
    fn new() -> SpokenMessage {
        SpokenMessage {
            local: 0,
            global: 0,
            fields: ArrayVec::new(),
            content: ArrayVec::new(),
        }
    }

    // A message with no fields.
    fn begin(&mut self, local: u8, global: u16)
        ensures { self.new ≡ spelled (record { local = local; global = global; fields = [] }) }
    {
        self.local = local;
        self.global = global;
        self.fields.clear();
        self.content.clear();
    }

    // Adds a field.
    fn put(&mut self, field: &ProfileField)
        requires fits { ProfileFieldFits field.now }
        requires few { length self.old.definition.fields.items < 19 }
        requires short { length self.old.content + content_length (field.now ∷ []) ≤ 41 }
        ensures fields { self.new.definition ≡ record self.old.definition {
          fields = record {
            items = self.old.definition.fields.items
                ++ field_definition field.now ∷ [];
          };
        } }
        ensures content { self.new.content ≡ self.old.content ++ field_content field.now }
    {
        let size = field.base.size();
        self.fields.push(FieldDefinition {
            number: field.number,
            size: size as u8,
            base: field.base.code(),
        });
        let bytes = field.value.to_le_bytes();
        self.content.try_extend_from_slice(&bytes[..size]).unwrap();
    }

    // Adds these fields.
    fn put_all(&mut self, fields: &[ProfileField])
        requires { CanPut self.old fields.now }
        ensures { HasPut self.old fields.now self.new }
    {
        let mut rest = fields;
        while let [field, others @ ..] = rest {
            self.put(field);
            rest = others;
        }
    }

    // Adds the fields that are present.
    fn put_present(&mut self, fields: &[Option<ProfileField>])
        requires { CanPut self.old (present fields.now) }
        ensures { HasPut self.old (present fields.now) self.new }
    {
        let mut rest = fields;
        while let [field, others @ ..] = rest {
            match field {
                Some(field) => self.put(field),
                None => {}
            }
            rest = others;
        }
    }

    // The message with these fields.
    fn spell(&mut self, local: u8, global: u16, fields: &[ProfileField])
        requires { CanBeSpelled fields.now }
        ensures { self.new
            ≡ spelled (record { local = local; global = global; fields = fields.now }) }
    {
        self.begin(local, global);
        self.put_all(fields);
    }

    // The record with this time and the fields that are present.
    fn spell_record(&mut self, time: u32, fields: &[Option<ProfileField>])
        requires fit { AllByRecursion OptionFits fields.now }
        requires few { length fields.now ≤ 14 }
        requires short { content_length (present fields.now) ≤ 37 }
        ensures { self.new
            ≡ spelled
            (record {
              local = 0;
              global = record_global;
              fields = profile_field timestamp_field types.Uint32 time
                  ∷ present fields.now;
            }) }
    {
        self.begin(0, RECORD);
        self.put(&ProfileField::uint32(TIMESTAMP, time));
        self.put_present(fields);
    }

    // The record without its time.
    fn spell_untimed(&mut self, fields: &[Option<ProfileField>])
        requires fit { AllByRecursion OptionFits fields.now }
        requires few { length fields.now ≤ 14 }
        requires short { content_length (present fields.now) ≤ 37 }
        ensures { self.new
            ≡ spelled
            (record { local = 0; global = record_global; fields = present fields.now }) }
    {
        self.begin(0, RECORD);
        self.put_present(fields);
    }
}

impl Speech {
    ghost use Rattle.fit_activity.specs.Messages.MessageBytes.{spelled, CanBeSpelled};

    /// No messages.
    pub fn new() -> Speech
        ensures { result ≡ [] }
    {
        Speech {
            slots: [
                SpokenMessage::new(),
                SpokenMessage::new(),
                SpokenMessage::new(),
                SpokenMessage::new(),
            ],
            count: 0,
        }
    }

    /// The messages in order.
    pub fn messages(&self) -> &[SpokenMessage]
        ensures { result.now ≡ self.now }
    {
        &self.slots[..self.count]
    }

    // Removes all messages.
    pub(crate) fn clear(&mut self)
        ensures { self.new ≡ [] }
    {
        self.count = 0;
    }

    // Adds a message.
    pub(crate) fn spell(&mut self, local: u8, global: u16, fields: &[ProfileField])
        requires room { length self.old < 4 }
        requires fields { CanBeSpelled fields.now }
        ensures { self.new ≡ self.old
            ++ spelled (record { local = local; global = global; fields = fields.now }) ∷ [] }
    {
        self.slots[self.count].spell(local, global, fields);
        self.count += 1;
    }

    // Adds a record.
    pub(crate) fn spell_record(&mut self, time: u32, fields: &[Option<ProfileField>])
        requires room { length self.old < 4 }
        requires fit { AllByRecursion OptionFits fields.now }
        requires few { length fields.now ≤ 14 }
        requires short { content_length (present fields.now) ≤ 37 }
        ensures stated { self.new ≡ self.old
            ++ spelled
            (record {
              local = 0;
              global = record_global;
              fields = profile_field timestamp_field types.Uint32 time
                  ∷ present fields.now;
            }) ∷ [] }
        // This follows from its type.
        ensures fits { ProfileFieldFits (profile_field timestamp_field types.Uint32 time) }
    {
        self.slots[self.count].spell_record(time, fields);
        self.count += 1;
    }

    // Adds a record without its time.
    pub(crate) fn spell_untimed(&mut self, fields: &[Option<ProfileField>])
        requires room { length self.old < 4 }
        requires fit { AllByRecursion OptionFits fields.now }
        requires few { length fields.now ≤ 14 }
        requires short { content_length (present fields.now) ≤ 37 }
        ensures { self.new ≡ self.old
            ++ spelled
            (record { local = 0; global = record_global; fields = present fields.now }) ∷ [] }
    {
        self.slots[self.count].spell_untimed(fields);
        self.count += 1;
    }
}
