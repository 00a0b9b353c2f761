// The plans of the definitions in force.

ghost use Rattle.std.specs.Prelude.{◌≡◌, ◌+◌, ◌<◌, ◌≤◌, ℕ, Option, false, None, Some, IsSome, length, slice_index_or, slice_range};
ghost use Rattle.fit_grammar.specs.declared.definition.Definition.{Definition as AnyDefinition};
ghost use Rattle.fit_grammar.specs.Format.Item.{Defines};
ghost use Rattle.fit_grammar.specs.Calls.Table.{in_force_after};
ghost use Rattle.fit_text.specs.declared.form.plan.TheConstants.{COLUMNS};
ghost use Rattle.fit_text.specs.Form.{shown};
ghost use Rattle.fit_text.specs.Plan.{ArePlansFor, IsPlanAt, IsShown, has_developer_size, has_size};

use crate::form::plan::{COLUMNS, Column, Plan};
use arrayvec::ArrayVec;
use fit_grammar::{Definition, DefinitionMessage, DeveloperFieldDefinition, FieldDefinition};

/// For each of the sixteen local numbers the plan of its definition, or none. A plan is made when the first
/// message of its definition is read.
#[derive(Drop)]
pub struct Plans {
    /// Whether times are shown as dates.
    pub utc: bool,
    /// Whether fields of size 0 are shown.
    pub empty: bool,
    pub slots: [Option<Plan>; 16],
    /// The columns of all plans, one plan after another.
    pub columns: ArrayVec<Column, COLUMNS>,
    /// Their developer fields, in the same way.
    pub developer: ArrayVec<DeveloperFieldDefinition, COLUMNS>,
}

impl Plans {
    /// No plans.
    pub fn new(utc: bool, empty: bool) -> Self
        ensures utc { result.utc ≡ utc }
        ensures empty { result.empty ≡ empty }
        ensures plans { (definition_for : ℕ → Option AnyDefinition)
            → ArePlansFor definition_for result }
    {
        Plans {
            utc,
            empty,
            slots: no_plans(),
            columns: ArrayVec::new(),
            developer: ArrayVec::new(),
        }
    }

    /// From here on the local number has another definition, and no plan yet.
    pub fn forget(&mut self, local: u8)
        requires { local < 16 }
        ensures utc { self.new.utc ≡ self.old.utc }
        ensures empty { self.new.empty ≡ self.old.empty }
        ensures plans { (definition_for : ℕ → Option AnyDefinition)
            (d : AnyDefinition)
            → d.local ≡ local
            → ArePlansFor definition_for self.old
            → ArePlansFor (in_force_after (Defines d) definition_for) self.new }
    {
        self.slots[usize::from(local)] = None;
    }

    /// Makes the plan of a local number that has this definition, if there is none yet.
    #[inline]
    pub fn settle(&mut self, local: u8, definition: &DefinitionMessage<'_>)
        requires { local < 16 }
        ensures utc { self.new.utc ≡ self.old.utc }
        ensures empty { self.new.empty ≡ self.old.empty }
        ensures some { IsSome (slice_index_or self.new.slots local None) }
        ensures plans { (definition_for : ℕ → Option AnyDefinition)
            → definition_for local ≡ Some definition.now
            → ArePlansFor definition_for self.old
            → ArePlansFor definition_for self.new }
    {
        if self.slots[usize::from(local)].is_none() {
            self.set(local, definition);
        }
    }

    // Makes the plan of a local number that has this definition. If the rows have no room for it, all other plans are dropped.
    // Not inlined, so no message pays for the room of the definition.
    #[inline(never)]
    fn set(&mut self, local: u8, definition: &DefinitionMessage<'_>)
        requires { local < 16 }
        ensures utc { self.new.utc ≡ self.old.utc }
        ensures empty { self.new.empty ≡ self.old.empty }
        ensures some { IsSome (slice_index_or self.new.slots local None) }
        ensures plans { (definition_for : ℕ → Option AnyDefinition)
            → definition_for local ≡ Some definition.now
            → ArePlansFor definition_for self.old
            → ArePlansFor definition_for self.new }
    {
        let definition = shown_in(definition, self.empty);
        self.make_room(definition.fields.len(), definition.developer.len());
        let plan = Plan::new(
            self.utc,
            &definition,
            &mut self.columns,
            &mut self.developer,
        );
        self.slots[usize::from(local)] = Some(plan);
    }

    // Makes room for so many columns and developer fields. If there is none, all plans are dropped.
    fn make_room(&mut self, columns: usize, developer: usize)
        requires columns { columns ≤ 255 }
        requires developer { developer ≤ 255 }
        ensures utc { self.new.utc ≡ self.old.utc }
        ensures empty { self.new.empty ≡ self.old.empty }
        ensures room { length self.new.columns.items + columns ≤ COLUMNS }
        ensures developer_room { length self.new.developer.items + developer ≤ COLUMNS }
        ensures plans { (definition_for : ℕ → Option AnyDefinition)
            → ArePlansFor definition_for self.old
            → ArePlansFor definition_for self.new }
    {
        if columns > self.columns.remaining_capacity()
            || developer > self.developer.remaining_capacity()
        {
            self.slots = no_plans();
            self.columns.clear();
            self.developer.clear();
        }
    }

    /// The plan of a local number that has one, with its columns and its developer fields.
    #[inline]
    pub fn get(&self, local: u8) -> (&Plan, &[Column], &[DeveloperFieldDefinition])
        requires { (d : AnyDefinition) × IsPlanAt self.now local d }
        ensures plan { slice_index_or self.now.slots local None ≡ Some result.0.now }
        ensures columns { result.1.now
            ≡ slice_range self.now.columns.items result.0.now.first result.0.now.end }
        ensures developer { result.2.now ≡ slice_range self.now.developer.items
            result.0.now.developer_first result.0.now.developer_end }
    {
        match self.slots.get(usize::from(local)) {
            Some(Some(plan)) => (
                plan,
                &self.columns.as_slice()[plan.first..plan.end],
                &self.developer.as_slice()[plan.developer_first..plan.developer_end],
            ),
            _ => unreachable!(),
        }
    }
}

// The definition, with its fields of size 0 if `empty` is set.
fn shown_in(definition: &DefinitionMessage<'_>, empty: bool) -> Definition
    ensures { IsShown empty definition.now result }
{
    let mut shown = definition.read();
    if !empty {
        leave_out_empty(&mut shown.fields, &mut shown.developer);
    }
    shown
}

fn leave_out_empty(
    fields: &mut ArrayVec<FieldDefinition, 255>,
    developer: &mut ArrayVec<DeveloperFieldDefinition, 255>,
)
    ensures fields { fields.new.items ≡ shown false has_size fields.old.items }
    ensures developer { developer.new.items ≡ shown false has_developer_size developer.old.items }
{
    fields.retain(|field| field.size != 0);
    developer.retain(|field| field.size != 0);
}

// No plan for any local number.
fn no_plans() -> [Option<Plan>; 16]
    ensures { (local : ℕ) → slice_index_or result local None ≡ None }
{
    Default::default()
}
