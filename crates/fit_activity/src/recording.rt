// What may be recorded.

pub(crate) mod entry;
pub(crate) mod refusal;
pub(crate) mod rules;
pub(crate) mod start;
pub(crate) mod table;
