// Reads and writes the bytes of a tree in place: words, settings, the header, the fields of a record.
#![tactic(auto)]

pub mod cut;
pub mod fields;
pub mod header;
pub mod place;
pub mod record;
pub mod settings;
pub mod word;
