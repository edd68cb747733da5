// What all searches for the next selected row share: where the rows after a mark begin, and what is returned.
#![tactic(auto)]

pub mod rows_after;

// The next row, which is the new mark; or none, with the new mark. A search that is refused leaves the mark unchanged. No `Option`: both have a mark.
#[derive(Clone, Copy)]
pub enum NextRow {
    Row(u32),
    Nothing(u32),
}
