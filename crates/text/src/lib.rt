// A text is a list of bytes. The definitions of searching, counting and rows, with their laws, are in specs/.
#![tactic(auto)]

// A place (position) in a text, numbered from 0.
#[derive(Clone, Copy)]
pub struct TextPlace(pub u32);
