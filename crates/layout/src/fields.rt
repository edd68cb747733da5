// The fields of the header that a step needs. A step reads them from the tree, so its arguments fit in registers.
ghost use Rattle.std.specs.Prelude.{◌≡◌, ◌≤◌, length};
ghost use Rattle.format.specs.Layout.{header_length};
ghost use Rattle.layout.specs.Shapes.{shape_of};

use crate::{header, word};

#[derive(Clone, Copy)]
pub struct Shape {
    // n, the length of the text.
    pub length: u32,
    // r, the arity.
    pub arity: u32,
    // H, the number of levels.
    pub levels: u32,
    // The offset and the number of the leaf bytes.
    pub leaf_offset: u32,
    pub leaf_count: u32,
}

// The shape of a tree that passes questions 5 to 7.
pub fn shape_of(t: &[u8]) -> Shape
    requires { header_length ≤ length t.now }
    ensures { result ≡ shape_of t.now }
{
    Shape {
        length: word::read(t, header::TEXT_LENGTH_AT),
        arity: word::read(t, header::ARITY_AT),
        levels: word::read(t, header::LEVELS_AT),
        leaf_offset: word::read(t, header::LEAF_OFFSET_AT),
        leaf_count: word::read(t, header::LEAF_COUNT_AT),
    }
}
