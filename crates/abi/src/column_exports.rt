// The calls on columns, exported to C.
ghost use Rattle.std.specs.Prelude.{◌≡◌, length};
ghost use Rattle.columns.specs.Columns.{columns_refusal, columns_buffer, uncolumns_buffer};
ghost use Rattle.query_columns.specs.ColumnRows.{row_by_columns_refusal, row_by_columns_buffer};

// Rearranges a text of rows of `width` bytes, end byte included, by columns.
pub fn bt_to_columns(text: &[u8], width: u32, out: &mut [u8]) -> u32
    ensures value { result ≡ columns_refusal width text.now out.old }
    ensures out_after { out.new ≡ columns_buffer width text.now out.old }
{
    refusals::result_refusal(columns::to_columns(text, width, out))
}

// Rearranges a text by columns back to rows.
pub fn bt_from_columns(text: &[u8], width: u32, out: &mut [u8]) -> u32
    ensures value { result ≡ columns_refusal width text.now out.old }
    ensures out_after { out.new ≡ uncolumns_buffer width text.now out.old }
{
    refusals::result_refusal(columns::from_columns(text, width, out))
}

// Copies row a, from 0, of the original text from the tree of a text by columns.
pub fn bt_row_by_columns(tree: &[u8], width: u32, a: u32, buffer: &mut [u8]) -> u32
    ensures value { result ≡ row_by_columns_refusal tree.now width a (length buffer.old) }
    ensures buffer_after { buffer.new ≡ row_by_columns_buffer tree.now width a buffer.old }
{
    let copied = query_columns::row_by_columns(tree, width, a, buffer);
    match copied {
        Ok(_) => 0,
        Err(refusal) => refusal.number(),
    }
}
