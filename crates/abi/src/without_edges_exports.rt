// The export of `without_edges`.
ghost use Rattle.std.specs.Prelude.{◌≡◌};
ghost use Rattle.build_without_edges.specs.WithoutEdgesAnswers.{without_edges_refusal, without_edges_size, without_edges_buffer};

use crate::figures::put_u64;
// Writes a tree in layout 1, without its edges; the size is 0 if the call is refused.
pub fn bt_without_edges(tree: &[u8], out: &mut [u8], size: &mut u64) -> u32
    ensures refusal { result ≡ without_edges_refusal tree.now out.old }
    ensures written { size.new ≡ without_edges_size tree.now out.old }
    ensures buffer { out.new ≡ without_edges_buffer tree.now out.old }
{
    let answer = build_without_edges::without_edges(tree, out);
    match answer {
        Ok(n) => put_u64(size, n as u64, 0),
        Err(refusal) => put_u64(size, 0, refusal.number()),
    }
}
