// The symbols of the functions of `abi::without_edges_exports`.
ghost use Rattle.std.specs.Prelude.{◌≡◌};
ghost use Rattle.build_without_edges.specs.WithoutEdgesAnswers.{without_edges_refusal, without_edges_size, without_edges_buffer};

// Writes a tree in layout 1, without its edges; the size is 0 if the call is refused.
#[unsafe(no_mangle)]
pub extern "C" fn bt_without_edges(tree: &[u8], out: &mut [u8], size: &mut u64) -> u32
    ensures refusal { result ≡ without_edges_refusal tree.now out.old }
    ensures written { size.new ≡ without_edges_size tree.now out.old }
    ensures buffer { out.new ≡ without_edges_buffer tree.now out.old }
{
    abi::without_edges_exports::bt_without_edges(tree, out, size)
}
