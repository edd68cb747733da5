// The symbols of the functions of `abi::compare_exports`.
ghost use Rattle.std.specs.Prelude.{◌≡◌};
ghost use Rattle.query_compare.specs.OrderAnswers.{compare_answer, first_given};

// Compares two trees: the order of the first text (1 before, 2 same, 3 after), the length of the longest common prefix, and which tree comes first (1 or 2; 1
// if the texts are equal).
#[unsafe(no_mangle)]
pub extern "C" fn bt_compare(
    one: &[u8],
    other: &[u8],
    order: &mut u32,
    shared: &mut u32,
    first: &mut u32,
) -> u32
    ensures shared_after { record { number = result; value = order.new; entered = shared.new } ≡ compare_answer one.now other.now }
    ensures first_after { first.new ≡ first_given (compare_answer one.now other.now).value }
{
    abi::compare_exports::bt_compare(one, other, order, shared, first)
}
