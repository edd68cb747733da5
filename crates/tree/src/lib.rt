// The public calls on whole trees: build and build_scanned write the block tree of a text, check accepts or refuses any bytes as a tree.
#![tactic(auto)]

ghost use Rattle.std.specs.Prelude.{◌≡◌};
ghost use Rattle.format.specs.TreeReading.{check_result};
ghost use Rattle.layout.specs.HeaderFields.{HeaderOf};
ghost use Rattle.refusals.specs.Refusals.{result_refusal};

pub use build_by_scan::{build_scanned, scan_words};
pub use build_by_search::build;
pub use build_size_bound::size_bound;
use check_edges::edges_match;
use layout::header::{self, Header};
use refusals::Refusal;

// Checks any bytes as a tree: accepts it if questions 5 to 9 all pass, else refuses it with the first that fails.
pub fn check(t: &[u8]) -> Result<(), Refusal>
    ensures { result_refusal result ≡ check_result t.now }
{
    let h = header::read_header(t)?;
    check_tables(t, h)
}

// Questions 8 and 9.
fn check_tables(t: &[u8], h: Header) -> Result<(), Refusal>
    requires { HeaderOf t.now h }
    ensures { result_refusal result ≡ check_result t.now }
{
    if !check_links::links_right(t, h) {
        return Err(Refusal::BlocksWrong);
    }
    if !check_counts::counts_right(t, h) {
        return Err(Refusal::CountsWrong);
    }
    if !edges_match::edges_right(t, h) {
        return Err(Refusal::CountsWrong);
    }
    Ok(())
}
