// The public calls that read a tree. Any bytes may be given as a tree; no call has a `requires`. The theorems about them are in the crate `theorems`.
#![tactic(auto)]

pub use build_guide::{check_guide, make_guide};
pub use build_without_edges::without_edges;
pub use layout::place::TextPlace;
pub use query_access::read_by_header::TreeRange;
pub use query_access::{byte, run, run_range, span};
pub use query_columns::row_by_columns;
pub use query_compare::{compare, first};
pub use query_digest::digest;
pub use query_guide::guide_words;
pub use query_guided::find_guided;
pub use query_info::{FIGURES, info, version};
pub use query_key_match::{Mark, advance_mark, next_match};
pub use query_places::{places, places_words};
pub use query_prefix::{next_with_prefix, next_with_prefix_guided};
pub use query_rank::count;
pub use query_rank::uncounted::uncounted;
pub use query_row_filter::NextRow;
pub use query_rows::{row, row_count, row_guided, row_length};
pub use query_select::find;
pub use refusals::Refusal;
