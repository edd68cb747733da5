// The questions of byte and run.
ghost use Rattle.layout.specs.HeaderFields.{HeaderOf};
ghost use Rattle.query_access.specs.ReadByRuns.{IsRunOfPlace};

use crate::read_by_header;
use crate::read_by_header::LeafRun;
use layout::header::Header;
use layout::place::TextPlace;
use refusals::Refusal;

// The run of a place: questions 10 and 14.
pub fn run_of_place(t: &[u8], h: Header, at: TextPlace) -> Result<LeafRun, Refusal>
    requires { HeaderOf t.now h }
    ensures { IsRunOfPlace t.now at.0 result }
{
    if h.text_length <= at.0 {
        return Err(Refusal::PastTheEnd);
    }
    read_by_header::leaf_run(&t, h, at).ok_or(Refusal::PathBroken)
}
