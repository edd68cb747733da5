// Guides made and checked: a guide is written for a tree that the check accepts, or compared with the one that would be written.
#![tactic(auto)]

mod guide_checked;
mod guide_written;

ghost use Rattle.std.specs.Prelude.{◌≡◌};
ghost use Rattle.format.specs.Answers.{NeverZero, replied};
ghost use Rattle.query_guide.specs.Guides.{guide_refusal, make_guide_answer, make_guide_buffer, guide_words_reply};
ghost use Rattle.refusals.specs.Refusals.{result_refusal};

use refusals::Refusal;

// Writes the guide of a tree to the start of a table, and returns the number of its words: questions 5 to 9 of the tree, then 25. Refused, the table is
// unchanged.
pub fn make_guide(t: &[u8], table: &mut [u8]) -> Result<u64, Refusal>
    ensures result_value { (replied (guide_words_reply result) ≡ make_guide_answer t.now table.old) × (NeverZero (guide_words_reply result)) }
    ensures table_after { table.new ≡ make_guide_buffer t.now table.old }
{
    tree::check(t)?;
    guide_written::put_guide(t, table)
}

// Questions 5 to 9 of the tree, then 24: accepts the guide of an accepted tree, else refuses with the first that fails.
pub fn check_guide(t: &[u8], guide: &[u8]) -> Result<(), Refusal>
    ensures { result_refusal result ≡ guide_refusal t.now guide.now }
{
    tree::check(t)?;
    if !guide_checked::guide_right(t, guide) {
        return Err(Refusal::GuideWrong);
    }
    Ok(())
}
