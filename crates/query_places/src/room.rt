// The size of a table for all places of a pattern, by the length of the pattern.
ghost use Rattle.std.specs.Prelude.{◌≡◌, ◌+◌, ◌-◌, ◌≤◌};
ghost use Rattle.format.specs.Answers.{NeverZero, replied};
ghost use Rattle.query_places.specs.Places.{words_for, places_words_reply};

use refusals::Refusal;

// Question 16; then one word for each place where a pattern of len bytes fits in a text of n bytes.
pub fn of_length(n: u32, len: u32) -> Result<u32, Refusal>
    ensures { (replied (places_words_reply result) ≡ words_for n len) × (NeverZero (places_words_reply result)) }
{
    if len < 1 {
        return Err(Refusal::PatternLengthWrong);
    }
    if crate::MAX_PATTERN < len as usize {
        return Err(Refusal::PatternLengthWrong);
    }
    Ok(most(n, len))
}

// The number of places where a pattern of len bytes fits in a text of n bytes.
pub fn most(n: u32, len: u32) -> u32
    requires { 1 ≤ len }
    ensures { result ≡ n + 1 - len }
{
    if n < len {
        return 0;
    }
    n - (len - 1)
}
