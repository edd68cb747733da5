// Find in a tree that passes questions 5 to 7, given its header.
ghost use Rattle.layout.specs.HeaderFields.{HeaderOf};
ghost use Rattle.query_select.specs.Found.{IsFindAnswer};

use crate::seek;
use layout::header::Header;
use layout::place::TextPlace;
use query_counted::CountedByte;
use refusals::Refusal;

// Questions 11, 12 and 14.
pub fn find_at(t: &[u8], h: Header, byte: u8, j: u32) -> Result<(TextPlace, u32), Refusal>
    requires { HeaderOf t.now h }
    ensures { IsFindAnswer t.now byte j result }
{
    let number = query_counted::number_of(t, h.settings.counted, byte);
    if h.settings.counted <= number {
        return Err(Refusal::ByteNotCounted);
    }
    if j == 0 {
        return Err(Refusal::NoSuchOccurrence);
    }
    let all = query_counted::total(t, h, number);
    if all < j as u64 {
        return Err(Refusal::NoSuchOccurrence);
    }
    seek::seek(t, h, CountedByte { byte, number }, j)
}
