// Why a call is refused: the 25 refusals, with their numbers (docs/FORMAT.md, "Questions and refusals") and their words.
#![tactic(auto)]

ghost use Rattle.std.specs.Prelude.{◌≡◌};
ghost use Rattle.refusals.specs.Refusals.{refusal_number, result_refusal};

use std::error::Error;
use std::fmt;

// A refusal, in the order of the numbers, from 1 on.
#[derive(Clone, Copy, Debug, PartialEq, Eq)]
pub enum Refusal {
    TextTooLong,
    SettingsOutOfBounds,
    CountedBytesWrong,
    TreeDoesNotFit,
    TreeTooShort,
    UnknownLayout,
    HeaderWrong,
    BlocksWrong,
    CountsWrong,
    PastTheEnd,
    ByteNotCounted,
    NoSuchOccurrence,
    AnswerDoesNotFit,
    PathBroken,
    TreeTooLongToList,
    PatternLengthWrong,
    PatternTableTooShort,
    ScanTableTooShort,
    CutsWrong,
    WidthDoesNotDivide,
    OutputTooShort,
    NotADate,
    LastBeforeFirst,
    GuideWrong,
    GuideTableTooShort,
}

impl Refusal {
    // The number of a refusal, as C gets it.
    pub fn number(self) -> u32
        ensures { result ≡ refusal_number self }
    {
        match self {
            Refusal::TextTooLong => 1,
            Refusal::SettingsOutOfBounds => 2,
            Refusal::CountedBytesWrong => 3,
            Refusal::TreeDoesNotFit => 4,
            Refusal::TreeTooShort => 5,
            Refusal::UnknownLayout => 6,
            Refusal::HeaderWrong => 7,
            Refusal::BlocksWrong => 8,
            Refusal::CountsWrong => 9,
            Refusal::PastTheEnd => 10,
            Refusal::ByteNotCounted => 11,
            Refusal::NoSuchOccurrence => 12,
            Refusal::AnswerDoesNotFit => 13,
            Refusal::PathBroken => 14,
            Refusal::TreeTooLongToList => 15,
            Refusal::PatternLengthWrong => 16,
            Refusal::PatternTableTooShort => 17,
            Refusal::ScanTableTooShort => 18,
            Refusal::CutsWrong => 19,
            Refusal::WidthDoesNotDivide => 20,
            Refusal::OutputTooShort => 21,
            Refusal::NotADate => 22,
            Refusal::LastBeforeFirst => 23,
            Refusal::GuideWrong => 24,
            Refusal::GuideTableTooShort => 25,
        }
    }
}

impl fmt::Display for Refusal {
    fn fmt<W: fmt::Write>(&self, f: &mut fmt::Formatter<W>) -> fmt::Result {
        f.write_str(match self {
            Refusal::TextTooLong => "a text must have at most 8,388,608 bytes",
            Refusal::SettingsOutOfBounds =>
                "the leaf length must be 1 to 256, the arity 2 to 16, the levels 1 to 8, and leaf x arity^(levels-1) at most 8,388,608",
            Refusal::CountedBytesWrong =>
                "at most 4 bytes can be counted, and each must be above the one before",
            Refusal::TreeDoesNotFit => "the tree does not fit the buffer",
            Refusal::TreeTooShort => "a tree has at least 100 bytes; this is no tree, or cut off",
            Refusal::UnknownLayout =>
                "the layout is neither 1 nor 2; this is no block tree, or one of another version",
            Refusal::HeaderWrong =>
                "the header is not right: its settings, unused places or offsets, or the file is longer or shorter than it says",
            Refusal::BlocksWrong =>
                "the blocks are not right: a start, kind, link or gap, or the number of blocks or leaf bytes",
            Refusal::CountsWrong => "a count or an edge in the tree is wrong",
            Refusal::PastTheEnd => "this is past the end of the text",
            Refusal::ByteNotCounted => "the tree does not count this byte",
            Refusal::NoSuchOccurrence =>
                "the text has no occurrence or row of this number; numbers start at 1",
            Refusal::AnswerDoesNotFit => "the answer does not fit the buffer",
            Refusal::PathBroken =>
                "the tree is damaged: the path to a byte breaks off, or a count is negative",
            Refusal::TreeTooLongToList => "only trees of at most 65,536 bytes are listed",
            Refusal::PatternLengthWrong => "a pattern must have 1 to 256 bytes",
            Refusal::PatternTableTooShort =>
                "the table has fewer words than the pattern has places",
            Refusal::ScanTableTooShort =>
                "the table of words is too short: it needs four words for each leaf length of the text, rounded up",
            Refusal::CutsWrong =>
                "a worn key must have 1 to 10 cuts, each with a low and a high depth of 0 to 9, the low one not above the high one",
            Refusal::WidthDoesNotDivide => "the width must be above 0 and divide the text's length",
            Refusal::OutputTooShort => "the output is shorter than the text",
            Refusal::NotADate =>
                "a day is eight digits, year, month and day, from 20000101 to 20991231, and a renewal does not pass 2099",
            Refusal::LastBeforeFirst => "the last day is before the first",
            Refusal::GuideWrong =>
                "this is no guide of this tree: it has too few or too many words, or an entry is wrong",
            Refusal::GuideTableTooShort => "the table is too short for the guide",
        })
    }
}

impl Error for Refusal {}

// The number of a result's refusal, 0 for none.
pub fn result_refusal(answer: Result<(), Refusal>) -> u32
    ensures { result ≡ result_refusal answer }
{
    match answer {
        Ok(()) => 0,
        Err(refusal) => refusal.number(),
    }
}
