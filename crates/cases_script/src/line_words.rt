// The word that a line begins with.
ghost use Rattle.std.specs.Prelude.{◌≡◌, ◌≤◌};
ghost use Rattle.cases_script.specs.LineWords.{word_number, input_number, input_kind, question_of, is_comment};

// How a line gives bytes a name.
#[derive(Clone, Copy)]
pub enum InputKind {
    Nothing,
    Text,
    Repeat,
    Tree,
    Pad,
}

// The question of a line.
#[derive(Clone, Copy)]
pub enum Question {
    Nothing,
    Build,
    Check,
    List,
    Byte,
    Count,
    Find,
    Span,
    Run,
    Row,
    Places,
    Scan,
    Match,
    Prefix,
}

// The way of giving bytes for each of the words `text repeat tree pad`, in this order; none after the last.
const INPUT_KINDS: [InputKind; 5] = [
    InputKind::Text,
    InputKind::Repeat,
    InputKind::Tree,
    InputKind::Pad,
    InputKind::Nothing,
];

// The question for each word, in the order of `question_of`; none after the last.
const QUESTIONS: [Question; 14] = [
    Question::Build,
    Question::Check,
    Question::List,
    Question::Byte,
    Question::Count,
    Question::Find,
    Question::Span,
    Question::Run,
    Question::Row,
    Question::Places,
    Question::Scan,
    Question::Match,
    Question::Prefix,
    Question::Nothing,
];

// The index of a word among the first n words of a line of words; n if it is none of them.
fn number(words: &[u8], n: u32, word: &[u8]) -> u32
    ensures value { result ≡ word_number words.now n word.now }
    ensures upper_bound { result ≤ n }
{
    for k in 0..n {
        if check::same(word, cases_tokens::token(words, k)) {
            return k;
        }
    }
    n
}

// The index of the word by which a line names bytes; 4 if it names none.
pub fn input_number(line: &[u8]) -> u32
    ensures value { result ≡ input_number line.now }
    ensures upper_bound { result ≤ 4 }
{
    number(b"text repeat tree pad", 4, cases_tokens::token(line, 0))
}

// How a line gives bytes a name.
pub fn input_kind(line: &[u8]) -> InputKind
    ensures { result ≡ input_kind line.now }
{
    let k = input_number(line);
    INPUT_KINDS[k as usize]
}

// The question of a line.
pub fn question_of(line: &[u8]) -> Question
    ensures { result ≡ question_of line.now }
{
    let k = number(
        b"build check list byte count find span run row places scan match prefix",
        13,
        cases_tokens::token(line, 0),
    );
    QUESTIONS[k as usize]
}

// Whether a line is empty or begins with `#`.
pub fn is_comment(line: &[u8]) -> bool
    ensures { result ≡ is_comment line.now }
{
    if line.len() == 0 {
        return true;
    }
    line[0] == 35
}
