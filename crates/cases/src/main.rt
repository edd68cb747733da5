// Runs the cases on standard input: each line is copied, and a question's is followed by ` => ` and the answer, or by what is wrong with
// the line. The lines are those of the cases file of an independent model; the file stdout has that model's answers.
#![tactic(auto)]

mod ask;
mod beside;
mod guide_cases;
mod licence_cases;
mod order_cases;
mod output_cases;
mod wrong;

ghost use Rattle.std.specs.Prelude.{◌≤◌, length};

// Room for the lines.
fn input_room() -> [u8; 262144] {
    [0; 262144]
}

// Room for a text or a tree.
fn bytes_room() -> [u8; 1048640] {
    [0; 1048640]
}

fn main() {
    let mut input = input_room();
    let mut bytes = bytes_room();
    read_and_run(&mut input, &mut bytes);
}

// Reads the lines and answers them.
fn read_and_run(input: &mut [u8], bytes: &mut [u8]) {
    let n = io::read_full(0, input);
    if n == input.len() {
        io::write_all(1, b"the input is too long\n");
        return;
    }
    let mut lent = io::buffer();
    run(&input[..n], bytes, &mut lent);
}

// Answers each line.
fn run(lines: &[u8], bytes: &mut [u8], lent: &mut [u8]) {
    let mut at: usize = 0;
    // A `while`: a line starts where the one before it ends, and `past` finds that place in the body.
    while at < lines.len() {
        answer(lines, at, bytes, lent);
        at = cases_tokens::past(lines, at, 10);
    }
}

// Copies the line that starts at `at`, and answers it.
fn answer(lines: &[u8], at: usize, bytes: &mut [u8], lent: &mut [u8])
    requires { at ≤ length lines.now }
{
    let line = cases_tokens::until(lines, at, 10);
    io::write_all(1, line);
    ask::line(&lines[..at], line, bytes, lent);
    io::write_all(1, b"\n");
}
