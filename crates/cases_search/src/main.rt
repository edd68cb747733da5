// The search on worked texts, on fingerprints that collide, and out of range. Each line is an
// answer; the file stdout has what is expected.
#![tactic(auto)]

use search::Fingerprint;
use text::TextPlace;

// Prints the leftmost occurrence, and whether there is an earlier one.
fn ask(text: &[u8], at: u32, len: u32, base: u32, modulus: u32) {
    io::print_decimal(1, len as u64);
    io::write_all(1, b" bytes at ");
    io::print_decimal(1, at as u64);
    io::write_all(1, b", base ");
    io::print_decimal(1, base as u64);
    io::write_all(1, b", modulus ");
    io::print_decimal(1, modulus as u64);
    say(search::leftmost(text, TextPlace(at), len, Fingerprint::new(base, modulus)));
    say_earlier(search::occurs_earlier(text, TextPlace(at), len, Fingerprint { base, modulus }));
}

fn say(answer: Option<TextPlace>) {
    match answer {
        Some(p) => {
            io::write_all(1, b": leftmost at ");
            io::print_decimal(1, p.0 as u64);
        }
        None => {
            io::write_all(1, b": outside the text");
        }
    }
}

fn say_earlier(earlier: bool) {
    if earlier {
        io::write_all(1, b", occurs earlier\n");
    } else {
        io::write_all(1, b", not earlier\n");
    }
}

// With a common base and modulus, with a modulus for which all windows collide, and with numbers that are not
// usable directly.
fn ask_by_all(text: &[u8], at: u32, len: u32) {
    ask(text, at, len, 257, 2147483647);
    ask(text, at, len, 257, 1);
    ask(text, at, len, 0, 0);
    ask(text, at, len, 4294967295, 4294967295);
    ask(text, at, len, 256, 7);
}

fn book() {
    let text = b"QABCDABCDEFGABCDABCD";
    io::write_all(1, b"QABCDABCDEFGABCDABCD\n");
    ask_by_all(text, 16, 4);
    ask_by_all(text, 12, 4);
    ask_by_all(text, 5, 4);
    ask_by_all(text, 1, 4);
    ask_by_all(text, 12, 8);
    ask_by_all(text, 0, 20);
    ask_by_all(text, 19, 1);
}

fn edges() {
    let text = b"QABCDABCDEFGABCDABCD";
    io::write_all(1, b"no bytes, and past the end\n");
    ask_by_all(text, 0, 0);
    ask_by_all(text, 20, 0);
    ask_by_all(text, 21, 0);
    ask_by_all(text, 17, 4);
    ask_by_all(text, 4294967295, 1);
    ask_by_all(text, 1, 4294967295);
    ask_by_all(text, 4294967295, 4294967295);
    ask_by_all(b"", 0, 0);
    ask_by_all(b"", 0, 1);
}

fn repeated() {
    let text = [b'A'; 64];
    io::write_all(1, b"64 letters A\n");
    ask_by_all(&text, 32, 32);
    ask_by_all(&text, 63, 1);
    ask_by_all(&text, 0, 64);
    ask_by_all(&text, 1, 64);
}

fn main() {
    book();
    edges();
    repeated();
}
