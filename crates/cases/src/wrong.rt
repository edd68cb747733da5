// The output for a wrong line.
use cases_tokens::hexadecimal::Fault;

// Prints what is wrong with a line.
pub fn say(words: &[u8]) {
    io::write_all(1, b" => wrong: ");
    io::write_all(1, words);
}

// Prints why a line gives no bytes.
pub fn fault(fault: Fault) {
    match fault {
        Fault::Name => say(b"no text or tree has this name"),
        Fault::Number => say(b"a number is missing or wrong, or there is more"),
        Fault::Hex => say(b"bytes are missing or not in hexadecimal"),
        Fault::Room => say(b"no room for so many bytes"),
    }
}

// Prints nothing if a line gives bytes.
pub fn made(made: Result<usize, Fault>) {
    if let Err(f) = made {
        fault(f);
    }
}
