// Prints the parts of an answer.
use refusals::Refusal;

// A refusal.
pub fn number(number: u32) {
    io::write_all(1, b" => ");
    io::print_decimal(1, number as u64);
}

// A figure.
pub fn figure(figure: u64) {
    io::write_all(1, b" ");
    io::print_decimal(1, figure);
}

// The refusal of a call that returns no figure, 0 for none.
pub fn result(answer: Result<(), Refusal>) {
    number(refusals::result_refusal(answer));
}

// The refusal of a call, 0 for none, and its figures, each 0 if it is refused.
pub fn figures<const N: usize>(answer: Result<[u64; N], Refusal>) {
    let shown = match answer {
        Ok(found) => {
            number(0);
            found
        }
        Err(refusal) => {
            number(refusal.number());
            [0; N]
        }
    };
    for value in shown {
        figure(value);
    }
}

// The bytes of a buffer, `-` if it has none.
pub fn held(bytes: &[u8]) {
    io::write_all(1, b" ");
    if bytes.len() == 0 {
        io::write_all(1, b"-");
    }
    hex(bytes);
}

// The words of a table, `-` if it has none.
pub fn table(table: &[u32]) {
    io::write_all(1, b" ");
    if table.len() == 0 {
        io::write_all(1, b"-");
    }
    words(table);
}

// Words in decimal, separated by commas.
fn words(table: &[u32]) {
    for (i, value) in table.iter().enumerate() {
        word(i, *value);
    }
}

// A word, after a comma if it is not the first.
pub fn word(i: usize, value: u32) {
    if 0 < i {
        io::write_all(1, b",");
    }
    io::print_decimal(1, value as u64);
}

// Bytes in hexadecimal.
fn hex(bytes: &[u8]) {
    for byte in bytes {
        io::print_hex(1, u64::from(*byte), 2);
    }
}

// Lines, each newline written as `/`.
pub fn lines(bytes: &[u8]) {
    io::write_all(1, b" => ");
    for byte in bytes {
        slashed(*byte);
    }
}

fn slashed(byte: u8) {
    if byte == 10 {
        io::write_all(1, b"/");
    } else {
        let one = [byte];
        io::write_all(1, &one);
    }
}
