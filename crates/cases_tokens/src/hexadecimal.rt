// Bytes in hexadecimal, two digits to a byte; `-` for none.
ghost use Rattle.std.specs.Prelude.{◌≡◌, true, ◌+◌, ◌*◌, ◌/◌, ◌≤◌, ◌<◌, length};
ghost use Rattle.std.proofs.Math.Seq.{paste};
ghost use Rattle.cases_tokens.specs.Hexadecimals.{digit_of, token_byte_at, all_hex, hex_bytes, hex_of, made_size};

// Why a line gives no bytes.
#[derive(Clone, Copy)]
pub enum Fault {
    Name,
    Number,
    Hex,
    Room,
}

// The value of a hexadecimal digit, 16 for any other byte.
fn digit(b: u8) -> u32
    ensures { (result ≡ digit_of b) × (result ≤ 16) }
{
    if b < 48 {
        return 16;
    }
    if b <= 57 {
        return (b - 48) as u32;
    }
    if b < 97 {
        return 16;
    }
    if b <= 102 {
        return (b - 87) as u32;
    }
    16
}

// The byte of digits 2 i and 2 i + 1; 256 or more if one is no digit.
fn byte(word: &[u8], i: usize) -> u32
    requires { 2 * i + 1 < length word.now }
    ensures { result ≡ token_byte_at word.now i }
{
    let high = digit(word[2 * i]);
    let low = digit(word[2 * i + 1]);
    if 15 < low {
        return 256;
    }
    16 * high + low
}

// Whether each pair of characters is a byte in hexadecimal.
fn all_bytes(word: &[u8]) -> bool
    ensures { result ≡ all_hex word.now }
{
    for i in 0..word.len() / 2 {
        if 255 < byte(word, i) {
            return false;
        }
    }
    true
}

// Writes the bytes that the digits represent.
fn put(word: &[u8], out: &mut [u8])
    requires { (all_hex word.now ≡ true) × (length word.now / 2 ≤ length out.old) }
    ensures { out.new ≡ paste out.old 0 (hex_bytes word.now) (length word.now / 2) }
{
    let n = word.len() / 2;
    for (i, b) in out[..n].iter_mut().enumerate() {
        *b = byte(word, i) as u8;
    }
}

// Writes the bytes that a token represents to the start of the buffer, and returns their number.
pub fn hex(word: &[u8], out: &mut [u8]) -> Result<usize, Fault>
    ensures value { result ≡ hex_of word.now (length out.old) }
    ensures out_after { out.new ≡ paste out.old 0 (hex_bytes word.now) (made_size result) }
{
    if check::same(word, b"-") {
        return Ok(0);
    }
    if word.len() % 2 != 0 {
        return Err(Fault::Hex);
    }
    if word.len() == 0 {
        return Err(Fault::Hex);
    }
    if !all_bytes(word) {
        return Err(Fault::Hex);
    }
    if out.len() < word.len() / 2 {
        return Err(Fault::Room);
    }
    put(word, out);
    Ok(word.len() / 2)
}
