// Writes bytes and numbers into a buffer. Each function returns the place after what it wrote.
ghost use Rattle.std.specs.Prelude.{◌+◌, ◌≤◌, length};
ghost use Rattle.list_lines.specs.ListedLines.{ListPut, decimal, figure, max_figure};

// Writes the bytes of s at `at`. A loop, since `copy_from_slice` would make the archive need `memmove`.
pub fn bytes(out: &mut [u8], at: usize, s: &[u8]) -> usize
    requires { at + length s.now ≤ length out.old }
    ensures { ListPut out.old out.new at result s.now (length s.now) }
{
    let end = at + s.len();
    for (i, b) in s.iter().enumerate() {
        out[at + i] = *b;
    }
    end
}

// Writes the digits of a number: at most 10.
pub fn number(out: &mut [u8], at: usize, n: u32) -> usize
    requires { at + 10 ≤ length out.old }
    ensures { ListPut out.old out.new at result (decimal n) 10 }
{
    let mut digits = [0u8; 20];
    let k = io::decimal(n as u64, &mut digits);
    bytes(out, at, &digits[..k])
}

// Writes a number and a byte after it.
pub fn number_and(out: &mut [u8], at: usize, n: u32, after: u8) -> usize
    requires { at + max_figure ≤ length out.old }
    ensures { ListPut out.old out.new at result (figure n after) max_figure }
{
    let end = number(out, at, n);
    out[end] = after;
    end + 1
}
