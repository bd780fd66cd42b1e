// Lines and words of a text. A word ends at a blank, at the line's end or at a comment.
ghost use Rattle.std.specs.Prelude.{◌≡◌, ◌+◌, ◌%◌, ◌<◌, ◌≤◌, length};

fn is_blank(b: u8) -> bool {
    matches!(b, b' ' | b'\t' | b'\r')
}

fn is_of_word(b: u8) -> bool {
    !is_blank(b) & !matches!(b, b'\n' | b'#')
}

// The first place that is not gone over: the end of the text where there is none.
fn past<F: Fn(u8) -> bool>(s: &[u8], over: F) -> usize
    requires { F.IsAlwaysCallable over }
    ensures { result ≤ length s.now }
{
    s.iter().position(|b| !over(*b)).unwrap_or(s.len())
}

// The next word of a line, and what stands after it. Where the line has no further word, it is empty.
pub fn split_word(line: &[u8]) -> (&[u8], &[u8]) {
    let (_, rest) = line.split_at(past(line, is_blank));
    rest.split_at(past(rest, is_of_word))
}

// The number of the line behind i others, in 32 bits.
pub fn line_number(i: usize) -> u32
    ensures { result ≡ (i + 1) % 4294967296 }
{
    ((i % 4294967296) as u32).wrapping_add(1)
}

// Where the line after the one at `at` begins.
pub fn next_line(s: &[u8], at: usize) -> usize
    requires { at < length s.now }
    ensures { (at < result) × (result ≤ length s.now) }
{
    let end = at + past(&s[at..], |b| b != b'\n');
    if end < s.len() { end + 1 } else { s.len() }
}
