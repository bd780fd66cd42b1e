// Elements of a slice by their number, whatever the number: past the end there is a value of the caller's, as zero, and nothing is stored
// there.
#![tactic(auto)]

ghost use Rattle.std.specs.Prelude.{◌≡◌, ◌<◌, get_or, set};
ghost use Rattle.cells.specs.Cells.{dword_in, with_dword, copied};

pub fn get<T: Copy>(xs: &[T], i: usize, otherwise: T) -> T
    ensures { result ≡ get_or xs.now i otherwise }
{
    xs.get(i).copied().unwrap_or(otherwise)
}

pub fn put<T: Copy>(xs: &mut [T], i: usize, x: T)
    ensures { xs.new ≡ set xs.old i x }
{
    // Stays: `get_mut` promises nothing of the slice after the call, and this function does.
    if i < xs.len() {
        xs[i] = x;
    }
}

// The dword at a place: its low byte first.
pub fn dword(b: &[u8], at: u32) -> u32
    ensures { result ≡ dword_in b.now at }
{
    let i = at as usize;
    u32::from_le_bytes([
        get(b, i, 0),
        get(b, i + 1, 0),
        get(b, i + 2, 0),
        get(b, i + 3, 0),
    ])
}

pub fn put_dword(b: &mut [u8], at: u32, x: u32)
    ensures { b.new ≡ with_dword b.old at x }
{
    let i = at as usize;
    let [b0, b1, b2, b3] = x.to_le_bytes();
    put(b, i, b0);
    put(b, i + 1, b1);
    put(b, i + 2, b2);
    put(b, i + 3, b3);
}

// n bytes of one slice, from place a on, to place b on of another.
// Stays: as two slices it would have to refuse, or say nothing of, what lies past an end, where zeros are read and nothing is stored.
pub fn copy(from: &[u8], a: u32, to: &mut [u8], b: u32, n: u32)
    ensures { to.new ≡ copied from.now a to.old b n }
{
    for k in 0..n {
        let x = get(from, a as usize + k as usize, 0);
        put(to, b as usize + k as usize, x);
    }
}
