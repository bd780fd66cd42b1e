// A table of blocks: the forms of up to twenty-three instructions that follow one another, kept with the bytes that they were read from: thirty-two, or
// sixty-four where a form asks for more. Thirty-two numbers for each block: eight with the bytes, how many forms there are, and the forms.
#![tactic(auto)]

ghost use Rattle.std.specs.Prelude.{◌≡◌, true, cond, ◌+◌, ◌%◌, ◌<◌, ◌≤◌, ℕ, List, length, get_or, replicate, leb};
ghost use Rattle.forms.specs.Forms.{Small};
ghost use Rattle.blocks.specs.Blocks.{Digits, unpacked, size_in, form_in, Written, Keyed, BlockOk, Known, last};

use encoding::Classes;
use forms::Form;
use std::marker::Model;

// The eight bytes at i in one number.
fn word(mem: &[u8], i: usize) -> u64
    requires { i + 7 < length mem.now }
    ensures { Digits mem.now i result }
{
    u64::from_le_bytes([
        mem[i],
        mem[i + 1],
        mem[i + 2],
        mem[i + 3],
        mem[i + 4],
        mem[i + 5],
        mem[i + 6],
        mem[i + 7],
    ])
}

fn pack(f: Form) -> u64
    requires { Small f }
    ensures { unpacked result ≡ f }
{
    f.kind as u64
        + 256 * f.length as u64
        + 65536 * f.a as u64
        + 16777216 * f.b as u64
        + 4294967296 * f.number as u64
}

// A form of the table.
fn unpack(k: u64) -> Form
    ensures { result ≡ unpacked k }
{
    Form {
        kind: (k % 128) as u32,
        length: (k / 256 % 16) as u32,
        a: (k / 65536 % 8) as u32,
        b: (k / 16777216 % 8) as u32,
        number: (k / 4294967296) as u32,
    }
}

// Are the thirty-two bytes at i those of the four numbers at place s?
fn four(mem: &[u8], g: &[u64; 4096], s: usize, i: usize) -> bool
    requires { (i + 32 ≤ length mem.now) × (s + 4 ≤ 4096) }
    ensures { result ≡ true → Written mem.now i g.now s 4 }
{
    (0..4).all(|k| g[s + k] == word(mem, i + 8 * k))
}

// Does memory have the block's bytes at i?
fn same(mem: &[u8], g: &[u64; 4096], s: usize, i: usize) -> bool
    requires { (i + 64 ≤ length mem.now) × (s + 32 ≤ 4096) }
    ensures { result ≡ true → Keyed mem.now i g.now s }
{
    if !four(mem, g, s, i) {
        return false;
    }
    if g[s + 8] < 32 {
        return true;
    }
    four(mem, g, s + 4, i + 32)
}

// How many forms there are once the one at off is the j-th, 32 more where it asks for bytes beyond the first thirty-two.
fn count(j: usize, off: usize) -> u64
    requires { j < 23 }
    ensures { result ≡ cond (leb off 16) (j + 1) (j + 33) }
{
    if off <= 16 {
        return j as u64 + 1;
    }
    j as u64 + 33
}

// Does a block end with this form? JMP, CALL, RET, and a condition that jumps backwards: what follows a loop is a block of its own, so that the loop's
// is short.
fn is_last(f: Form) -> bool
    ensures { result ≡ last f }
{
    if (48 <= f.kind) & (f.kind <= 63) {
        return 0x8000_0000 <= f.number;
    }
    (68 <= f.kind) & (f.kind <= 70)
}

// The table: every block of it is one.
#[derive(Drop)]
pub struct Blocks {
    numbers: [u64; 4096],
}

impl Model for Blocks {
    ghost Value = { List ℕ };

    ghost view = { λ b. b.numbers };

    ghost invariant = { λ b. Known b.numbers };
}

impl Blocks {
    // No block has a form yet.
    pub fn new() -> Blocks
        ensures { result ≡ replicate 4096 0 }
    {
        Blocks { numbers: [0; 4096] }
    }

    // How many forms the block at place s has.
    pub fn size(&self, s: usize) -> u32
        requires { (s + 32 ≤ 4096) × (s % 32 ≡ 0) }
        ensures { (result ≡ size_in self.now s) × (BlockOk self.now s) }
    {
        (self.numbers[s + 8] % 32) as u32
    }

    // The j-th form of the block at place s.
    pub fn form(&self, s: usize, j: usize) -> Form
        requires { s + 9 + j < 4096 }
        ensures { result ≡ form_in self.now s j }
    {
        unpack(self.numbers[s + 9 + j])
    }

    // A block without forms, with the bytes at i.
    fn begin(&mut self, mem: &[u8], s: usize, i: usize)
        requires { (i + 64 ≤ length mem.now) × ((s + 32 ≤ 4096) × (s % 32 ≡ 0)) }
        ensures { (Written mem.now i self.new s 8) × (get_or self.new (s + 8) 0 ≡ 0) }
    {
        self.numbers[s + 8] = 0;
        for k in 0..8 {
            self.numbers[s + k] = word(mem, i + 8 * k);
        }
    }

    // Reads the block at i anew, up to its last form or what is no form.
    fn build(&mut self, mem: &[u8], t: &Classes, s: usize, i: usize)
        requires { (i + 64 ≤ length mem.now) × ((s + 32 ≤ 4096) × (s % 32 ≡ 0)) }
        ensures { Keyed mem.now i self.new s }
    {
        self.begin(mem, s, i);
        let mut off: usize = 0;
        for j in 0..23 {
            if 48 < off {
                return;
            }
            let Some(f) = forms::read(mem, t, i + off) else {
                return;
            };
            self.numbers[s + 9 + j] = pack(f);
            self.numbers[s + 8] = count(j, off);
            off += f.length as usize;
            if is_last(f) {
                return;
            }
        }
    }

    // The place of the block that begins at EIP; its bytes are at i.
    pub fn find(&mut self, mem: &[u8], t: &Classes, eip: u32, i: usize) -> usize
        requires { i + 64 ≤ length mem.now }
        ensures { (result + 32 ≤ 4096) × ((result % 32 ≡ 0) × (Keyed mem.now i self.new result)) }
    {
        let s = (eip % 128) as usize * 32;
        if same(mem, &self.numbers, s, i) {
            return s;
        }
        self.build(mem, t, s, i);
        s
    }
}
