// The memory of a case: what is laid before, what the machine is to leave, whether two memories are the same there. A case's memory is a
// count at byte 41 and then pieces, each an address, a length and the bytes; what is left is a count and then addresses with a byte each.
ghost use Rattle.std.specs.Iterator.{at_most};

use crate::reading::Reader;
use std::iter::Chain;

// All of it.
pub type Memory = [u8; 32768];

const PIECES: u32 = 41;

// A piece of memory: where it lies, how long it is, and where its bytes stand in the case.
#[derive(Clone, Copy)]
struct Piece<'a> {
    to: u32,
    size: u32,
    bytes: Reader<'a>,
}

impl<'a> Piece<'a> {
    fn lay(self, mem: &mut [u8]) {
        let mut bytes = self.bytes;
        for k in 0..self.size {
            cells::put(mem, self.to.wrapping_add(k) as usize, bytes.byte());
        }
    }

    fn clear(self, mem: &mut [u8]) {
        for k in 0..self.size {
            cells::put(mem, self.to.wrapping_add(k) as usize, 0);
        }
    }

    // Are the two memories the same here, and eight bytes to either side?
    fn is_same(self, a: &[u8], b: &[u8]) -> bool {
        let from = self.to.wrapping_sub(8);
        (0..self.size.wrapping_add(16)).all(|k| {
            let i = from.wrapping_add(k) as usize;
            cells::get(a, i, 0) == cells::get(b, i, 0)
        })
    }
}

// The pieces that are laid have a length; each one that is left is a byte.
#[derive(Clone, Copy)]
enum Kind {
    Laid,
    Left,
}

// The pieces that are still to come, and where the next one stands.
#[derive(Clone, Copy)]
struct Pieces<'a> {
    count: u8,
    kind: Kind,
    next: Reader<'a>,
}

impl<'a> Pieces<'a> {
    // A count stands before the pieces.
    fn new(mut at: Reader<'a>, kind: Kind) -> Pieces<'a> {
        let count = at.byte();
        Pieces {
            count,
            kind,
            next: at,
        }
    }

    fn laid(case: &'a [u8]) -> Pieces<'a> {
        Pieces::new(
            Reader {
                bytes: case,
                at: PIECES,
            },
            Kind::Laid,
        )
    }
}

impl<'a> Iterator for Pieces<'a> {
    type Item = Piece<'a>;

    ghost remaining = { λ s. at_most s.count };

    fn next(&mut self) -> Option<Piece<'a>> {
        self.count = self.count.checked_sub(1)?;
        let to = self.next.word();
        let size = match self.kind {
            Kind::Laid => self.next.number(),
            Kind::Left => 1,
        };
        let bytes = self.next;
        self.next.at = bytes.at.wrapping_add(size);
        Some(Piece { to, size, bytes })
    }
}

// Lays the case's memory. Answers where the results begin.
pub fn lay<'a>(mem: &mut [u8], case: &'a [u8]) -> Reader<'a> {
    let mut pieces = Pieces::laid(case);
    for piece in pieces.by_ref() {
        piece.lay(mem);
    }
    pieces.next
}

// All that a case lays, and then all that the machine is to leave.
fn all_pieces<'a>(case: &'a [u8], left: Reader<'a>) -> Chain<Pieces<'a>, Pieces<'a>> {
    Pieces::laid(case).chain(Pieces::new(left, Kind::Left))
}

// Did the machine leave what it was to leave? Both memories are cleared.
pub fn is_left(case: &[u8], left: Reader<'_>, mem: &mut Memory, want: &mut Memory) -> bool {
    for piece in all_pieces(case, left) {
        piece.lay(want);
    }
    let same = all_pieces(case, left).all(|piece| piece.is_same(mem, want));
    for piece in all_pieces(case, left) {
        piece.clear(mem);
        piece.clear(want);
    }
    same
}

// Was all memory clear? It is afterwards.
pub fn swept(mem: &mut Memory) -> bool {
    // No way out before the end, and one pass: a test that can leave at each byte, and a fill after it, took four times as long.
    let mut seen = 0;
    for x in mem.iter_mut() {
        seen |= *x;
        *x = 0;
    }
    seen == 0
}
