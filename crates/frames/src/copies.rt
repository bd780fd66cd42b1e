// A copy of the frames that are not blank.
ghost use Rattle.std.specs.Prelude.{◌≡◌, true, false, ◌||◌, ◌==◌};
ghost use Rattle.machine.specs.Commit.{mark};

// What became of a frame: nothing, marks in the low bytes of its dwords alone, or something else.
// Stays: a frame with marks alone is neither changed nor the same, which is no Option.
#[derive(Clone, Copy, PartialEq, Eq)]
pub enum Change {
    Nothing,
    Marks,
    Other,
}

// The frames of the largest memory that is compared.
const FRAMES: usize = 1024;

// The bytes of a frame.
const SIZE: usize = 4096;

// The frames of a memory as they were: one copy behind another, and for each frame the number of its copy, or none where it was blank. The
// numbers are short, since this is handed on by value and the stack has little room beside the largest memory.
#[derive(Clone, Copy)]
pub struct Copies<'a> {
    room: &'a [u8],
    numbers: [Option<u16>; FRAMES],
}

// What there is of frame f: past the end of memory nothing, which counts as zeros.
fn frame(mem: &[u8], f: u32) -> &[u8] {
    let at = f as usize * SIZE;
    let end = mem.len().min(at + SIZE);
    mem.get(at..end).unwrap_or(&[])
}

// Is b what the marks of an access, or of a write, make of an entry's low byte a?
fn is_marked(a: u8, b: u8) -> bool
    ensures { result ≡ (b == mark false a || b == mark true a) }
{
    (b == a % 32 + 32 + a / 64 * 64) | (b == a % 32 + 96 + a / 128 * 128)
}

impl<'a> Copies<'a> {
    // Copies every frame that is not blank, if there is room for them.
    pub fn remember(mem: &[u8], room: &'a mut [u8]) -> Option<Copies<'a>> {
        let mut numbers = [None; FRAMES];
        let mut used: u16 = 0;
        for f in 0..FRAMES {
            let bytes = frame(mem, f as u32);
            if bytes.iter().any(|b| *b != 0) {
                let at = usize::from(used) * SIZE;
                let copy = room.get_mut(at..at + SIZE)?;
                for (i, b) in copy.iter_mut().enumerate() {
                    *b = cells::get(bytes, i, 0);
                }
                numbers[f] = Some(used);
                used = used.wrapping_add(1);
            }
        }
        Some(Copies { room, numbers })
    }

    // The copy of frame f; of a blank one there is none, which counts as zeros.
    fn copy_of(&self, f: u32) -> &[u8] {
        match cells::get(&self.numbers, f as usize, None) {
            Some(n) => frame(self.room, u32::from(n)),
            None => &[],
        }
    }

    pub fn change_of(&self, mem: &[u8], f: u32) -> Change {
        let before = self.copy_of(f);
        let now = frame(mem, f);
        let mut change = Change::Nothing;
        for i in 0..SIZE {
            let a = cells::get(before, i, 0);
            let b = cells::get(now, i, 0);
            if a != b {
                if (i % 4 != 0) | !is_marked(a, b) {
                    return Change::Other;
                }
                change = Change::Marks;
            }
        }
        change
    }

    // Is frame f as it was?
    pub fn is_same(&self, mem: &[u8], f: u32) -> bool {
        self.change_of(mem, f) == Change::Nothing
    }
}
