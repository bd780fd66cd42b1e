// Numbers out of a case's bytes, the low byte first.
ghost use Rattle.std.specs.Prelude.{◌≡◌, ◌+◌, ◌*◌, ◌%◌, ◌<◌, slice_index};
ghost use Rattle.cells.specs.Cells.{dword_in};

// Where reading stands in the bytes of a case. Past their end there are zeros.
#[derive(Clone, Copy)]
pub struct Reader<'a> {
    pub bytes: &'a [u8],
    pub at: u32,
}

impl<'a> Reader<'a> {
    pub fn byte(&mut self) -> u8
        ensures value { result ≡ slice_index self.old.bytes.now self.old.at }
        ensures range { result < 256 }
        ensures next { self.new.at ≡ (self.old.at + 1) % 4294967296 }
        ensures same { self.new.bytes.now ≡ self.old.bytes.now }
    {
        let x = cells::get(self.bytes, self.at as usize, 0);
        self.at = self.at.wrapping_add(1);
        x
    }

    pub fn number(&mut self) -> u32
        ensures value { result ≡ slice_index self.old.bytes.now self.old.at }
        ensures range { result < 256 }
        ensures next { self.new.at ≡ (self.old.at + 1) % 4294967296 }
        ensures same { self.new.bytes.now ≡ self.old.bytes.now }
    {
        u32::from(self.byte())
    }

    pub fn word(&mut self) -> u32
        ensures value { result ≡ slice_index self.old.bytes.now self.old.at + 256 * slice_index self.old.bytes.now ((self.old.at + 1) % 4294967296) }
        ensures range { result < 65536 }
    {
        let low = self.number();
        low + 256 * self.number()
    }

    pub fn dword(&mut self) -> u32
        ensures { result ≡ dword_in self.old.bytes.now self.old.at }
    {
        let x = cells::dword(self.bytes, self.at);
        self.at = self.at.wrapping_add(4);
        x
    }
}
