// The record, the replies, and the register file that every write hands back whole.
#![tactic(auto)]

ghost use Rattle.std.specs.Prelude.{◌≡◌, ℕ, ◌+◌, ◌*◌, ◌/◌, ◌%◌, ◌<◌, ◌≤◌, length, get_or, set};
ghost use Rattle.machine.specs.Record.{digit, register, with_register, replaced, byte_register, with_byte, read_at, write_at, flags_in, pack, sound_at, core_of, with_core};
ghost use Rattle.machine.specs.Replies.{is_done, numbered};

use alu::Status;

// What a step, a run or an audit answers. `numbered` in specs/Replies gives each its number.
// Stays: eleven answers with a number each are no Option and no Result.
#[derive(Clone, Copy, PartialEq, Eq)]
pub enum Reply {
    Done,
    Fault(u32, u32, u32),
    Trap(u32, u32),
    Halt(u32),
    BadRecord,
    NoMemory(u32),
    NotBuilt(u32),
    Spent,
    Safe,
    TableOutside(u32),
    Exposed(u32),
}

impl Reply {
    #[tactic(auto, unfolding(crate::specs::Replies::numbered))]
    pub fn number(self) -> u32
        ensures { result ≡ (numbered self).number }
    {
        match self {
            Reply::Done => 0,
            Reply::Fault(_, _, _) => 1,
            Reply::Trap(_, _) => 2,
            Reply::Halt(_) => 3,
            Reply::BadRecord => 4,
            Reply::NoMemory(_) => 5,
            Reply::NotBuilt(_) => 6,
            Reply::Spent => 7,
            Reply::Safe => 8,
            Reply::TableOutside(_) => 9,
            Reply::Exposed(_) => 10,
        }
    }

    // The values that it carries, and zeros after them.
    #[tactic(auto, unfolding(crate::specs::Replies::numbered))]
    pub fn values(self) -> [u32; 3]
        ensures first { get_or result 0 0 ≡ get_or (numbered self).carries 0 0 }
        ensures second { get_or result 1 0 ≡ get_or (numbered self).carries 1 0 }
        ensures third { get_or result 2 0 ≡ get_or (numbered self).carries 2 0 }
    {
        match self {
            Reply::Fault(vector, code, address) => [vector, code, address],
            Reply::Trap(vector, next) => [vector, next, 0],
            Reply::Halt(next) => [next, 0, 0],
            Reply::NoMemory(physical) => [physical, 0, 0],
            Reply::NotBuilt(eip) => [eip, 0, 0],
            Reply::TableOutside(index) => [index, 0, 0],
            Reply::Exposed(page) => [page, 0, 0],
            Reply::Done | Reply::BadRecord | Reply::Spent | Reply::Safe => [0, 0, 0],
        }
    }
}

// EAX ECX EDX EBX ESP EBP ESI EDI.
#[repr(C)]
#[derive(Clone, Copy, PartialEq, Eq)]
pub struct Registers {
    pub e: [u32; 8],
}

// The flags that instructions read and write. IOPL stays where it is, in EFLAGS.
#[derive(Clone, Copy, PartialEq, Eq)]
pub struct Flags {
    pub status: Status,
    pub interrupt: bool,
    pub direction: bool,
}

// All that an instruction can change of the record.
#[derive(Clone, Copy, PartialEq, Eq)]
pub struct Core {
    pub regs: Registers,
    pub eip: u32,
    pub flags: Flags,
}

// What no instruction of the build can change.
#[repr(C)]
#[derive(Clone, Copy, PartialEq, Eq)]
pub struct Control {
    pub cr0: u32,
    pub cr2: u32,
    pub cr3: u32,
    pub ring: u32,
}

// The record: fourteen dwords, in this order for C too.
#[repr(C)]
#[derive(Clone, Copy, PartialEq, Eq)]
pub struct Cpu {
    pub regs: Registers,
    pub eip: u32,
    pub eflags: u32,
    pub control: Control,
}

// An access that an instruction asks for: of a dword (true) or a byte, at a linear address. What is read and written is a Write.
// Stays: an Option of a read or a write would be matched in two steps wherever it is.
#[derive(Clone, Copy, PartialEq, Eq)]
pub enum Want {
    Nothing,
    Read(bool, u32),
    Write(bool, u32),
}

// A dword with one of its two low bytes replaced: the upper of them for codes 4 to 7.
pub fn replaced(old: u32, n: u32, x: u32) -> u32
    ensures { result ≡ replaced old n x }
{
    if n / 4 % 2 == 1 {
        return old / 65536 * 65536 + x % 256 * 256 + old % 256;
    }
    old / 256 * 256 + x % 256
}

impl Registers {
    // A dword register; any number above 7 is none, and 0.
    pub fn read(self, n: u32) -> u32
        ensures { result ≡ register self n }
    {
        self.e.get(n as usize).copied().unwrap_or(0)
    }

    // A byte register: 0 to 3 are the low bytes of EAX to EBX, 4 to 7 the bytes above them.
    pub fn read_byte(self, n: u32) -> u32
        ensures { result ≡ byte_register self n }
    {
        let x = self.read(n % 4);
        if n / 4 % 2 == 1 {
            return x / 256 % 256;
        }
        x % 256
    }

    // The file with one dword register written.
    pub fn with(mut self, n: u32, x: u32) -> Registers
        ensures { result ≡ with_register self n x }
    {
        cells::put(&mut self.e, n as usize, x);
        self
    }

    // The file with one byte register written: the other 24 bits are kept.
    pub fn with_byte(mut self, n: u32, x: u32) -> Registers
        ensures { result ≡ with_byte self n x }
    {
        let x = replaced(self.read(n % 4), n, x);
        cells::put(&mut self.e, (n % 4) as usize, x);
        self
    }

    // A register at a width.
    pub fn read_at(self, wide: bool, n: u32) -> u32
        ensures { result ≡ read_at wide self n }
    {
        if wide {
            return self.read(n);
        }
        self.read_byte(n)
    }

    pub fn write_at(self, wide: bool, n: u32, x: u32) -> Registers
        ensures { result ≡ write_at wide self n x }
    {
        if wide {
            return self.with(n, x);
        }
        self.with_byte(n, x)
    }
}

// The weight of a flag that is set, 0 of one that is clear.
pub fn weighed(c: bool, weight: u32) -> u32
    requires { weight ≤ 2048 }
    ensures { (result ≡ weight * digit c) × (result ≤ weight) }
{
    weight * u32::from(c)
}

// The flags that EFLAGS holds.
impl From<u32> for Flags {
    ghost from_gives = { λ e f. f ≡ flags_in e };

    #[tactic(auto, unfolding(crate::specs::Record::flags_in))]
    fn from(e: u32) -> Flags {
        Flags {
            status: Status {
                cf: e % 2 == 1,
                pf: e / 4 % 2 == 1,
                af: e / 16 % 2 == 1,
                zf: e / 64 % 2 == 1,
                sf: e / 128 % 2 == 1,
                of: e / 2048 % 2 == 1,
            },
            interrupt: e / 512 % 2 == 1,
            direction: e / 1024 % 2 == 1,
        }
    }
}

// EFLAGS with these flags: bit 1 set, IOPL as in e.
pub fn pack(e: u32, f: Flags) -> u32
    ensures { result ≡ pack e f }
{
    let s = f.status;
    let low = 2
        + weighed(s.cf, 1)
        + weighed(s.pf, 4)
        + weighed(s.af, 16)
        + weighed(s.zf, 64)
        + weighed(s.sf, 128);
    low + weighed(f.interrupt, 512)
        + weighed(f.direction, 1024)
        + weighed(s.of, 2048)
        + e / 4096 % 4 * 4096
}

// Is the record sound, with a memory of n bytes?
pub fn sound(n: usize, c: Cpu) -> bool
    ensures { result ≡ sound_at n c }
{
    let k = c.control;
    let e = c.eflags;
    let size = (n % 4096 == 0) & (4096 <= n) & (n <= 16777216);
    let ring = (k.ring == 0) | (k.ring == 3);
    let cr0 = (k.cr0 % 2 == 1)
        & (k.cr0 / 2 % 8 == 0)
        & (k.cr0 / 32 % 2048 == 0)
        & (k.cr0 / 131072 % 16384 == 0);
    let cr3 = (k.cr3 % 8 == 0) & (k.cr3 / 32 % 128 == 0);
    let flags = (e / 2 % 2 == 1)
        & (e / 8 % 2 == 0)
        & (e / 32 % 2 == 0)
        & (e / 256 % 2 == 0)
        & (e < 16384);
    size & ring & cr0 & cr3 & flags
}

// What an instruction works on.
impl From<Cpu> for Core {
    ghost from_gives = { λ c k. k ≡ core_of c };

    fn from(c: Cpu) -> Core {
        Core {
            regs: c.regs,
            eip: c.eip,
            flags: Flags::from(c.eflags),
        }
    }
}

// The record with another core.
pub fn with_core(c: Cpu, k: Core) -> Cpu
    ensures { result ≡ with_core c k }
{
    Cpu {
        regs: k.regs,
        eip: k.eip,
        eflags: pack(c.eflags, k.flags),
        ..c
    }
}

pub fn is_done(q: Reply) -> bool
    ensures { result ≡ is_done q }
{
    matches!(q, Reply::Done)
}
