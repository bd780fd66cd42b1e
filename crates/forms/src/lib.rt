// The common encodings in a form that their bytes alone decide, so that they are read once and kept. Whatever is not here is no form.
#![tactic(auto)]

ghost use Rattle.std.specs.Prelude.{◌≡◌, ◌≢◌, true, List, ℕ, ◌+◌, ◌/◌, ◌%◌, ◌<◌, ◌≤◌, length, IfSome, Some};
ghost use Rattle.machine.specs.Record.{at, wrap};
ghost use Rattle.encoding.specs.declared.Class.TheVariants.{ArithmeticGroup, LoadAddress};
ghost use Rattle.encoding.specs.Encodings.{class_of};
ghost use Rattle.shortcut.specs.Forms.{combines_to, combines_from, operation_of, spot_of, up_to};
ghost use Rattle.forms.specs.Forms.{reg, ReadOk};

use encoding::{Class, Classes};

// The kind says what it is (specs/Forms, `meant`); the instruction has `length` bytes; a and b are registers; then an immediate, a displacement or
// the distance of a jump.
// Stays: the kind is a number, since the table keeps a form in one, and an enum made of it would have as many arms again as `carry_out`.
#[derive(Clone, Copy)]
pub struct Form {
    pub kind: u32,
    pub length: u32,
    pub a: u32,
    pub b: u32,
    pub number: u32,
}

// A memory operand that is a register and a number beside it: the number, and how many bytes the instruction has up to its immediate.
#[derive(Clone, Copy)]
struct Near {
    upto: u32,
    number: u32,
}

fn beside(mem: &[u8], i: usize, m: u32) -> Option<Near>
    requires { (i + 16 ≤ length mem.now) × (m < 192) }
    ensures { IfSome result (λ q. (q.upto ≤ 6) × (((e : List ℕ) → reg e 8 ≡ 0 → wrap (reg e (m % 8) + q.number) ≡ spot_of mem.now e i m) × (q.upto ≡ up_to mem.now i m))) }
{
    let n = m % 8;
    if n == 4 {
        return None;
    }
    if m / 64 == 1 {
        return Some(Near {
            upto: 3,
            number: fetch::extend(shortcut::bytes::byte(mem, i + 2)),
        });
    }
    if m / 64 == 2 {
        return Some(Near {
            upto: 6,
            number: shortcut::bytes::dword(mem, i + 2),
        });
    }
    if n == 5 {
        return None;
    }
    Some(Near { upto: 2, number: 0 })
}

// The operand by a register.
fn to_operand(mem: &[u8], i: usize, c: Class, op: u32, b: u32, m: u32) -> Option<Form>
    requires { (i + 16 ≤ length mem.now) × ((b ≡ at mem.now i) × ((m ≡ at mem.now (i + 1)) × ((m < 256) × ((c ≡ class_of b) × ((op ≡ operation_of c b) × (combines_to c ≡ true)))))) }
    ensures { IfSome result (λ f. ReadOk mem.now i f) }
{
    if 192 <= m {
        if b % 2 == 1 {
            return Some(Form {
                kind: op,
                length: 2,
                a: m % 8,
                b: m / 8 % 8,
                number: 0,
            });
        }
        if op == 8 {
            return Some(Form {
                kind: 74,
                length: 2,
                a: m % 8,
                b: m / 8 % 8,
                number: 0,
            });
        }
        return None;
    }
    if (op != 9) | (b % 2 == 0) {
        return None;
    }
    let q = beside(mem, i, m)?;
    Some(Form {
        kind: 64,
        length: q.upto,
        a: m / 8 % 8,
        b: m % 8,
        number: q.number,
    })
}

// A register by the operand.
fn from_operand(mem: &[u8], i: usize, c: Class, op: u32, b: u32, m: u32) -> Option<Form>
    requires { (i + 16 ≤ length mem.now) × ((b ≡ at mem.now i) × ((m ≡ at mem.now (i + 1)) × ((m < 256) × ((c ≡ class_of b) × ((op ≡ operation_of c b) × (combines_from c ≡ true)))))) }
    ensures { IfSome result (λ f. ReadOk mem.now i f) }
{
    let wide = b % 2 == 1;
    if 192 <= m {
        if !wide {
            return None;
        }
        return Some(Form {
            kind: op,
            length: 2,
            a: m / 8 % 8,
            b: m % 8,
            number: 0,
        });
    }
    let q = beside(mem, i, m)?;
    if wide {
        return Some(Form {
            kind: 32 + op,
            length: q.upto,
            a: m / 8 % 8,
            b: m % 8,
            number: q.number,
        });
    }
    if op == 7 {
        return Some(Form {
            kind: 72,
            length: q.upto,
            a: m / 8 % 8,
            b: m % 8,
            number: q.number,
        });
    }
    if op == 9 {
        return Some(Form {
            kind: 73,
            length: q.upto,
            a: m / 8 % 8,
            b: m % 8,
            number: q.number,
        });
    }
    None
}

// A register by an immediate, 81 and 83.
fn by_number(mem: &[u8], i: usize, b: u32, m: u32) -> Option<Form>
    requires { (i + 16 ≤ length mem.now) × ((b ≡ at mem.now i) × ((m ≡ at mem.now (i + 1)) × ((m < 256) × ((b < 256) × (class_of b ≡ ArithmeticGroup))))) }
    ensures { IfSome result (λ f. ReadOk mem.now i f) }
{
    if (m < 192) | (b % 2 == 0) {
        return None;
    }
    if b == 0x83 {
        return Some(Form {
            kind: 16 + m / 8 % 8,
            length: 3,
            a: m % 8,
            b: 0,
            number: fetch::extend(shortcut::bytes::byte(mem, i + 2)),
        });
    }
    Some(Form {
        kind: 16 + m / 8 % 8,
        length: 6,
        a: m % 8,
        b: 0,
        number: shortcut::bytes::dword(mem, i + 2),
    })
}

// LEA.
fn address_of(mem: &[u8], i: usize, b: u32, m: u32) -> Option<Form>
    requires { (i + 16 ≤ length mem.now) × ((b ≡ at mem.now i) × ((m ≡ at mem.now (i + 1)) × ((m < 256) × (class_of b ≡ LoadAddress)))) }
    ensures { IfSome result (λ f. ReadOk mem.now i f) }
{
    if 192 <= m {
        return None;
    }
    let q = beside(mem, i, m)?;
    Some(Form {
        kind: 71,
        length: q.upto,
        a: m / 8 % 8,
        b: m % 8,
        number: q.number,
    })
}

// SHL, SHR and SAR of a register by an immediate or by one, IMUL of a register by an immediate of four bytes, MUL by a register.
fn on_register(mem: &[u8], i: usize, b: u32, m: u32) -> Option<Form>
    requires { (i + 16 ≤ length mem.now) × ((b ≡ at mem.now i) × ((m ≡ at mem.now (i + 1)) × ((192 ≤ m) × (m < 256)))) }
    ensures { IfSome result (λ f. ReadOk mem.now i f) }
{
    let g = m / 8 % 8;
    let shifts = (4 <= g) & (g != 6);
    if (b == 0xc1) & shifts {
        return Some(Form {
            kind: 24 + g,
            length: 3,
            a: m % 8,
            b: 0,
            number: fetch::extend(shortcut::bytes::byte(mem, i + 2)),
        });
    }
    if (b == 0xd1) & shifts {
        return Some(Form {
            kind: 24 + g,
            length: 2,
            a: m % 8,
            b: 0,
            number: 1,
        });
    }
    if b == 0x69 {
        return Some(Form {
            kind: 76,
            length: 6,
            a: g,
            b: m % 8,
            number: shortcut::bytes::dword(mem, i + 2),
        });
    }
    if (b == 0xf7) & (g == 4) {
        return Some(Form {
            kind: 75,
            length: 2,
            a: 0,
            b: m % 8,
            number: 0,
        });
    }
    None
}

// A form with no operand but what stands here.
fn with_number(kind: u32, length: u32, a: u32, b: u32, number: u32) -> Option<Form>
    ensures { result ≡ Some (record { kind = kind; length = length; a = a; b = b; number = number }) }
{
    Some(Form {
        kind,
        length,
        a,
        b,
        number,
    })
}

// Pushes of a number, jumps and calls, by their opcodes.
// Stays: these are opcodes, as the manual writes them.
fn by_opcode(mem: &[u8], i: usize, b: u32, m: u32) -> Option<Form>
    requires { (i + 16 ≤ length mem.now) × ((b ≡ at mem.now i) × ((m ≡ at mem.now (i + 1)) × (m < 256))) }
    ensures { IfSome result (λ f. ReadOk mem.now i f) }
{
    match b {
        0x68 => with_number(66, 5, 0, 0, shortcut::bytes::dword(mem, i + 1)),
        0x6a => with_number(66, 2, 0, 0, fetch::extend(m)),
        0xe8 => with_number(68, 5, 0, 0, shortcut::bytes::dword(mem, i + 1)),
        0xe9 => with_number(69, 5, 0, 0, shortcut::bytes::dword(mem, i + 1)),
        0xeb => with_number(69, 2, 0, 0, fetch::extend(m)),
        _ => {
            if 192 <= m {
                return on_register(mem, i, b, m);
            }
            None
        }
    }
}

// Opcodes without ModRM, by their class. Those of bytes are no forms.
fn plain(mem: &[u8], i: usize, c: Class, b: u32, m: u32) -> Option<Form>
    requires { (i + 16 ≤ length mem.now) × ((b ≡ at mem.now i) × ((m ≡ at mem.now (i + 1)) × ((m < 256) × ((b < 256) × (c ≡ class_of b))))) }
    ensures { IfSome result (λ f. ReadOk mem.now i f) }
{
    match c {
        Class::ArithmeticAccumulator => {
            if b % 2 == 0 {
                return None;
            }
            with_number(16 + b / 8 % 8, 5, 0, 0, shortcut::bytes::dword(mem, i + 1))
        }
        Class::TestAccumulator => {
            if b % 2 == 0 {
                return None;
            }
            with_number(24, 5, 0, 0, shortcut::bytes::dword(mem, i + 1))
        }
        Class::MoveRegister => {
            if b / 8 % 2 == 0 {
                return None;
            }
            with_number(25, 5, b % 8, 0, shortcut::bytes::dword(mem, i + 1))
        }
        Class::IncrementRegister => with_number(26, 1, b % 8, 0, 0),
        Class::DecrementRegister => with_number(27, 1, b % 8, 0, 0),
        Class::PushRegister => with_number(65, 1, 0, b % 8, 0),
        Class::PopRegister => with_number(67, 1, b % 8, 0, 0),
        Class::JumpIf => with_number(48 + b % 16, 2, 0, 0, fetch::extend(m)),
        Class::ReturnPlain => with_number(70, 1, 0, 0, 0),
        _ => by_opcode(mem, i, b, m),
    }
}

// The form of the instruction at index i of memory, where sixteen bytes are there.
pub fn read(mem: &[u8], t: &Classes, i: usize) -> Option<Form>
    requires { i + 16 ≤ length mem.now }
    ensures { IfSome result (λ f. ReadOk mem.now i f) }
{
    let b = shortcut::bytes::byte(mem, i);
    let m = shortcut::bytes::byte(mem, i + 1);
    let c = t.at(b);
    match c {
        Class::ArithmeticTo | Class::TestTo | Class::MoveTo => {
            to_operand(mem, i, c, shortcut::operation(c, b), b, m)
        }
        Class::ArithmeticFrom | Class::MoveFrom => {
            from_operand(mem, i, c, shortcut::operation(c, b), b, m)
        }
        Class::ArithmeticGroup => by_number(mem, i, b, m),
        Class::LoadAddress => address_of(mem, i, b, m),
        _ => plain(mem, i, c, b, m),
    }
}
