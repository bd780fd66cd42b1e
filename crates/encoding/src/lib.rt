// What an opcode is: the table of 512 classes, and the uniform Instruction that decoding makes.
#![tactic(auto)]

mod opcodes;

ghost use Rattle.std.specs.Prelude.{◌≡◌, cond, ◌<◌};
ghost use Rattle.encoding.specs.Encodings.{class_at, class_of, Classed};
ghost use Rattle.encoding.specs.Attributes.{has_modrm, has_offset, undefined_form, unbuilt_form, by_low_bit, is_wide, full_immediate, long_opcode, has_immediate, immediate_bytes, immediate_of, implied_register, combination, single, is_to, is_from, is_immediate, is_combined, is_single, group_family, own_family, family_of, operation_of};

// The kind of an opcode; specs/Encodings lists which opcodes have which.
#[derive(Clone, Copy, PartialEq, Eq)]
pub enum Class {
    // not listed
    NotBuilt,
    // 26 2E 36 3E 64 65, without effect
    Override,
    // 0F: the opcode is the next byte
    Escape,
    // 0F 0B
    Undefined,
    // ADD to CMP on an r/m operand by a register
    ArithmeticTo,
    // ADD to CMP on a register by an r/m operand
    ArithmeticFrom,
    // ADD to CMP on the accumulator by an immediate
    ArithmeticAccumulator,
    // 80 to 83: ADD to CMP on an r/m operand by an immediate
    ArithmeticGroup,
    // TEST 84 85
    TestTo,
    // TEST A8 A9
    TestAccumulator,
    // F6 F7: TEST NOT NEG MUL IMUL DIV IDIV, by the reg field
    UnaryGroup,
    // MOV 88 89
    MoveTo,
    // MOV 8A 8B
    MoveFrom,
    // MOV A0 A1, from an address in the instruction
    MoveFromOffset,
    // MOV A2 A3
    MoveToOffset,
    // MOV B0 to BF
    MoveRegister,
    // MOV C6 C7
    MoveGroup,
    // MOVZX 0F B6
    ExtendZero,
    // MOVSX 0F BE
    ExtendSign,
    // LEA
    LoadAddress,
    // XCHG 86 87
    Exchange,
    // XCHG 90 to 97
    ExchangeAccumulator,
    // INC 40 to 47
    IncrementRegister,
    // DEC 48 to 4F
    DecrementRegister,
    // FE: INC DEC
    ByteGroup,
    // FF: INC DEC CALL JMP PUSH
    DwordGroup,
    // PUSH 50 to 57
    PushRegister,
    // PUSH 68 6A
    PushImmediate,
    // POP 58 to 5F
    PopRegister,
    // POP 8F
    PopGroup,
    // C0 C1: SHL SHR SAR by an immediate
    ShiftImmediate,
    // D0 D1: SHL SHR SAR by one place
    ShiftOne,
    // D2 D3: SHL SHR SAR by CL
    ShiftCl,
    // IMUL 69 6B
    MultiplyImmediate,
    // IMUL 0F AF
    MultiplyRegister,
    // CWDE 98, CDQ 99
    Widen,
    // Jcc 70 to 7F
    JumpIf,
    // Jcc 0F 80 to 8F
    JumpIfNear,
    // SETcc 0F 90 to 9F
    SetIf,
    // JMP EB E9
    JumpBy,
    // CALL E8
    CallBy,
    // RET C3
    ReturnPlain,
    // RET C2
    ReturnPopping,
    // LOOP forms E0 to E2, and E3
    LoopBy,
    // CMC F5, CLC STC CLI STI CLD STD F8 to FD
    FlagOperation,
    // SAHF 9E, LAHF 9F
    FlagTransfer,
    // INT3 CC
    Breakpoint,
    // INT CD
    Interrupt,
    // HLT F4
    HaltHere,
}

// The class with this number in the table.
// Stays: the table holds no other number (src/opcodes), so that the Err of a TryFrom would never come.
fn numbered(n: u8) -> Class
    requires { n < 49 }
    ensures { result ≡ class_at n }
{
    match n {
        0 => Class::NotBuilt,
        1 => Class::Override,
        2 => Class::Escape,
        3 => Class::Undefined,
        4 => Class::ArithmeticTo,
        5 => Class::ArithmeticFrom,
        6 => Class::ArithmeticAccumulator,
        7 => Class::ArithmeticGroup,
        8 => Class::TestTo,
        9 => Class::TestAccumulator,
        10 => Class::UnaryGroup,
        11 => Class::MoveTo,
        12 => Class::MoveFrom,
        13 => Class::MoveFromOffset,
        14 => Class::MoveToOffset,
        15 => Class::MoveRegister,
        16 => Class::MoveGroup,
        17 => Class::ExtendZero,
        18 => Class::ExtendSign,
        19 => Class::LoadAddress,
        20 => Class::Exchange,
        21 => Class::ExchangeAccumulator,
        22 => Class::IncrementRegister,
        23 => Class::DecrementRegister,
        24 => Class::ByteGroup,
        25 => Class::DwordGroup,
        26 => Class::PushRegister,
        27 => Class::PushImmediate,
        28 => Class::PopRegister,
        29 => Class::PopGroup,
        30 => Class::ShiftImmediate,
        31 => Class::ShiftOne,
        32 => Class::ShiftCl,
        33 => Class::MultiplyImmediate,
        34 => Class::MultiplyRegister,
        35 => Class::Widen,
        36 => Class::JumpIf,
        37 => Class::JumpIfNear,
        38 => Class::SetIf,
        39 => Class::JumpBy,
        40 => Class::CallBy,
        41 => Class::ReturnPlain,
        42 => Class::ReturnPopping,
        43 => Class::LoopBy,
        44 => Class::FlagOperation,
        45 => Class::FlagTransfer,
        46 => Class::Breakpoint,
        47 => Class::Interrupt,
        48 => Class::HaltHere,
        _ => unreachable!(),
    }
}

// An r/m operand: a register, or memory at base plus index times scale plus displacement, where base or index 8 is none.
#[derive(Clone, Copy)]
pub struct Operand {
    pub direct: bool,
    pub register: u32,
    pub base: u32,
    pub index: u32,
    pub scale: u32,
    pub displacement: u32,
}

// What an instruction does, once decoded: its family. `operand` is the r/m operand, `register` the other one.
#[derive(Clone, Copy, PartialEq, Eq)]
pub enum Family {
    // two operands combined: on the operand by the register
    CombineTo,
    // on the register by the operand
    CombineFrom,
    // on the operand by the immediate
    CombineImmediate,
    // INC DEC NOT NEG of the operand
    Unary,
    // the operand shifted by the immediate
    ShiftBy,
    // the operand shifted by CL
    ShiftByCl,
    // MUL IMUL DIV IDIV of the accumulator by the operand
    Accumulate,
    // the register becomes operand times immediate
    MultiplyBy,
    // the register becomes register times operand
    MultiplyInto,
    // the register becomes the byte operand, extended
    Extend,
    // the register becomes the operand's address
    AddressOf,
    // operand and register exchanged
    Swap,
    // the operand pushed
    Push,
    // the immediate pushed
    PushNumber,
    // popped to the operand
    Pop,
    // the byte operand becomes 1 or 0 by a condition
    SetOn,
    // a jump by the immediate, on a condition
    JumpOn,
    // a jump by the immediate
    Jump,
    // a jump to the operand
    JumpTo,
    // a call by the immediate
    Call,
    // a call to the operand
    CallTo,
    // a return that pops as many bytes as the immediate says
    Return,
    // the LOOP forms and JECXZ
    Loop,
    // one flag changed
    Flag,
    // SAHF, LAHF
    Transfer,
    // CWDE, CDQ
    Convert,
    // INT
    Trap,
    // HLT
    Halt,
}

#[derive(Clone, Copy)]
pub struct Instruction {
    pub family: Family,
    pub operation: u32,
    pub wide: bool,
    pub register: u32,
    pub operand: Operand,
    pub immediate: u32,
    pub length: u32,
}

// The table of an opcode's class by its number, as the list has it.
#[derive(Drop)]
pub struct Classes {
    numbers: [u8; 512],
    ghost classed: { Classed numbers },
}

impl Classes {
    pub fn new() -> Classes {
        Classes {
            numbers: opcodes::CLASSES,
        }
    }

    pub fn at(&self, n: u32) -> Class
        requires { n < 512 }
        ensures { result ≡ class_of n }
    {
        numbered(self.numbers[n as usize])
    }
}

pub fn has_modrm(c: Class) -> bool
    ensures { result ≡ has_modrm c }
{
    matches!(
        c,
        Class::ArithmeticTo
            | Class::ArithmeticFrom
            | Class::ArithmeticGroup
            | Class::TestTo
            | Class::UnaryGroup
            | Class::MoveTo
            | Class::MoveFrom
            | Class::MoveGroup
            | Class::ExtendZero
            | Class::ExtendSign
            | Class::LoadAddress
            | Class::Exchange
            | Class::ByteGroup
            | Class::DwordGroup
            | Class::PopGroup
            | Class::ShiftImmediate
            | Class::ShiftOne
            | Class::ShiftCl
            | Class::MultiplyImmediate
            | Class::MultiplyRegister
            | Class::SetIf
    )
}

pub fn has_offset(c: Class) -> bool
    ensures { result ≡ has_offset c }
{
    matches!(c, Class::MoveFromOffset | Class::MoveToOffset)
}

// Fault 6 by name, which the ModRM byte m settles.
pub fn undefined_form(c: Class, m: u32) -> bool
    ensures { result ≡ undefined_form c m }
{
    let reg = m / 8 % 8;
    match c {
        Class::LoadAddress => 192 <= m,
        Class::MoveGroup | Class::PopGroup => !(reg == 0),
        Class::ByteGroup => 2 <= reg,
        Class::DwordGroup => reg == 7,
        _ => false,
    }
}

// The forms of a group that are not listed.
pub fn unbuilt_form(c: Class, m: u32) -> bool
    ensures { result ≡ unbuilt_form c m }
{
    let reg = m / 8 % 8;
    match c {
        Class::UnaryGroup => reg == 1,
        Class::DwordGroup => (reg == 3) | (reg == 5),
        Class::ShiftImmediate | Class::ShiftOne | Class::ShiftCl => (reg < 4) | (reg == 6),
        _ => false,
    }
}

fn by_low_bit(c: Class) -> bool
    ensures { result ≡ by_low_bit c }
{
    matches!(
        c,
        Class::ArithmeticTo
            | Class::ArithmeticFrom
            | Class::ArithmeticAccumulator
            | Class::ArithmeticGroup
            | Class::TestTo
            | Class::TestAccumulator
            | Class::UnaryGroup
            | Class::MoveTo
            | Class::MoveFrom
            | Class::MoveFromOffset
            | Class::MoveToOffset
            | Class::MoveGroup
            | Class::Exchange
            | Class::ByteGroup
            | Class::DwordGroup
            | Class::ShiftImmediate
            | Class::ShiftOne
            | Class::ShiftCl
    )
}

pub fn is_wide(c: Class, b: u32) -> bool
    ensures { result ≡ is_wide c b }
{
    if by_low_bit(c) {
        return b % 2 == 1;
    }
    match c {
        Class::MoveRegister => b / 8 % 2 == 1,
        Class::ExtendZero | Class::ExtendSign | Class::SetIf => false,
        _ => true,
    }
}

fn full_immediate(c: Class, reg: u32) -> bool
    ensures { result ≡ full_immediate c reg }
{
    match c {
        Class::ArithmeticAccumulator
        | Class::TestAccumulator
        | Class::MoveRegister
        | Class::MoveGroup => true,
        Class::UnaryGroup => reg == 0,
        _ => false,
    }
}

fn long_opcode(b: u32) -> bool
    ensures { result ≡ long_opcode b }
{
    (b == 0x81) | (b == 0x68) | (b == 0x69) | (b == 0xe9) | (b == 0xe8) | (0x180 <= b)
}

fn has_immediate(c: Class) -> bool
    ensures { result ≡ has_immediate c }
{
    matches!(
        c,
        Class::ArithmeticGroup
            | Class::PushImmediate
            | Class::ShiftImmediate
            | Class::MultiplyImmediate
            | Class::JumpIf
            | Class::JumpIfNear
            | Class::JumpBy
            | Class::CallBy
            | Class::LoopBy
            | Class::Interrupt
    )
}

// Stays: one function for this and arithmetic's `upper` would take the two numbers, and say less than the `if`.
fn four_or_one(four: bool) -> u32
    ensures { result ≡ cond four 4 1 }
{
    if four { 4 } else { 1 }
}

pub fn immediate_bytes(c: Class, b: u32, reg: u32) -> u32
    ensures { result ≡ immediate_bytes c b reg }
{
    if full_immediate(c, reg) {
        return four_or_one(is_wide(c, b));
    }
    if has_immediate(c) {
        return four_or_one(long_opcode(b));
    }
    match c {
        Class::ReturnPopping => 2,
        _ => 0,
    }
}

pub fn immediate_of(c: Class, x: u32) -> u32
    ensures { result ≡ immediate_of c x }
{
    match c {
        Class::Breakpoint => 3,
        Class::ShiftOne => 1,
        _ => x,
    }
}

pub fn implied_register(c: Class, b: u32) -> u32
    ensures { result ≡ implied_register c b }
{
    match c {
        Class::MoveRegister
        | Class::ExchangeAccumulator
        | Class::IncrementRegister
        | Class::DecrementRegister
        | Class::PushRegister
        | Class::PopRegister => b % 8,
        _ => 0,
    }
}

fn combination(c: Class, b: u32, reg: u32) -> u32
    ensures { result ≡ combination c b reg }
{
    match c {
        Class::ArithmeticTo | Class::ArithmeticFrom | Class::ArithmeticAccumulator => b / 8 % 8,
        Class::ArithmeticGroup => reg,
        Class::TestTo | Class::TestAccumulator | Class::UnaryGroup => 8,
        _ => 9,
    }
}

fn single(c: Class, reg: u32) -> u32
    ensures { result ≡ single c reg }
{
    match c {
        Class::IncrementRegister => 0,
        Class::DecrementRegister => 1,
        _ => reg,
    }
}

fn is_to(c: Class) -> bool
    ensures { result ≡ is_to c }
{
    matches!(
        c,
        Class::ArithmeticTo | Class::TestTo | Class::MoveTo | Class::MoveToOffset
    )
}

fn is_from(c: Class) -> bool
    ensures { result ≡ is_from c }
{
    matches!(
        c,
        Class::ArithmeticFrom | Class::MoveFrom | Class::MoveFromOffset
    )
}

fn is_immediate(c: Class, reg: u32) -> bool
    ensures { result ≡ is_immediate c reg }
{
    match c {
        Class::ArithmeticGroup => true,
        _ => full_immediate(c, reg),
    }
}

fn is_combined(c: Class, reg: u32) -> bool
    ensures { result ≡ is_combined c reg }
{
    is_to(c) | is_from(c) | is_immediate(c, reg)
}

fn is_single(c: Class, reg: u32) -> bool
    ensures { result ≡ is_single c reg }
{
    match c {
        Class::UnaryGroup => reg < 4,
        Class::IncrementRegister | Class::DecrementRegister => true,
        Class::ByteGroup | Class::DwordGroup => reg < 2,
        _ => false,
    }
}

// Stays: the numbers are the reg field's, /2, /4 and /6 in the manual.
fn group_family(reg: u32) -> Family
    ensures { result ≡ group_family reg }
{
    match reg {
        2 => Family::CallTo,
        4 => Family::JumpTo,
        _ => Family::Push,
    }
}

// Of a class that is neither combined nor single.
fn own_family(c: Class, reg: u32) -> Family
    ensures { result ≡ own_family c reg }
{
    match c {
        Class::DwordGroup => group_family(reg),
        Class::UnaryGroup => Family::Accumulate,
        Class::ShiftImmediate | Class::ShiftOne => Family::ShiftBy,
        Class::ShiftCl => Family::ShiftByCl,
        Class::MultiplyImmediate => Family::MultiplyBy,
        Class::MultiplyRegister => Family::MultiplyInto,
        Class::ExtendZero | Class::ExtendSign => Family::Extend,
        Class::LoadAddress => Family::AddressOf,
        Class::Exchange | Class::ExchangeAccumulator => Family::Swap,
        Class::PushRegister => Family::Push,
        Class::PushImmediate => Family::PushNumber,
        Class::PopRegister | Class::PopGroup => Family::Pop,
        Class::SetIf => Family::SetOn,
        Class::JumpIf | Class::JumpIfNear => Family::JumpOn,
        Class::JumpBy => Family::Jump,
        Class::CallBy => Family::Call,
        Class::ReturnPlain | Class::ReturnPopping => Family::Return,
        Class::LoopBy => Family::Loop,
        Class::FlagOperation => Family::Flag,
        Class::FlagTransfer => Family::Transfer,
        Class::Widen => Family::Convert,
        Class::Breakpoint | Class::Interrupt => Family::Trap,
        _ => Family::Halt,
    }
}

#[tactic(auto, unfolding(crate::specs::Attributes::family_of))]
pub fn family_of(c: Class, reg: u32) -> Family
    ensures { result ≡ family_of c reg }
{
    if is_to(c) {
        return Family::CombineTo;
    }
    if is_from(c) {
        return Family::CombineFrom;
    }
    if is_immediate(c, reg) {
        return Family::CombineImmediate;
    }
    if is_single(c, reg) {
        return Family::Unary;
    }
    own_family(c, reg)
}

#[tactic(auto, unfolding(crate::specs::Attributes::operation_of))]
pub fn operation_of(c: Class, b: u32, reg: u32) -> u32
    ensures { result ≡ operation_of c b reg }
{
    if is_combined(c, reg) {
        return combination(c, b, reg);
    }
    if is_single(c, reg) {
        return single(c, reg);
    }
    match c {
        Class::UnaryGroup | Class::ShiftImmediate | Class::ShiftOne | Class::ShiftCl => reg,
        Class::ExtendSign => 1,
        Class::ExtendZero => 0,
        _ => b % 16,
    }
}
