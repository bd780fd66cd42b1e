// Forms carried out one after another, as a block has them.
#![tactic(auto)]

mod ends;
mod memory;
mod plain;

ghost use Rattle.strides.specs.Strides.{Stands, Here, EndedOk};

use forms::Form;
use hops::{Rest, Swift};
use keptpages::Kept;
use machine::Control;

// One form. All kinds are told apart at one place: a second test of the kind would cost as much as most of them do. Each reads the registers that it
// needs, since what is read before the match is read for all.
pub fn carry_out(
    mem: &mut [u8],
    e: &mut [u32; 8],
    d: &[u64; 32],
    c: Control,
    r: Rest,
    h: Kept,
    f: Form,
) -> Swift
    requires { (Stands mem.old c h d.now r) × (Here mem.old h r f) }
    ensures { EndedOk mem.old e.old c r h d.now f mem.new e.new result }
{
    // Stays: one arm each for 32..=39, 67 | 70 and 72 | 73 takes 5,469,797 host instructions for a pass of the sync guest, these take 4,932,978.
    let kind = f.kind;
    let next = r.eip.wrapping_add(f.length);
    match kind {
        0 => plain::by_register(e, r, f, next, 0),
        1 => plain::by_register(e, r, f, next, 1),
        2 => plain::by_register(e, r, f, next, 2),
        3 => plain::by_register(e, r, f, next, 3),
        4 => plain::by_register(e, r, f, next, 4),
        5 => plain::by_register(e, r, f, next, 5),
        6 => plain::by_register(e, r, f, next, 6),
        7 => plain::by_register(e, r, f, next, 7),
        8 => plain::by_register(e, r, f, next, 8),
        9 => plain::by_register(e, r, f, next, 9),
        16 => plain::by_number(e, r, f, next, 0),
        17 => plain::by_number(e, r, f, next, 1),
        18 => plain::by_number(e, r, f, next, 2),
        19 => plain::by_number(e, r, f, next, 3),
        20 => plain::by_number(e, r, f, next, 4),
        21 => plain::by_number(e, r, f, next, 5),
        22 => plain::by_number(e, r, f, next, 6),
        23 => plain::by_number(e, r, f, next, 7),
        24 => plain::by_number(e, r, f, next, 8),
        25 => plain::by_number(e, r, f, next, 9),
        26 => plain::by_number(e, r, f, next, 10),
        27 => plain::by_number(e, r, f, next, 11),
        28 => plain::by_number(e, r, f, next, 12),
        29 => plain::by_number(e, r, f, next, 13),
        31 => plain::by_number(e, r, f, next, 15),
        32 => memory::combine(mem, e, d, c, r, h, f, next),
        33 => memory::combine(mem, e, d, c, r, h, f, next),
        34 => memory::combine(mem, e, d, c, r, h, f, next),
        35 => memory::combine(mem, e, d, c, r, h, f, next),
        36 => memory::combine(mem, e, d, c, r, h, f, next),
        37 => memory::combine(mem, e, d, c, r, h, f, next),
        38 => memory::combine(mem, e, d, c, r, h, f, next),
        39 => memory::combine(mem, e, d, c, r, h, f, next),
        41 => memory::load(mem, e, d, c, r, h, f, next),
        48 => plain::jump_if(e, r, f, next, 0),
        49 => plain::jump_if(e, r, f, next, 1),
        50 => plain::jump_if(e, r, f, next, 2),
        51 => plain::jump_if(e, r, f, next, 3),
        52 => plain::jump_if(e, r, f, next, 4),
        53 => plain::jump_if(e, r, f, next, 5),
        54 => plain::jump_if(e, r, f, next, 6),
        55 => plain::jump_if(e, r, f, next, 7),
        56 => plain::jump_if(e, r, f, next, 8),
        57 => plain::jump_if(e, r, f, next, 9),
        58 => plain::jump_if(e, r, f, next, 10),
        59 => plain::jump_if(e, r, f, next, 11),
        60 => plain::jump_if(e, r, f, next, 12),
        61 => plain::jump_if(e, r, f, next, 13),
        62 => plain::jump_if(e, r, f, next, 14),
        63 => plain::jump_if(e, r, f, next, 15),
        64 => memory::keep(mem, e, d, c, r, h, f, next),
        65 => memory::push(mem, e, d, c, r, h, f, next, ends::register(e, f.b)),
        66 => memory::push(mem, e, d, c, r, h, f, next, f.number),
        67 => memory::pop(mem, e, d, c, r, h, f, next),
        68 => memory::call(mem, e, d, c, r, h, f, next),
        69 => plain::jump(e, r, f, next),
        70 => memory::pop(mem, e, d, c, r, h, f, next),
        71 => plain::address(e, r, f, next),
        72 => memory::from_byte(mem, e, d, c, r, h, f, next),
        73 => memory::from_byte(mem, e, d, c, r, h, f, next),
        74 => plain::test_bytes(e, r, f, next),
        75 => plain::double(e, r, f, next),
        76 => plain::times(e, r, f, next),
        _ => Swift::stuck(r),
    }
}
