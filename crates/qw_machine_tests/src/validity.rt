//! Modules on both sides of validity (WebAssembly Core Specification 1.0, 3.3.7, 3.4.1 and 3.4.4) by the numbers of their sequences, and one with two
//! memories imported: no octets spell most of them.

use crate::modules::{BLOCK0, BLOCK1, add_function, add_global, plain_module};
use qw_module::instruction::{Const, Instr, Op};
use qw_module::module::{Import, Limits, Module};
use qw_valid::valid::{Part, ValidFault, validate};
use std::alloc::Global;
use std::test::Fail;

/// Fails where another part of a module is refused, or none.
fn check(alloc: Global, module: Module, part: Option<Part>) -> Result<(), Fail> {
    let fault = validate(alloc, module).err();
    if fault == part.map(ValidFault::Part) {
        return Ok(());
    }
    Err(Fail::new(format_args!("{fault:?} in place of {part:?}")))
}

const MEMORY: Import = Import::Memory(Limits {
    min: 65_536,
    max: None,
});

/// A module has one memory (3.4.10).
#[test]
fn two_memories(rt: HostRuntime) -> Result<(), Fail> {
    let module = plain_module(rt.alloc(), &[MEMORY, MEMORY])?;
    check(rt.alloc(), module, Some(Part::Memory))
}

const ONE: Instr = Instr::Op(Op::Const(Const::I32(1)));

const NOP: Instr = Instr::Op(Op::Nop);

const DROP: Instr = Instr::Op(Op::Drop);

const LOOP2: Instr = Instr::Loop {
    result: None,
    body: 2,
};

const IF01: Instr = Instr::If {
    result: None,
    then_body: 0,
    else_body: Some(1),
};

const IF21: Instr = Instr::If {
    result: None,
    then_body: 2,
    else_body: Some(1),
};

const IF02: Instr = Instr::If {
    result: None,
    then_body: 0,
    else_body: Some(2),
};
// Two labels stand in each body.
const BOTH_LABELS: Instr = Instr::BrTable {
    first: 0,
    count: 2,
    default: 0,
};

const NO_LABELS: Instr = Instr::BrTable {
    first: 2,
    count: 0,
    default: 0,
};

const A_LABEL_TOO_MANY: Instr = Instr::BrTable {
    first: 1,
    count: 2,
    default: 0,
};

const LABELS_PAST_ALL: Instr = Instr::BrTable {
    first: usize::MAX,
    count: 2,
    default: 0,
};

/// The index of a function's type, and the sequences of its body.
const BODIES: [(u32, &[&[Instr]], Option<Part>); 13] = [
    (0, &[&[]], None),
    (1, &[&[]], Some(Part::Functions)),
    (0, &[], Some(Part::Functions)),
    (0, &[&[], &[BLOCK0]], None),
    (0, &[&[], &[BLOCK1]], Some(Part::Functions)),
    (0, &[&[], &[LOOP2], &[]], Some(Part::Functions)),
    (0, &[&[], &[], &[ONE, IF01]], None),
    (0, &[&[], &[], &[ONE, IF21]], Some(Part::Functions)),
    (0, &[&[], &[], &[ONE, IF02]], Some(Part::Functions)),
    (0, &[&[ONE, BOTH_LABELS]], None),
    (0, &[&[ONE, NO_LABELS]], None),
    (0, &[&[ONE, A_LABEL_TOO_MANY]], Some(Part::Functions)),
    (0, &[&[ONE, LABELS_PAST_ALL]], Some(Part::Functions)),
];

/// Each function has a type (3.4.1), and each block of its body an inner sequence of a lower number.
#[test]
fn functions(rt: HostRuntime) -> Result<(), Fail> {
    for &(type_index, sequences, part) in &BODIES {
        let mut module = plain_module(rt.alloc(), &[])?;
        add_function(rt.alloc(), &mut module, type_index, sequences)?;
        check(rt.alloc(), module, part)?;
    }
    Ok(())
}

/// The sequences of the expression of a global of type i32, and the part that is refused.
const INITIAL: [(&[&[Instr]], Option<Part>); 7] = [
    (&[&[ONE]], None),
    (&[&[DROP], &[ONE]], None),
    (&[&[]], Some(Part::Globals)),
    (&[], Some(Part::Globals)),
    (&[&[ONE, NOP]], Some(Part::Globals)),
    (&[&[NOP, ONE]], Some(Part::Globals)),
    (&[&[BLOCK1], &[ONE]], Some(Part::Globals)),
];

/// The expression of a global is numbered, and its code is one constant (3.3.7, 3.4.4).
#[test]
fn initial_expressions(rt: HostRuntime) -> Result<(), Fail> {
    for &(sequences, part) in &INITIAL {
        let mut module = plain_module(rt.alloc(), &[])?;
        add_global(rt.alloc(), &mut module, sequences)?;
        check(rt.alloc(), module, part)?;
    }
    Ok(())
}
