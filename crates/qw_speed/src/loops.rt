//! The modules of the loops: `run` counts a local from 0 up to the number of turns.

use qw_module::instruction::{
    Binary, Const, Instr, Load, MemArg, Op, Relation, Sign, Store, ValType,
};
use qw_module::module::{
    Body, Export, ExportKind, FuncType, Function, Import, Limits, Locals, Module,
};
use std::alloc::{AllocError, Global};

const WHOLE: MemArg = MemArg {
    align: 3,
    offset: 0,
};

fn get(x: u32) -> Instr {
    Instr::Op(Op::LocalGet(x))
}

fn set(x: u32) -> Instr {
    Instr::Op(Op::LocalSet(x))
}

fn tee(x: u32) -> Instr {
    Instr::Op(Op::LocalTee(x))
}

fn i32(value: u32) -> Instr {
    Instr::Op(Op::Const(Const::I32(value)))
}

fn i64(value: u64) -> Instr {
    Instr::Op(Op::Const(Const::I64(value)))
}

fn binary(ty: ValType, operator: Binary) -> Instr {
    Instr::Op(Op::Binary(ty, operator))
}

fn less(ty: ValType) -> Instr {
    Instr::Op(Op::Relation(ty, Relation::Lt(Sign::Unsigned)))
}

/// A function of type `type_index`, whose body has these sequences.
fn function(
    alloc: Global,
    type_index: u32,
    locals: &[Locals],
    sequences: &[&[Instr]],
) -> Result<Function, AllocError> {
    let mut body = Body {
        sequences: Vec::new(alloc),
        labels: Vec::new(alloc),
    };
    for sequence in sequences {
        body.sequences.push(sequence.to_vec(alloc)?)?;
    }
    Ok(Function {
        type_index,
        locals: locals.to_vec(alloc)?,
        body,
    })
}

/// A module of the shape that is executed, whose function of the index `run` is exported as `run`.
fn module(alloc: Global, functions: Vec<Function>, run: u32) -> Result<Module, AllocError> {
    let one_i32 = FuncType {
        params: vec![in alloc; ValType::I32]?,
        results: Vec::new(alloc),
    };
    let next = FuncType {
        params: vec![in alloc; ValType::I64]?,
        results: vec![in alloc; ValType::I64]?,
    };
    let memory = Import::Memory(Limits { min: 1, max: None });
    let export = Export {
        name: String::from_str(alloc, "run")?,
        kind: ExportKind::Function(run),
    };
    Ok(Module {
        types: vec![in alloc; one_i32, next]?,
        imports: vec![in alloc; memory, Import::Raise(0)]?,
        functions,
        memories: Vec::new(alloc),
        globals: Vec::new(alloc),
        exports: vec![in alloc; export]?,
    })
}

/// `run`, which begins a loop of this sequence once.
fn looped(alloc: Global, locals: &[Locals], sequence: &[Instr]) -> Result<Function, AllocError> {
    let begin = [Instr::Loop {
        result: None,
        body: 0,
    }];
    function(alloc, 0, locals, &[sequence, &begin])
}

/// A sum of i64: eleven instructions a turn, and the `loop` that each branch begins again.
fn sums(alloc: Global, turns: u32) -> Result<Module, AllocError> {
    let locals = [Locals {
        count: 2,
        ty: ValType::I64,
    }];
    let add = binary(ValType::I64, Binary::Add);
    let sequence = [
        get(2),
        get(1),
        i64(1),
        add,
        tee(1),
        add,
        set(2),
        get(1),
        i64(u64::from(turns)),
        less(ValType::I64),
        Instr::BrIf(0),
    ];
    module(
        alloc,
        vec![in alloc; looped(alloc, &locals, &sequence)?]?,
        1,
    )
}

/// One is added to one cell of 4,096 after another.
fn cells(alloc: Global, turns: u32) -> Result<Module, AllocError> {
    let locals = [Locals {
        count: 2,
        ty: ValType::I32,
    }];
    let sequence = [
        get(1),
        i32(4095),
        binary(ValType::I32, Binary::And),
        i32(3),
        binary(ValType::I32, Binary::Shl),
        tee(2),
        get(2),
        Instr::Op(Op::Load(Load::Full(ValType::I64), WHOLE)),
        i64(1),
        binary(ValType::I64, Binary::Add),
        Instr::Op(Op::Store(Store::Full(ValType::I64), WHOLE)),
        get(1),
        i32(1),
        binary(ValType::I32, Binary::Add),
        tee(1),
        i32(turns),
        less(ValType::I32),
        Instr::BrIf(0),
    ];
    module(
        alloc,
        vec![in alloc; looped(alloc, &locals, &sequence)?]?,
        1,
    )
}

/// A function that adds one is called in each turn.
fn calls(alloc: Global, turns: u32) -> Result<Module, AllocError> {
    let locals = [Locals {
        count: 1,
        ty: ValType::I64,
    }];
    let next = [get(0), i64(1), binary(ValType::I64, Binary::Add)];
    let sequence = [
        get(1),
        Instr::Call(1),
        tee(1),
        i64(u64::from(turns)),
        less(ValType::I64),
        Instr::BrIf(0),
    ];
    let functions = vec![in alloc;
        function(alloc, 1, &[], &[&next])?,
        looped(alloc, &locals, &sequence)?,
    ]?;
    module(alloc, functions, 2)
}

/// One cell of 4,096 after another is read and tested; none of them isn't 0, so what the test guards is passed by, as in a scan
/// that rejects its rows.
fn choices(alloc: Global, turns: u32) -> Result<Module, AllocError> {
    let locals = [Locals {
        count: 2,
        ty: ValType::I32,
    }];
    let kept = [get(2), i32(1), binary(ValType::I32, Binary::Add), set(2)];
    let turn = [
        get(1),
        i32(4095),
        binary(ValType::I32, Binary::And),
        i32(3),
        binary(ValType::I32, Binary::Shl),
        Instr::Op(Op::Load(Load::Full(ValType::I64), WHOLE)),
        i64(0),
        Instr::Op(Op::Relation(ValType::I64, Relation::Ne)),
        Instr::If {
            result: None,
            then_body: 0,
            else_body: Some(1),
        },
        get(1),
        i32(1),
        binary(ValType::I32, Binary::Add),
        tee(1),
        i32(turns),
        less(ValType::I32),
        Instr::BrIf(0),
    ];
    let begin = [Instr::Loop {
        result: None,
        body: 2,
    }];
    let run = function(alloc, 0, &locals, &[&kept, &[], &turn, &begin])?;
    module(alloc, vec![in alloc; run]?, 1)
}

/// One of two counters is counted up in each turn, by whether the turn's number is odd: the one or the other sequence of an `if` is
/// entered and left.
fn branches(alloc: Global, turns: u32) -> Result<Module, AllocError> {
    let locals = [Locals {
        count: 3,
        ty: ValType::I32,
    }];
    let odd = [get(2), i32(1), binary(ValType::I32, Binary::Add), set(2)];
    let even = [get(3), i32(1), binary(ValType::I32, Binary::Add), set(3)];
    let turn = [
        get(1),
        i32(1),
        binary(ValType::I32, Binary::And),
        Instr::If {
            result: None,
            then_body: 0,
            else_body: Some(1),
        },
        get(1),
        i32(1),
        binary(ValType::I32, Binary::Add),
        tee(1),
        i32(turns),
        less(ValType::I32),
        Instr::BrIf(0),
    ];
    let begin = [Instr::Loop {
        result: None,
        body: 2,
    }];
    let run = function(alloc, 0, &locals, &[&odd, &even, &turn, &begin])?;
    module(alloc, vec![in alloc; run]?, 1)
}

/// The module of the loop of a name with so many turns. `None` where there is none, and for want of memory.
pub(crate) fn module_of(alloc: Global, name: &str, turns: u32) -> Option<Module> {
    match name {
        "sums" => sums(alloc, turns).ok(),
        "cells" => cells(alloc, turns).ok(),
        "calls" => calls(alloc, turns).ok(),
        "choices" => choices(alloc, turns).ok(),
        "branches" => branches(alloc, turns).ok(),
        _ => None,
    }
}
