//! Modules by the sequences of their bodies, whose numbers may be any.

use qw_module::instruction::{Instr, ValType};
use qw_module::module::{Body, FuncType, Function, Global as ModuleGlobal, Import, Module};
use std::alloc::{AllocError, Global};

/// What holds sequence 0, and what holds sequence 1.
pub(crate) const BLOCK0: Instr = Instr::Block {
    result: None,
    body: 0,
};

pub(crate) const BLOCK1: Instr = Instr::Block {
    result: None,
    body: 1,
};

/// A body of these sequences and labels.
fn body(alloc: Global, sequences: &[&[Instr]], labels: &[u32]) -> Result<Body, AllocError> {
    let mut all = Vec::new(alloc);
    for sequence in sequences {
        all.push(sequence.to_vec(alloc)?)?;
    }
    Ok(Body {
        sequences: all,
        labels: labels.to_vec(alloc)?,
    })
}

/// A type that takes and leaves nothing.
fn no_type(alloc: Global) -> Result<Vec<FuncType>, AllocError> {
    Ok(vec![in alloc;
        FuncType {
            params: Vec::new(alloc),
            results: Vec::new(alloc)
        },
    ]?)
}

/// A module with these imports, whose one type takes and leaves nothing.
pub(crate) fn plain_module(alloc: Global, imports: &[Import]) -> Result<Module, AllocError> {
    Ok(Module {
        types: no_type(alloc)?,
        imports: imports.to_vec(alloc)?,
        functions: Vec::new(alloc),
        memories: Vec::new(alloc),
        globals: Vec::new(alloc),
        exports: Vec::new(alloc),
    })
}

/// Adds a function of the type of an index, whose body has these sequences and two labels.
pub(crate) fn add_function(
    alloc: Global,
    module: &mut Module,
    type_index: u32,
    sequences: &[&[Instr]],
) -> Result<(), AllocError> {
    module.functions.push(Function {
        type_index,
        locals: Vec::new(alloc),
        body: body(alloc, sequences, &[0, 0])?,
    })?;
    Ok(())
}

/// Adds a global of type i32, whose expression has these sequences.
pub(crate) fn add_global(
    alloc: Global,
    module: &mut Module,
    sequences: &[&[Instr]],
) -> Result<(), AllocError> {
    module.globals.push(ModuleGlobal {
        ty: ValType::I32,
        mutable: false,
        init: body(alloc, sequences, &[])?,
    })?;
    Ok(())
}
