//! What a module imports: functions, by the indices of their types, and memories.

ghost use Rattle.std.specs.Prelude.{◌≡◌, ◌≤◌, length, slice_get};
ghost use Rattle.std.specs.List.{filter_map};
ghost use Rattle.qw_module.specs.Validity.{imported_function, imported_memory, functions_of};

use qw_module::module::{Import, Module};

pub fn imported_functions(imports: &[Import]) -> usize
    ensures count { result ≡ length (filter_map imported_function imports.now) }
    ensures few { result ≤ length imports.now }
{
    let types = imports.iter().filter_map(|import| match import {
        Import::Raise(ty) | Import::Pages(ty) => Some(*ty),
        Import::Memory(_) => None,
    });
    types.count()
}

/// The index of the type of the imported function of an index.
pub fn imported_function(imports: &[Import], index: usize) -> Option<u32>
    ensures { result ≡ slice_get (filter_map imported_function imports.now) index }
{
    let mut before = index;
    for import in imports {
        if let Import::Raise(ty) | Import::Pages(ty) = import {
            if before == 0 {
                return Some(*ty);
            }
            before -= 1;
        }
    }
    None
}

/// The index of the type of the function of an index, imported or of the module's own.
pub fn function_type(module: &Module, index: usize) -> Option<u32>
    ensures { result ≡ slice_get (functions_of «module».now) index }
{
    let imported = imported_functions(&module.imports);
    if index < imported {
        return imported_function(&module.imports, index);
    }
    let function = module.functions.get(index - imported)?;
    Some(function.type_index)
}

pub fn imported_memories(imports: &[Import]) -> usize
    ensures count { result ≡ length (filter_map imported_memory imports.now) }
    ensures few { result ≤ length imports.now }
{
    let memories = imports.iter().filter_map(|import| match import {
        Import::Memory(limits) => Some(*limits),
        Import::Raise(_) | Import::Pages(_) => None,
    });
    memories.count()
}
