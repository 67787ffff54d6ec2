use crate::instruction::{Instr, ValType};

/// The type of a function (WebAssembly Core Specification 1.0, 2.3.3).
#[derive(Debug, Drop)]
pub struct FuncType {
    /// The types of the parameters, the first one first. They are the function's first locals.
    pub params: Vec<ValType>,
    /// The types of the results; a valid module's functions have at most one.
    pub results: Vec<ValType>,
}

/// The least number of pages, and the greatest where there is one (2.3.4).
#[derive(Clone, Copy, Debug, PartialEq, Eq)]
pub struct Limits {
    /// The least number of pages.
    pub min: u32,
    /// The greatest number of pages, where it is declared.
    pub max: Option<u32>,
}

/// An import (2.5.11). Only these names are in the profile.
#[derive(Clone, Copy, Debug, PartialEq, Eq)]
pub enum Import {
    /// `q` `memory`, with its limits.
    Memory(Limits),
    /// `q` `raise`, with the index of its type.
    Raise(u32),
    /// `q` `pages`, with the index of its type.
    Pages(u32),
}

/// The code of a function, or of a global's first value, as sequences by number. A block names its inner sequences by lower numbers, so
/// the last sequence is the outermost, and no sequence is reached from itself. Who reads a body from left to right gives a
/// sequence its number where its end is read.
#[derive(Debug, Drop)]
pub struct Body {
    /// The sequences, each at its number.
    pub sequences: Vec<Vec<Instr>>,
    /// The labels of the body's `br_table`s, of which each names a range.
    pub labels: Vec<u32>,
}

/// So many locals of one type (5.4.6). A few octets of a module may announce 2^32 - 1 of them.
#[derive(Clone, Copy, Debug, PartialEq, Eq)]
pub struct Locals {
    /// How many there are.
    pub count: u32,
    /// Their type.
    pub ty: ValType,
}

/// A function of the module's own (2.5.3).
#[derive(Debug, Drop)]
pub struct Function {
    /// The index of its type.
    pub type_index: u32,
    /// Its locals after its parameters, in order.
    pub locals: Vec<Locals>,
    /// Its code.
    pub body: Body,
}

/// A global (2.5.6).
#[derive(Debug, Drop)]
pub struct Global {
    /// The type of its value.
    pub ty: ValType,
    /// Whether it may be set.
    pub mutable: bool,
    /// The expression of the value that it begins with; a valid module's is one constant.
    pub init: Body,
}

/// What is exported, by its index (2.5.10).
#[derive(Clone, Copy, Debug, PartialEq, Eq)]
pub enum ExportKind {
    Function(u32),
    Memory(u32),
    Global(u32),
}

/// An export (2.5.10).
#[derive(Debug, Drop)]
pub struct Export {
    /// The name that it is exported by; a valid module's exports have different names.
    pub name: String,
    /// What is exported.
    pub kind: ExportKind,
}

/// A module (2.5). The index of a function counts the imported ones first.
#[derive(Debug, Drop)]
pub struct Module {
    /// The types of functions, which the others name by their indices.
    pub types: Vec<FuncType>,
    /// What is imported, in order.
    pub imports: Vec<Import>,
    /// The functions of its own, in order.
    pub functions: Vec<Function>,
    /// The memories of its own; a valid module has at most one, imported or of its own.
    pub memories: Vec<Limits>,
    /// The globals, in order.
    pub globals: Vec<Global>,
    /// What is exported.
    pub exports: Vec<Export>,
}
