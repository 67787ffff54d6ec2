//! Sections, to the end of the octets (WebAssembly Core Specification 1.0, 5.5.2).

ghost use Rattle.std.specs.Prelude.{◌≡◌};
ghost use Rattle.qw_octet_grammar.specs.Reading.{Gives, read, read_all};
ghost use Rattle.qw_binary.specs.Sections.{Sections, section_by, no_sections, content, section};
ghost use Rattle.qw_binary.specs.Inner.SoFar.{sections_of};

use crate::read::exports::export_vector_at;
use crate::read::functions::code_vector_at;
use crate::read::globals::global_vector_at;
use crate::read::imports::import_vector_at;
use crate::read::types::{func_type_vector_at, memory_vector_at};
use qw_module::module::Module;
use qw_octet_grammar::fault::{BinaryFault, What};
use qw_octet_grammar::names::name_at;
use qw_octet_grammar::numbers::u32_at;
use qw_octet_grammar::vectors::number_vector_at;
use qw_octet_grammar::windows::{behind, behind_all, window};
use std::alloc::Global;

/// What the sections so far hold.
#[derive(Debug, Drop)]
pub struct SoFar {
    /// The id of the last one that isn't custom.
    last: u8,
    /// The indices of the types of the module's own functions.
    pub type_indices: Vec<u32>,
    /// The module as far as it has been read.
    pub module: Module,
}

/// The id, where a section of it may stand behind the last one.
fn section_of(last: u8, id: u8) -> Result<u8, BinaryFault>
    ensures { result ≡ section_by last id }
{
    match id {
        4 => Err(BinaryFault::OutOfProfile { what: What::Table }),
        8 => Err(BinaryFault::OutOfProfile { what: What::Start }),
        9 => Err(BinaryFault::OutOfProfile {
            what: What::Element,
        }),
        11 => Err(BinaryFault::OutOfProfile {
            what: What::DataSection,
        }),
        _ if id > 11 || id <= last => Err(BinaryFault::NotModule),
        _ => Ok(id),
    }
}

/// What is behind a custom section.
#[tactic(auto, unfolding(qw_octet_grammar::specs::Reading::read))]
fn behind_custom(octets: &[u8]) -> Result<&[u8], BinaryFault>
    ensures { (s : Sections) → Gives (λ rest. (s, rest.now)) result (read (section s 0) octets.now) }
{
    let (size, rest) = u32_at(octets)?;
    let _ = name_at(window(rest, size))?;
    behind(rest, size)
}

impl SoFar {
    fn new(alloc: Global) -> SoFar
        ensures { sections_of result ≡ no_sections }
    {
        SoFar {
            last: 0,
            type_indices: Vec::new(alloc),
            module: Module {
                types: Vec::new(alloc),
                imports: Vec::new(alloc),
                functions: Vec::new(alloc),
                memories: Vec::new(alloc),
                globals: Vec::new(alloc),
                exports: Vec::new(alloc),
            },
        }
    }

    /// What a section that isn't custom holds.
    #[tactic(auto, unfolding(qw_octet_grammar::specs::Reading::read))]
    fn content_at<'a>(
        &mut self,
        alloc: Global,
        id: u8,
        octets: &'a [u8],
    ) -> Result<&'a [u8], BinaryFault>
        ensures { Gives (λ rest. (sections_of self.new, rest.now)) result (read (content (sections_of self.old) id) octets.now) }
    {
        self.last = id;
        let rest = match id {
            1 => {
                let (types, rest) = func_type_vector_at(alloc, octets)?;
                self.module.types = types;
                rest
            }
            2 => {
                let (imports, rest) = import_vector_at(alloc, octets)?;
                self.module.imports = imports;
                rest
            }
            3 => {
                let (type_indices, rest) = number_vector_at(alloc, octets)?;
                self.type_indices = type_indices;
                rest
            }
            5 => {
                let (memories, rest) = memory_vector_at(alloc, octets)?;
                self.module.memories = memories;
                rest
            }
            6 => {
                let (globals, rest) = global_vector_at(alloc, octets)?;
                self.module.globals = globals;
                rest
            }
            7 => {
                let (exports, rest) = export_vector_at(alloc, octets)?;
                self.module.exports = exports;
                rest
            }
            10 => {
                let (functions, rest) = code_vector_at(alloc, &self.type_indices, octets)?;
                self.module.functions = functions;
                rest
            }
            _ => return Err(BinaryFault::NotModule),
        };
        Ok(rest)
    }

    /// What stands behind the id of a section.
    #[tactic(auto, unfolding(qw_octet_grammar::specs::Reading::read))]
    fn section_at<'a>(
        &mut self,
        alloc: Global,
        id: u8,
        octets: &'a [u8],
    ) -> Result<&'a [u8], BinaryFault>
        ensures { Gives (λ rest. (sections_of self.new, rest.now)) result (read (section (sections_of self.old) id) octets.now) }
    {
        if id == 0 {
            return behind_custom(octets);
        }
        let id = section_of(self.last, id)?;
        let (size, rest) = u32_at(octets)?;
        let left = self.content_at(alloc, id, window(rest, size))?;
        behind_all(rest, size, left)
    }
}

/// The sections, to the end of the octets; at most so many.
pub fn sections_at(alloc: Global, most: usize, octets: &[u8]) -> Result<SoFar, BinaryFault>
    ensures { Gives sections_of result (read_all section most no_sections octets.now) }
{
    let mut so_far = SoFar::new(alloc);
    let mut rest = octets;
    for _ in 0..most {
        match rest {
            [] => return Ok(so_far),
            [id, after @ ..] => rest = so_far.section_at(alloc, *id, after)?,
        }
    }
    if rest.is_empty() {
        Ok(so_far)
    } else {
        Err(BinaryFault::NotModule)
    }
}
