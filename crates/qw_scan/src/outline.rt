//! Where in a module's octets its sections begin: the octets are read from the first to the last with nothing kept of them, so that what is
//! in them is known to be there, and how much of it (WebAssembly Core Specification 1.0, 5.5).

ghost use Rattle.std.specs.Prelude.{◌≡◌, ℕ, ◌==◌, List, take, drop, length, IfOk, IfErr, OnOk};
ghost use Rattle.qw_octet_grammar.specs.Reading.{Gives, read, read_all};
ghost use Rattle.qw_binary.specs.Sections.{equal, Sections, no_sections, section, section_by};
ghost use Rattle.qw_binary.specs.Modules.{header, SpellsModule, IsFirstStuck};
ghost use Rattle.qw_binary.specs.Inner.Decoding.{module_in};
ghost use Rattle.qw_scan.specs.Inner.Outlines.{noted, indices_in, sections_in, contents_in, IsOutline, IsSuffix};

use crate::over::behind_content;
use crate::types::from;
use qw_octet_grammar::fault::{BinaryFault, What};
use qw_octet_grammar::names::name_at;
use qw_octet_grammar::numbers::u32_at;
use qw_octet_grammar::windows::{behind, behind_all, window};
use std::alloc::Global;

/// What the sections so far hold, by how many octets of the module stand before the vector of each; `None` where there is no such section.
#[derive(Clone, Copy)]
pub(crate) struct Outline {
    /// The id of the last one that isn't custom.
    pub(crate) last: u8,
    pub(crate) types: Option<usize>,
    pub(crate) imports: Option<usize>,
    /// The indices of the types of the module's own functions.
    pub(crate) indices: Option<usize>,
    pub(crate) memories: Option<usize>,
    pub(crate) globals: Option<usize>,
    pub(crate) exports: Option<usize>,
    pub(crate) codes: Option<usize>,
    /// How many functions of its own the module has, by the indices of their types.
    pub(crate) own: usize,
}

/// The id, where a section of it may stand behind the last one.
fn section_of(last: u8, id: u8) -> Result<u8, BinaryFault>
    ensures { result ≡ section_by last id }
{
    match id {
        4 => Err(BinaryFault::OutOfProfile { what: What::Table }),
        8 => Err(BinaryFault::OutOfProfile { what: What::Start }),
        9 => Err(BinaryFault::OutOfProfile {
            what: What::Element,
        }),
        11 => Err(BinaryFault::OutOfProfile {
            what: What::DataSection,
        }),
        _ if id > 11 || id <= last => Err(BinaryFault::NotModule),
        _ => Ok(id),
    }
}

/// What is behind a custom section.
#[tactic(auto, unfolding(qw_octet_grammar::specs::Reading::read))]
fn behind_custom(octets: &[u8]) -> Result<&[u8], BinaryFault>
    ensures { (s : Sections) → Gives (λ rest. (s, rest.now)) result (read (section s 0) octets.now) }
{
    let (size, rest) = u32_at(octets)?;
    let _ = name_at(window(rest, size))?;
    behind(rest, size)
}

impl Outline {
    fn new() -> Outline
        ensures sections { (whole : List ℕ) → sections_in whole result ≡ no_sections }
        ensures outline { (whole : List ℕ) → IsOutline whole result }
    {
        Outline {
            last: 0,
            types: None,
            imports: None,
            indices: None,
            memories: None,
            globals: None,
            exports: None,
            codes: None,
            own: 0,
        }
    }

    /// Notes that what a section of this id holds, so many, stands behind so many octets of the module.
    fn note(&mut self, id: u8, at: usize, count: usize)
        ensures { self.new ≡ noted self.old id at count }
    {
        self.last = id;
        match id {
            1 => self.types = Some(at),
            2 => self.imports = Some(at),
            3 => {
                self.indices = Some(at);
                self.own = count;
            }
            5 => self.memories = Some(at),
            6 => self.globals = Some(at),
            7 => self.exports = Some(at),
            _ => self.codes = Some(at),
        }
    }

    /// Whether every function that has a type has its code.
    fn is_complete(&self) -> bool
        ensures { (whole : List ℕ) → IsOutline whole self.now → result ≡ (length (indices_in whole self.now) == length (contents_in whole self.now).functions) }
    {
        self.own == 0 || self.codes.is_some()
    }

    /// What stands behind the id of a section, to the end of the module.
    fn section_at<'a>(
        &mut self,
        alloc: Global,
        whole: &[u8],
        id: u8,
        octets: &'a [u8],
    ) -> Result<&'a [u8], BinaryFault>
        ensures sections { IsSuffix whole.now octets.now → IsOutline whole.now self.old →
            Gives (λ rest. (sections_in whole.now self.new, rest.now)) result (read (section (sections_in whole.now self.old) id) octets.now) }
        ensures outline { IsSuffix whole.now octets.now → IsOutline whole.now self.old → OnOk result (IsOutline whole.now self.new) }
    {
        if id == 0 {
            return behind_custom(octets);
        }
        let id = section_of(self.last, id)?;
        let (size, rest) = u32_at(octets)?;
        let at = whole.len().saturating_sub(rest.len());
        let held = window(rest, size);
        let left = behind_content(alloc, id, self.own, held)?;
        let after = behind_all(rest, size, left)?;
        let Ok((count, _)) = u32_at(held) else {
            return Err(BinaryFault::NoMemory);
        };
        self.note(id, at, count as usize);
        Ok(after)
    }
}

/// The outline of the sections behind a module's header.
fn sections_at(alloc: Global, octets: &[u8]) -> Result<Outline, BinaryFault>
    ensures sections { Gives (sections_in octets.now) result (read_all section (length octets.now) no_sections (drop 8 octets.now)) }
    ensures outline { IfOk result (λ o. IsOutline octets.now o) }
{
    let mut outline = Outline::new();
    let mut rest = from(octets, 8);
    for _ in 0..octets.len() {
        match rest {
            [] => return Ok(outline),
            [id, after @ ..] => rest = outline.section_at(alloc, octets, *id, after)?,
        }
    }
    if rest.is_empty() {
        Ok(outline)
    } else {
        Err(BinaryFault::NotModule)
    }
}

/// Whether octets begin as a module does.
fn has_header(octets: &[u8]) -> bool
    ensures { result ≡ equal (take 8 octets.now) header }
{
    match octets {
        [0x00, 0x61, 0x73, 0x6D, 0x01, 0x00, 0x00, 0x00, ..] => true,
        _ => false,
    }
}

/// The outline of a module, where octets are read as one.
fn read_outline(alloc: Global, octets: &[u8]) -> Result<Outline, BinaryFault>
    ensures contents { Gives (contents_in octets.now) result (module_in octets.now) }
    ensures outline { IfOk result (λ o. IsOutline octets.now o) }
    ensures complete { IfOk result (λ o. length (indices_in octets.now o) ≡ length (contents_in octets.now o).functions) }
{
    if !has_header(octets) {
        return Err(BinaryFault::NotModule);
    }
    let outline = sections_at(alloc, octets)?;
    if outline.is_complete() {
        Ok(outline)
    } else {
        Err(BinaryFault::NotModule)
    }
}

/// The outline of the module that octets spell.
///
/// # Errors
///
/// The first construct from the left that no rule allows, and `NoMemory`.
pub(crate) fn outline_of(alloc: Global, octets: &[u8]) -> Result<Outline, BinaryFault>
    ensures spelled { IfOk result (λ o. SpellsModule (contents_in octets.now o) octets.now) }
    ensures stuck { IfErr result (λ fault. IsFirstStuck fault octets.now) }
    ensures outline { IfOk result (λ o. IsOutline octets.now o) }
    ensures complete { IfOk result (λ o. length (indices_in octets.now o) ≡ length (contents_in octets.now o).functions) }
{
    read_outline(alloc, octets)
}
