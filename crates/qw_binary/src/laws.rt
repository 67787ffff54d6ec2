//! Laws of the binary format, each the contract of a function that does nothing.

ghost use Rattle.std.specs.Prelude.{◌≡◌, ℕ, List};
ghost use Rattle.qw_octet_grammar.specs.declared.fault.BinaryFault.{BinaryFault};
ghost use Rattle.std.specs.List.{AllByRecursion};
ghost use Rattle.qw_module.specs.Syntax.{IsNumbered};
ghost use Rattle.qw_binary.specs.Contents.{Contents, FunctionContents, GlobalContents};
ghost use Rattle.qw_binary.specs.Modules.{SpellsModule, FirstStuck};
ghost use Rattle.qw_binary.specs.Sizes.{SpelledIn64MiB, SpelledModules};

/// Octets spell at most one module.
pub fn one_module()
    ensures { (text : List ℕ) (m n : Contents) → SpellsModule m text → SpellsModule n text → m ≡ n }
{}

/// Octets have at most one first construct that no rule allows, and those that spell a module have none.
pub fn one_fault()
    ensures one { (text : List ℕ) (f g : BinaryFault) → FirstStuck text f → FirstStuck text g → f ≡ g }
    ensures never_both { (text : List ℕ) (m : Contents) (f : BinaryFault) → SpellsModule m text → FirstStuck text f → ⊥ }
{}

/// The bodies of a module that octets spell, and the expressions of its globals, are numbered: each sequence names only lower
/// ones, and only labels that are there.
pub fn numbered_bodies()
    ensures bodies { (text : List ℕ) (m : Contents) → SpellsModule m text → AllByRecursion (λ (f : FunctionContents). IsNumbered f.body) m.functions }
    ensures globals { (text : List ℕ) (m : Contents) → SpellsModule m text → AllByRecursion (λ (g : GlobalContents). IsNumbered g.init) m.globals }
{}

/// A module whose numbers fit, whose sequences stand in the order in which they are read, and which needs fewer than 2^32 octets,
/// has a spelling of at most as many octets as it needs.
pub fn spelled_modules()
    ensures { SpelledModules }
{}

/// A module with one function alone, of at most 2^22 instructions and 2^22 + 2^20 locals, has a spelling of at most 2^26 octets.
pub fn spelled_in_64_mib()
    ensures { SpelledIn64MiB }
{}
