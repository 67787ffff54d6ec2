//! The numbers of sequences, what fits and how many octets are needed, worked out at cases, each the contract of a function that does
//! nothing.

ghost use Rattle.std.specs.Prelude.{◌≡◌, ◌^◌, ◌-◌, ◌∷◌, [], None, Some};
ghost use Rattle.qw_module.specs.declared.instruction.Const.TheVariants as const;
ghost use Rattle.qw_module.specs.declared.instruction.ValType.TheVariants.{I32};
ghost use Rattle.qw_module.specs.declared.instruction.Load.TheVariants as load;
ghost use Rattle.qw_module.specs.declared.instruction.Op.TheVariants as o;
ghost use Rattle.qw_module.specs.declared.instruction.Instr.TheVariants as i;
ghost use Rattle.qw_module.specs.declared.module.Import.TheVariants as import;
ghost use Rattle.qw_module.specs.Syntax.{done, op, if_else, br_table};
ghost use Rattle.qw_module.specs.Numbering.{numbered, IsInOrder};
ghost use Rattle.qw_module.specs.Offsets.{FitOffsets};
ghost use Rattle.qw_binary.specs.Sections.{no_sections};
ghost use Rattle.qw_binary.specs.Sizes.{FitsOp, FitsCode, AreOnce, run_octets, code_octets, module_octets};

/// An `if` holds its first sequence by a lower number than its second, and stands in the last one; a `br_table` names its labels as a
/// range. A body with a sequence that no instruction holds isn't in order.
pub fn numbered_sequences()
    ensures choice { numbered (if_else None (op o.Nop done) done done) ≡ record { each = (i.Op o.Nop ∷ []) ∷ [] ∷ (i.If None 0 (Some 1) ∷ []) ∷ []; labels = [] } }
    ensures table { numbered (br_table (1 ∷ 0 ∷ []) 0 (br_table (2 ∷ []) 0 done)) ≡ record { each = (i.BrTable 0 2 0 ∷ i.BrTable 2 1 0 ∷ []) ∷ []; labels = 1 ∷ 0 ∷ 2 ∷ [] } }
    ensures lost { IsInOrder (record { each = [] ∷ [] ∷ []; labels = [] }) → ⊥ }
{}

/// A number of 33 bits doesn't fit an index, an offset or a constant of 32 bits; one of 64 bits fits the constant of its type.
pub fn fitting_numbers()
    ensures index { FitsOp (o.LocalGet (2 ^ 32)) → ⊥ }
    ensures offset { FitOffsets (op (o.Load (load.Full I32) (record { align = 2; offset = 2 ^ 32 })) done) → ⊥ }
    ensures narrow { FitsOp (o.Const (const.I32 (2 ^ 32))) → ⊥ }
    ensures wide { FitsCode (op (o.Const (const.I64 (2 ^ 64 - 1))) done) }
{}

/// Neither `raise` nor `pages` stands twice among imports; they and the memory do, in any order.
pub fn imports_once()
    ensures twice { AreOnce [] (import.Raise 0 ∷ import.Raise 1 ∷ []) → ⊥ }
    ensures again { AreOnce [] (import.Pages 0 ∷ import.Memory (record { min = 1; max = None }) ∷ import.Pages 0 ∷ []) → ⊥ }
    ensures all { AreOnce [] (import.Pages 1 ∷ import.Raise 0 ∷ import.Memory (record { min = 1; max = None }) ∷ []) }
{}

/// An `if` with a constant in its first sequence, and none in its second; runs of locals of a count of one octet, and of more; the
/// empty module.
pub fn octets_needed()
    ensures choice { code_octets (if_else None (op (o.Const (const.I64 7)) done) done done) ≡ 15 }
    ensures table { code_octets (br_table (1 ∷ 0 ∷ []) 0 done) ≡ 21 }
    ensures short_run { run_octets (record { count = 127; ty = I32 }) ≡ 2 }
    ensures long_run { run_octets (record { count = 128; ty = I32 }) ≡ 6 }
    ensures empty { module_octets no_sections.contents ≡ 85 }
{}
