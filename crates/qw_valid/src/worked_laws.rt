//! Worked cases of the definitions, with numbers, stated as contracts. No function here computes anything.

ghost use Rattle.std.specs.Prelude.{◌≡◌, [], ◌∷◌, None, Some};
ghost use Rattle.qw_module.specs.declared.instruction.Binary.TheVariants.{Add};
ghost use Rattle.qw_module.specs.declared.instruction.Const.TheVariants as const;
ghost use Rattle.qw_module.specs.declared.instruction.Op.TheVariants as o;
ghost use Rattle.qw_module.specs.declared.instruction.ValType.TheVariants.{I32, I64};
ghost use Rattle.qw_module.specs.declared.module.Function.{Function};
ghost use Rattle.qw_module.specs.declared.module.Module.{Module};
ghost use Rattle.qw_module.specs.Syntax.{block, br, call, done, if_then, loop, op};
ghost use Rattle.qw_module.specs.Validity.{code_of_body, signature_in};
ghost use Rattle.qw_valid.specs.Heights.{StaysWithin};
ghost use Rattle.qw_valid.specs.ModuleHeights.{HaveHeights};

/// Operands and labels at most: on both sides of each bound, in a block on operands below it, and behind a call.
pub fn heights()
    ensures two { StaysWithin [] 2 0 (op (o.Const (const.I32 7)) (op (o.Const (const.I32 8)) (op (o.Binary I32 Add) done))) 0 }
    ensures not_one { StaysWithin [] 1 0 (op (o.Const (const.I32 7)) (op (o.Const (const.I32 8)) (op (o.Binary I32 Add) done))) 0 → ⊥ }
    ensures nested { StaysWithin [] 2 1 (op (o.Const (const.I32 7)) (block (Some I32) (op (o.Const (const.I32 8)) done) (op (o.Binary I32 Add) done))) 0 }
    ensures not_nested_in_one { StaysWithin [] 1 1 (op (o.Const (const.I32 7)) (block (Some I32) (op (o.Const (const.I32 8)) done) (op (o.Binary I32 Add) done))) 0 → ⊥ }
    ensures not_without_label { StaysWithin [] 2 0 (op (o.Const (const.I32 7)) (block None done (op o.Drop done))) 0 → ⊥ }
    ensures two_labels { StaysWithin [] 1 2 (loop None (op (o.Const (const.I32 7)) (if_then None (br 1 done) done)) done) 0 }
    ensures not_one_label { StaysWithin [] 1 1 (loop None (op (o.Const (const.I32 7)) (if_then None (br 1 done) done)) done) 0 → ⊥ }
    ensures called { StaysWithin (record { params = I32 ∷ I32 ∷ []; results = I64 ∷ [] } ∷ []) 2 0 (op (o.Const (const.I32 7)) (op (o.Const (const.I32 8)) (call 0 (op (o.Const (const.I32 9)) done)))) 0 }
{}

/// A function that puts an operand and drops it needs one, and each function has its bounds.
pub fn heights_of_one_function()
    ensures one { (m : Module) (f : Function) → m.functions.items ≡ f ∷ [] → signature_in m f.type_index ≡ record { params = []; results = [] }
        → code_of_body f.body ≡ op (o.Const (const.I32 7)) (op o.Drop done) → HaveHeights m ((record { operands = 1; labels = 0 }) ∷ []) }
    ensures not_none { (m : Module) (f : Function) → m.functions.items ≡ f ∷ []
        → code_of_body f.body ≡ op (o.Const (const.I32 7)) (op o.Drop done) → HaveHeights m ((record { operands = 0; labels = 0 }) ∷ []) → ⊥ }
    ensures not_left_out { (m : Module) (f : Function) → m.functions.items ≡ f ∷ [] → HaveHeights m [] → ⊥ }
    ensures not_of_more { (m : Module) → m.functions.items ≡ [] → HaveHeights m ((record { operands = 0; labels = 0 }) ∷ []) → ⊥ }
{}
