//! The definitions on given numbers, types and limits, worked out by hand from the WebAssembly Core Specification 1.0. A
//! definition that were weaker or wrong would refuse a line here. No function here computes anything.

ghost use Rattle.std.specs.Prelude.{◌≡◌, ℕ, [], ◌∷◌, List, Some, None, Ok, Err, true, false};
ghost use Rattle.qw_module.specs.Numbers.{unary, binary, division, relation, converted, loaded_value, load_width, store_width, constant, values_of};
ghost use Rattle.qw_module.specs.Numbers.{converts_from, converts_to, type_of_load, type_of_store, type_of_constant};
ghost use Rattle.qw_module.specs.Execution.{effective, refusal, label, frame, Running, Returned, Raised, Trapped, Silent, Grows, AsksHost, Raises, Traps};
ghost use Rattle.qw_module.specs.Step.{op_wants, Leaves, Sets, Fails', next};
ghost use Rattle.qw_module.specs.Start.{weight, weights_below};
ghost use Rattle.qw_module.specs.Typing.{OpTyped, Typed, within};
ghost use Rattle.qw_module.specs.Syntax.{done, op, unreachable, block, loop, if_then, if_else, br, br_if, br_table, return, call};
ghost use Rattle.qw_module.specs.Places.{Typing, tokens_of, plain, block_begins, if_begins, else_begins, ends, branches};
ghost use Rattle.qw_module.specs.Validity.{IsValidMemory, IsInitial, declared_types};
ghost use Rattle.qw_module.specs.Start.{initial_value};
ghost use Rattle.qw_module.specs.Form.{HasNoSize, HasNoGrowth, NestIn};
ghost use Rattle.qw_module.specs.Worked.{scope, outside, nothing, store, at_code, asking, alone, plain_function};
ghost use Rattle.qw_linear.specs.Memory.{cleared, pages_of};
ghost use Rattle.qw_module.specs.Execution.{host_raise, own};
ghost use Rattle.qw_module.specs.declared.trap.Trap.TheVariants.{DivideByZero, Overflow, OutOfBounds, Unreachable};
ghost use Rattle.qw_module.specs.declared.instruction.Sign.TheVariants.{Signed, Unsigned};
ghost use Rattle.qw_module.specs.declared.instruction.Instr.TheVariants as i;
ghost use Rattle.qw_module.specs.declared.instruction.Op.TheVariants as o;
ghost use Rattle.qw_module.specs.declared.instruction.Const.TheVariants as const;
ghost use Rattle.qw_module.specs.declared.instruction.Unary.TheVariants.{Clz, Ctz, Popcnt};
ghost use Rattle.qw_module.specs.declared.instruction.Binary.TheVariants.{Add, Sub, Mul, And, Or, Xor, Shl, Shr, Rotl, Rotr};
ghost use Rattle.qw_module.specs.declared.instruction.Division.TheVariants.{Div, Rem};
ghost use Rattle.qw_module.specs.declared.instruction.Relation.TheVariants.{Eq, Ne, Lt, Gt, Le, Ge};
ghost use Rattle.qw_module.specs.declared.instruction.Conversion.TheVariants.{Wrap, Extend};
ghost use Rattle.qw_module.specs.declared.instruction.Load.TheVariants as load;
ghost use Rattle.qw_module.specs.declared.instruction.Store.TheVariants as store_of;
ghost use Rattle.qw_module.specs.declared.instruction.ValType.{ValType};
ghost use Rattle.qw_module.specs.declared.instruction.ValType.TheVariants.{I32, I64};

/// Counts of bits at both ends, and of those that are 1 (4.3.2).
#[tactic(auto, unfolding(crate::specs::Numbers::zeros_above, crate::specs::Numbers::zeros_below, crate::specs::Numbers::ones))]
pub fn unary_operators()
    ensures leading { (unary I32 Clz 0 ≡ 32) × (unary I32 Clz 1 ≡ 31) × (unary I32 Clz 4294967295 ≡ 0) × (unary I64 Clz 1 ≡ 63) × (unary I64 Clz 4294967296 ≡ 31) }
    ensures trailing { (unary I32 Ctz 0 ≡ 32) × (unary I32 Ctz 8 ≡ 3) × (unary I32 Ctz 2147483648 ≡ 31) × (unary I64 Ctz 0 ≡ 64) × (unary I64 Ctz 1099511627776 ≡ 40) }
    ensures set { (unary I32 Popcnt 0 ≡ 0) × (unary I32 Popcnt 4294967295 ≡ 32) × (unary I32 Popcnt 2147483651 ≡ 3) × (unary I64 Popcnt 18446744073709551615 ≡ 64) }
{}

/// Sums, differences and products wrap at their width (4.3.2).
pub fn binary_operators()
    ensures sums { (binary I32 Add 4294967295 1 ≡ 0) × (binary I32 Add 2147483647 1 ≡ 2147483648) × (binary I32 Add 2 3 ≡ 5) }
    ensures differences { (binary I32 Sub 0 1 ≡ 4294967295) × (binary I32 Sub 7 5 ≡ 2) × (binary I32 Sub 5 7 ≡ 4294967294) × (binary I64 Sub 0 1 ≡ 18446744073709551615) }
    ensures products { (binary I32 Mul 65536 65536 ≡ 0) × (binary I32 Mul 4294967295 4294967295 ≡ 1) × (binary I32 Mul 6 7 ≡ 42) × (binary I64 Mul 4294967296 4294967296 ≡ 0) }
    ensures wide_sums { (binary I64 Add 18446744073709551615 1 ≡ 0) × (binary I64 Add 4294967295 1 ≡ 4294967296) }
{}

/// Bits by bits, shifts and rotations (4.3.2): counts are modulo the width, a signed shift rounds down and keeps the sign.
pub fn bits()
    ensures each { (binary I32 And 12 10 ≡ 8) × (binary I32 Or 12 10 ≡ 14) × (binary I32 Xor 12 10 ≡ 6) × (binary I64 Xor 18446744073709551615 1 ≡ 18446744073709551614) }
    ensures left { (binary I32 Shl 1 31 ≡ 2147483648) × (binary I32 Shl 1 33 ≡ 2) × (binary I32 Shl 2147483649 1 ≡ 2) × (binary I64 Shl 1 33 ≡ 8589934592) × (binary I64 Shl 3 64 ≡ 3) }
    ensures right { (binary I32 (Shr Unsigned) 2147483648 31 ≡ 1) × (binary I32 (Shr Unsigned) 7 33 ≡ 3) × (binary I64 (Shr Unsigned) 9223372036854775808 63 ≡ 1) }
    ensures right_signed { (binary I32 (Shr Signed) 2147483648 31 ≡ 4294967295) × (binary I32 (Shr Signed) 4294967289 1 ≡ 4294967292) × (binary I32 (Shr Signed) 7 1 ≡ 3)
        × (binary I64 (Shr Signed) 9223372036854775808 62 ≡ 18446744073709551614) × (binary I64 (Shr Signed) 2147483648 31 ≡ 1) }
    ensures rotated_left { (binary I32 Rotl 2147483649 1 ≡ 3) × (binary I32 Rotl 2147483649 32 ≡ 2147483649) × (binary I32 Rotl 1 63 ≡ 2147483648) × (binary I64 Rotl 9223372036854775809 4 ≡ 24) }
    ensures rotated_right { (binary I32 Rotr 3 1 ≡ 2147483649) × (binary I32 Rotr 3 32 ≡ 3) × (binary I64 Rotr 1 1 ≡ 9223372036854775808) }
{}

/// Quotients are rounded toward zero and remainders have the dividend's sign; which there are none of (4.3.2).
pub fn divisions()
    ensures unsigned_quotients { (division I32 (Div Unsigned) 7 2 ≡ Ok 3) × (division I32 (Div Unsigned) 4294967295 2 ≡ Ok 2147483647) × (division I64 (Div Unsigned) 18446744073709551615 10 ≡ Ok 1844674407370955161) }
    ensures signed_quotients { (division I32 (Div Signed) 4294967289 2 ≡ Ok 4294967293) × (division I32 (Div Signed) 7 4294967294 ≡ Ok 4294967293)
        × (division I32 (Div Signed) 4294967289 4294967294 ≡ Ok 3) × (division I64 (Div Signed) 18446744073709551609 2 ≡ Ok 18446744073709551613) × (division I64 (Div Signed) 7 2 ≡ Ok 3) }
    ensures overflow { (division I32 (Div Signed) 2147483648 4294967295 ≡ Err Overflow) × (division I64 (Div Signed) 9223372036854775808 18446744073709551615 ≡ Err Overflow)
        × (division I32 (Div Signed) 2147483649 4294967295 ≡ Ok 2147483647) × (division I32 (Div Signed) 2147483648 1 ≡ Ok 2147483648) × (division I32 (Div Unsigned) 2147483648 4294967295 ≡ Ok 0) }
    ensures remainders { (division I32 (Rem Unsigned) 7 4 ≡ Ok 3) × (division I32 (Rem Signed) 4294967289 2 ≡ Ok 4294967295) × (division I32 (Rem Signed) 7 4294967294 ≡ Ok 1)
        × (division I32 (Rem Signed) 2147483648 4294967295 ≡ Ok 0) × (division I64 (Rem Signed) 9223372036854775808 18446744073709551615 ≡ Ok 0) }
    ensures by_zero { (division I32 (Div Unsigned) 7 0 ≡ Err DivideByZero) × (division I32 (Div Signed) 2147483648 0 ≡ Err DivideByZero)
        × (division I64 (Rem Unsigned) 7 0 ≡ Err DivideByZero) × (division I64 (Rem Signed) 7 0 ≡ Err DivideByZero) }
{}

/// Comparisons at the edges of both readings (4.3.2): 2^31 and 2^63 are the least of the signed numbers.
pub fn relations()
    ensures equal { (relation I32 Eq 5 5 ≡ 1) × (relation I32 Eq 5 6 ≡ 0) × (relation I64 Eq 4294967297 1 ≡ 0) × (relation I64 Eq 7 7 ≡ 1) }
    ensures unequal { (relation I64 Ne 4294967297 1 ≡ 1) × (relation I64 Ne 7 7 ≡ 0) × (relation I32 Ne 5 6 ≡ 1) }
    ensures words { (relation I32 (Gt Signed) 2147483648 0 ≡ 0) × (relation I32 (Gt Unsigned) 2147483648 0 ≡ 1)
        × (relation I32 (Lt Signed) 2147483648 0 ≡ 1) × (relation I32 (Lt Unsigned) 2147483648 0 ≡ 0)
        × (relation I32 (Le Signed) 3 3 ≡ 1) × (relation I32 (Ge Unsigned) 3 3 ≡ 1) × (relation I32 (Gt Signed) 3 3 ≡ 0) }
    ensures less { (relation I64 (Lt Signed) 9223372036854775808 9223372036854775807 ≡ 1) × (relation I64 (Lt Unsigned) 9223372036854775808 9223372036854775807 ≡ 0)
        × (relation I64 (Lt Signed) 3 3 ≡ 0) × (relation I64 (Lt Unsigned) 3 4 ≡ 1) }
    ensures greater { (relation I64 (Gt Signed) 9223372036854775808 9223372036854775807 ≡ 0) × (relation I64 (Gt Unsigned) 9223372036854775808 9223372036854775807 ≡ 1)
        × (relation I64 (Gt Signed) 3 3 ≡ 0) × (relation I64 (Gt Unsigned) 3 4 ≡ 0) }
    ensures at_most { (relation I64 (Le Signed) 9223372036854775808 9223372036854775807 ≡ 1) × (relation I64 (Le Unsigned) 9223372036854775808 9223372036854775807 ≡ 0)
        × (relation I64 (Le Signed) 3 3 ≡ 1) × (relation I64 (Le Unsigned) 3 3 ≡ 1) }
    ensures at_least { (relation I64 (Ge Signed) 9223372036854775808 9223372036854775807 ≡ 0) × (relation I64 (Ge Unsigned) 9223372036854775808 9223372036854775807 ≡ 1)
        × (relation I64 (Ge Signed) 3 3 ≡ 1) × (relation I64 (Ge Unsigned) 3 3 ≡ 1) }
{}

/// Conversions (4.3.4) and their types (3.3.1).
pub fn conversions()
    ensures wrapped { (converted Wrap 4294967297 ≡ 1) × (converted Wrap 18446744073709551615 ≡ 4294967295) }
    ensures extended { (converted (Extend Signed) 4294967295 ≡ 18446744073709551615) × (converted (Extend Signed) 2147483647 ≡ 2147483647) × (converted (Extend Unsigned) 4294967295 ≡ 4294967295) }
    ensures types { (converts_from Wrap ≡ I64) × (converts_to Wrap ≡ I32) × (converts_from (Extend Signed) ≡ I32) × (converts_to (Extend Signed) ≡ I64) }
{}

/// Loads, stores and growths (4.4.4): a loaded number is extended by the sign that the load names, and addresses don't wrap.
pub fn accesses()
    ensures octets { (loaded_value (load.From8 I32 Signed) 255 ≡ 4294967295) × (loaded_value (load.From8 I64 Signed) 128 ≡ 18446744073709551488)
        × (loaded_value (load.From8 I32 Signed) 127 ≡ 127) × (loaded_value (load.From8 I64 Unsigned) 255 ≡ 255) }
    ensures pairs { (loaded_value (load.From16 I32 Signed) 32768 ≡ 4294934528) × (loaded_value (load.From16 I64 Signed) 65535 ≡ 18446744073709551615) × (loaded_value (load.From16 I32 Unsigned) 65535 ≡ 65535) }
    ensures fours { (loaded_value (load.I64From32 Signed) 4294967295 ≡ 18446744073709551615) × (loaded_value (load.I64From32 Signed) 2147483648 ≡ 18446744071562067968)
        × (loaded_value (load.I64From32 Signed) 2147483647 ≡ 2147483647) × (loaded_value (load.I64From32 Unsigned) 4294967295 ≡ 4294967295) × (loaded_value (load.Full I32) 4294967295 ≡ 4294967295) }
    ensures widths { (load_width (load.Full I32) ≡ 4) × (load_width (load.Full I64) ≡ 8) × (load_width (load.From8 I64 Signed) ≡ 1) × (load_width (load.From16 I32 Signed) ≡ 2) × (load_width (load.I64From32 Signed) ≡ 4)
        × (store_width (store_of.Full I32) ≡ 4) × (store_width (store_of.Full I64) ≡ 8) × (store_width (store_of.To8 I64) ≡ 1) × (store_width (store_of.To16 I32) ≡ 2) × (store_width store_of.I64To32 ≡ 4) }
    ensures types { (type_of_load (load.Full I32) ≡ I32) × (type_of_load (load.From8 I64 Signed) ≡ I64) × (type_of_load (load.I64From32 Unsigned) ≡ I64)
        × (type_of_store (store_of.Full I32) ≡ I32) × (type_of_store (store_of.To16 I64) ≡ I64) × (type_of_store store_of.I64To32 ≡ I64) }
    ensures addresses { effective 4294967295 (record { align = 0; offset = 4294967295 }) ≡ 8589934590 }
    ensures refused { refusal ≡ 4294967295 }
{}

/// How many values a type has, and what a constant is (2.2.2, 4.4.1).
pub fn values()
    ensures counts { (values_of I32 ≡ 4294967296) × (values_of I64 ≡ 18446744073709551616) }
    ensures constants { (constant (const.I32 7) ≡ 7) × (constant (const.I64 8) ≡ 8) × (type_of_constant (const.I32 7) ≡ I32) × (type_of_constant (const.I64 8) ≡ I64) }
{}

/// What operators take and leave (4.4.1 to 4.4.3): the last operand stands first, so 5 is taken from 7, and divides it.
pub fn operators_on_operands()
    ensures nop { op_wants o.Nop [] (6 ∷ []) (8 ∷ []) ≡ Leaves (6 ∷ []) (8 ∷ []) }
    ensures dropped { op_wants o.Drop [] (5 ∷ 6 ∷ []) [] ≡ Leaves (6 ∷ []) [] }
    ensures first_selected { op_wants o.Select [] (1 ∷ 5 ∷ 7 ∷ 6 ∷ []) [] ≡ Leaves (7 ∷ 6 ∷ []) [] }
    ensures second_selected { op_wants o.Select [] (0 ∷ 5 ∷ 7 ∷ 6 ∷ []) [] ≡ Leaves (5 ∷ 6 ∷ []) [] }
    ensures read { op_wants (o.LocalGet 1) [] (6 ∷ []) (8 ∷ 9 ∷ []) ≡ Leaves (9 ∷ 6 ∷ []) (8 ∷ 9 ∷ []) }
    ensures set { op_wants (o.LocalSet 1) [] (5 ∷ 6 ∷ []) (8 ∷ 9 ∷ []) ≡ Leaves (6 ∷ []) (8 ∷ 5 ∷ []) }
    ensures tee { op_wants (o.LocalTee 0) [] (5 ∷ 6 ∷ []) (8 ∷ 9 ∷ []) ≡ Leaves (5 ∷ 6 ∷ []) (5 ∷ 9 ∷ []) }
    ensures global_read { op_wants (o.GlobalGet 1) (3 ∷ 4 ∷ []) (6 ∷ []) (8 ∷ []) ≡ Leaves (4 ∷ 6 ∷ []) (8 ∷ []) }
    ensures global_set { op_wants (o.GlobalSet 1) (3 ∷ 4 ∷ []) (5 ∷ 6 ∷ []) (8 ∷ []) ≡ Sets (6 ∷ []) (3 ∷ 5 ∷ []) }
    ensures constant { op_wants (o.Const (const.I64 7)) [] (6 ∷ []) [] ≡ Leaves (7 ∷ 6 ∷ []) [] }
    ensures difference { op_wants (o.Binary I32 Sub) [] (5 ∷ 7 ∷ 6 ∷ []) [] ≡ Leaves (2 ∷ 6 ∷ []) [] }
    ensures quotient { op_wants (o.Division I32 (Div Unsigned)) [] (3 ∷ 7 ∷ 6 ∷ []) [] ≡ Leaves (2 ∷ 6 ∷ []) [] }
    ensures no_quotient { op_wants (o.Division I32 (Div Unsigned)) [] (0 ∷ 7 ∷ 6 ∷ []) [] ≡ Fails' DivideByZero }
    ensures zero { op_wants (o.Eqz I64) [] (0 ∷ 6 ∷ []) [] ≡ Leaves (1 ∷ 6 ∷ []) [] }
    ensures no_zero { op_wants (o.Eqz I64) [] (4294967296 ∷ 6 ∷ []) [] ≡ Leaves (0 ∷ 6 ∷ []) [] }
    ensures comparison { op_wants (o.Relation I32 (Gt Unsigned)) [] (5 ∷ 7 ∷ 6 ∷ []) [] ≡ Leaves (1 ∷ 6 ∷ []) [] }
    ensures conversion { op_wants (o.Convert Wrap) [] (4294967297 ∷ 6 ∷ []) [] ≡ Leaves (1 ∷ 6 ∷ []) [] }
{}

/// Steps over the memory (4.4.4): the number of its pages, a refused growth leaves -1, and an access outside it traps.
pub fn memory_steps()
    ensures size { next (λ _. false) (λ _. 0) (at_code (op o.MemorySize (br 0 done)) (6 ∷ []) []) (1 ∷ [])
        ≡ Some (record { event = Silent; state = Running (at_code (br 0 done) (0 ∷ 6 ∷ []) []); memory = 1 ∷ [] }) }
    ensures refused_growth { next (λ _. false) (λ _. 0) (at_code (op o.MemoryGrow (br 0 done)) (2 ∷ 6 ∷ []) []) []
        ≡ Some (record { event = Grows 2 false; state = Running (at_code (br 0 done) (4294967295 ∷ 6 ∷ []) []); memory = [] }) }
    ensures outside { next (λ _. true) (λ _. 0) (at_code (op (o.Load (load.Full I32) (record { align = 0; offset = 1 })) done) (0 ∷ []) []) (1 ∷ 2 ∷ 3 ∷ 4 ∷ [])
        ≡ Some (record { event = Traps OutOfBounds; state = Trapped OutOfBounds; memory = 1 ∷ 2 ∷ 3 ∷ 4 ∷ [] }) }
{}

/// Steps of control (4.4.5, 4.4.6): a branch keeps what its label takes and what lies below, any number but 0 takes the first
/// sequence of an `if`, and a table's label stands at its operand, or is the default.
pub fn control_steps()
    ensures stopped { next (λ _. true) (λ _. 0) (at_code (unreachable done) [] []) [] ≡ Some (record { event = Traps Unreachable; state = Trapped Unreachable; memory = [] }) }
    ensures branch { next (λ _. true) (λ _. 0) (at_code (br 0 done) (5 ∷ 6 ∷ []) (label (br 1 done) 1 (3 ∷ []) done ∷ [])) []
        ≡ Some (record { event = Silent; state = Running (at_code (br 1 done) (5 ∷ 3 ∷ []) []); memory = [] }) }
    ensures first { next (λ _. true) (λ _. 0) (at_code (if_else (Some I32) (br 0 done) (br 1 done) done) (2 ∷ 6 ∷ []) []) []
        ≡ Some (record { event = Silent; state = Running (at_code (br 0 done) [] (label done 1 (6 ∷ []) done ∷ [])); memory = [] }) }
    ensures other { next (λ _. true) (λ _. 0) (at_code (if_else (Some I32) (br 0 done) (br 1 done) done) (0 ∷ 6 ∷ []) []) []
        ≡ Some (record { event = Silent; state = Running (at_code (br 1 done) [] (label done 1 (6 ∷ []) done ∷ [])); memory = [] }) }
    ensures no_other { next (λ _. true) (λ _. 0) (at_code (if_then None (br 0 done) (br 1 done)) (0 ∷ 6 ∷ []) []) []
        ≡ Some (record { event = Silent; state = Running (at_code (br 1 done) (6 ∷ []) []); memory = [] }) }
    ensures chosen { next (λ _. true) (λ _. 0) (at_code (br_table (1 ∷ 0 ∷ []) 1 done) (1 ∷ 5 ∷ []) (label (br 1 done) 1 [] done ∷ label (br 2 done) 0 [] done ∷ [])) []
        ≡ Some (record { event = Silent; state = Running (at_code (br 1 done) (5 ∷ []) (label (br 2 done) 0 [] done ∷ [])); memory = [] }) }
    ensures chosen_past { next (λ _. true) (λ _. 0) (at_code (br_table (1 ∷ 0 ∷ []) 0 done) (2 ∷ 5 ∷ []) (label (br 1 done) 1 [] done ∷ [])) []
        ≡ Some (record { event = Silent; state = Running (at_code (br 1 done) (5 ∷ []) []); memory = [] }) }
{}

/// Calls and returns (4.4.5, 4.4.7): the function's locals are its argument and zeros, its results come on the caller's operands,
/// and `raise` ends all.
pub fn call_steps()
    ensures raised { next (λ _. true) (λ _. 0) (at_code (call 0 done) (3 ∷ 6 ∷ []) []) [] ≡ Some (record { event = Raises 3; state = Raised 3; memory = [] }) }
    ensures called { next (λ _. true) (λ _. 0) (at_code (call 1 (br 0 done)) (3 ∷ 6 ∷ []) []) []
        ≡ Some (record {
          event = Silent;
          state = Running (record {
            store = store;
            code = return done;
            operands = [];
            locals = 3 ∷ 0 ∷ 0 ∷ [];
            contexts = label done 1 [] done ∷ frame (8 ∷ []) 1 (6 ∷ []) (br 0 done) ∷ [];
          });
          memory = [];
        }) }
    ensures returned { next (λ _. true) (λ _. 0) (record {
      store = store;
      code = return done;
      operands = 4 ∷ 5 ∷ [];
      locals = 3 ∷ [];
      contexts = label done 1 (7 ∷ []) done ∷ frame (8 ∷ []) 1 (6 ∷ []) (br 0 done) ∷ [];
    }) []
        ≡ Some (record { event = Silent; state = Running (at_code (br 0 done) (4 ∷ 6 ∷ []) []); memory = [] }) }
    ensures left { next (λ _. true) (λ _. 0) (record {
      store = store;
      code = op o.Nop done;
      operands = 4 ∷ [];
      locals = 3 ∷ [];
      contexts = label done 1 [] done ∷ frame (8 ∷ []) 1 (6 ∷ []) (br 0 done) ∷ [];
    }) []
        ≡ Some (record { event = Silent; state = Running (at_code (br 0 done) (4 ∷ 6 ∷ []) []); memory = [] }) }
    ensures ended { next (λ _. true) (λ _. 0) (at_code (return done) [] (label done 0 [] done ∷ [])) [] ≡ Some (record { event = Silent; state = Returned; memory = [] }) }
{}

/// Calls of `pages` (4.4.7, "Host Functions"). A request for two is granted at the memory's next pages, or at two neighbouring ones that it
/// has, which are cleared, and leaves the number of the first. It is refused, which leaves -1, where the host grants none, where the second
/// page is one that the memory hasn't, and where the first lies past its next one.
pub fn pages_steps()
    ensures next_pages { next (λ _. true) (λ _. 0) (asking (call 0 (br 0 done)) (2 ∷ 6 ∷ [])) []
        ≡ Some (record { event = AsksHost 2 (Some 0); state = Running (asking (br 0 done) (0 ∷ 6 ∷ [])); memory = cleared 0 2 [] }) }
    ensures neighbours { (m : List ℕ) → pages_of m ≡ 3 → next (λ _. true) (λ _. 1) (asking (call 0 (br 0 done)) (2 ∷ 6 ∷ [])) m
        ≡ Some (record { event = AsksHost 2 (Some 1); state = Running (asking (br 0 done) (1 ∷ 6 ∷ [])); memory = cleared 1 2 m }) }
    ensures refused { next (λ _. false) (λ _. 0) (asking (call 0 (br 0 done)) (2 ∷ 6 ∷ [])) []
        ≡ Some (record { event = AsksHost 2 None; state = Running (asking (br 0 done) (4294967295 ∷ 6 ∷ [])); memory = [] }) }
    ensures past_the_last { (m : List ℕ) → pages_of m ≡ 3 → next (λ _. true) (λ _. 2) (asking (call 0 (br 0 done)) (2 ∷ 6 ∷ [])) m
        ≡ Some (record { event = AsksHost 2 None; state = Running (asking (br 0 done) (4294967295 ∷ 6 ∷ [])); memory = m }) }
    ensures past_the_next { next (λ _. true) (λ _. 1) (asking (call 0 (br 0 done)) (2 ∷ 6 ∷ [])) []
        ≡ Some (record { event = AsksHost 2 None; state = Running (asking (br 0 done) (4294967295 ∷ 6 ∷ [])); memory = [] }) }
{}

/// A memory's limits (3.2.1, 3.2.4) and a global's first value (3.4.4), on both sides of each.
pub fn limits_and_globals()
    ensures memory { IsValidMemory (record { min = 65536; max = None }) × IsValidMemory (record { min = 3; max = Some 65536 }) × IsValidMemory (record { min = 3; max = Some 3 }) }
    ensures too_many { IsValidMemory (record { min = 65537; max = None }) → ⊥ }
    ensures most_too_many { IsValidMemory (record { min = 0; max = Some 65537 }) → ⊥ }
    ensures most_below_least { IsValidMemory (record { min = 3; max = Some 2 }) → ⊥ }
    ensures global { IsInitial I32 (alone (i.Op (o.Const (const.I32 4294967295)) ∷ [])) × IsInitial I64 (alone (i.Op (o.Const (const.I64 8)) ∷ [])) }
    ensures value { (initial_value (op (o.Const (const.I32 4294967295)) done) ≡ 4294967295) × (initial_value (op (o.Const (const.I64 8)) done) ≡ 8) }
    ensures of_another_type { IsInitial I64 (alone (i.Op (o.Const (const.I32 7)) ∷ [])) → ⊥ }
    ensures no_value { IsInitial I32 (alone (i.Op (o.Const (const.I32 4294967296)) ∷ [])) → ⊥ }
    ensures empty { (type : ValType) → IsInitial type (alone []) → ⊥ }
    ensures of_two { (type : ValType) → IsInitial type (alone (i.Op (o.Const (const.I32 7)) ∷ i.Op (o.Const (const.I32 7)) ∷ [])) → ⊥ }
    ensures computed { (type : ValType) → IsInitial type (alone (i.Op o.Nop ∷ i.Op (o.Const (const.I32 7)) ∷ [])) → ⊥ }
{}

/// Runs of locals (5.4.6), places (each instruction, `else` and `end`), and counts of instructions, called ones with theirs.
#[tactic(auto, unfolding(crate::specs::Start::weights_below))]
pub fn counts()
    ensures locals { declared_types (record { count = 2; ty = I32 } ∷ record { count = 0; ty = I32 } ∷ record { count = 1; ty = I64 } ∷ []) ≡ I32 ∷ I32 ∷ I64 ∷ [] }
    ensures places { tokens_of (if_else None (op o.Nop done) (br 0 done) done) ≡ if_begins None ∷ plain o.Nop ∷ else_begins ∷ branches 0 ∷ ends ∷ ends ∷ [] }
    ensures places_without_else { tokens_of (if_then None (op o.Nop done) (block None done done)) ≡ if_begins None ∷ plain o.Nop ∷ ends ∷ block_begins None ∷ ends ∷ ends ∷ [] }
    ensures own { weight (loop None (op o.Nop (call 1 done)) (if_else None done (br 0 done) done)) ≡ 5 }
    ensures with_called { weights_below (host_raise ∷ own (record { params = 0; declared = 0; results = 0; body = op o.Nop (call 0 done) })
        ∷ own (record { params = 0; declared = 0; results = 0; body = call 1 (call 1 (call 0 done)) }) ∷ []) 3 2 ≡ 7 }
{}

/// Codes with `memory.size` and without it, and calls of three and of four functions within one another.
pub fn forms()
    ensures no_size { HasNoSize (block None (op o.Nop (if_else None done (op o.MemoryGrow done) done)) (loop None (call 0 done) (return done))) }
    ensures size { HasNoSize (op o.MemorySize done) → ⊥ }
    ensures nested_size { HasNoSize (op o.Nop (block None (op o.Nop (op o.MemorySize done)) done)) → ⊥ }
    ensures size_in_else { HasNoSize (loop None (if_else None done (op o.MemorySize done) done) done) → ⊥ }
    ensures no_growth { HasNoGrowth (block None (op o.MemorySize (if_else None done (call 1 done) done)) (loop None (op o.Nop done) done)) }
    ensures growth { HasNoGrowth (op o.MemoryGrow done) → ⊥ }
    ensures nested_growth { HasNoGrowth (op o.Nop (block None (if_then None (op o.MemoryGrow done) done) done)) → ⊥ }
    ensures raised { NestIn (host_raise ∷ []) 0 0 }
    ensures called { NestIn (host_raise ∷ plain_function (call 0 done) ∷ plain_function (block None (call 1 done) (call 0 done)) ∷ []) 2 2 }
    ensures of_its_own { NestIn (host_raise ∷ plain_function done ∷ []) 0 1 → ⊥ }
    ensures three { NestIn (host_raise ∷ plain_function (call 0 done) ∷ plain_function (call 1 done) ∷ plain_function (loop None (call 2 done) done) ∷ []) 3 3 }
    ensures four { NestIn (host_raise ∷ plain_function (call 0 done) ∷ plain_function (call 1 done) ∷ plain_function (loop None (call 2 done) done)
        ∷ plain_function (op o.Nop (call 3 done)) ∷ []) 3 4 → ⊥ }
    ensures of_itself { (depth : ℕ) → NestIn (plain_function (call 0 done) ∷ []) depth 0 → ⊥ }
    ensures of_none { (depth : ℕ) → NestIn (host_raise ∷ plain_function (call 2 done) ∷ []) depth 1 → ⊥ }
{}

/// Each operator at types that its rule admits, and at some that it doesn't (3.3.1 to 3.3.4). The last operand stands first.
pub fn typed_operators()
    ensures dropped { OpTyped scope o.Drop (I64 ∷ I32 ∷ []) (I32 ∷ []) }
    ensures dropped_of_none { (after : List ValType) → OpTyped scope o.Drop [] after → ⊥ }
    ensures selected { OpTyped scope o.Select (I32 ∷ I64 ∷ I64 ∷ []) (I64 ∷ []) }
    ensures selected_of_two_types { (types after : List ValType) → OpTyped scope o.Select (I32 ∷ I64 ∷ I32 ∷ types) after → ⊥ }
    ensures selected_by_i64 { (types after : List ValType) → OpTyped scope o.Select (I64 ∷ types) after → ⊥ }
    ensures local_get { OpTyped scope (o.LocalGet 1) [] (I64 ∷ []) }
    ensures no_local { (before after : List ValType) → OpTyped scope (o.LocalGet 2) before after → ⊥ }
    ensures local_set { OpTyped scope (o.LocalSet 1) (I64 ∷ []) [] }
    ensures set_of_another_type { (types after : List ValType) → OpTyped scope (o.LocalSet 0) (I64 ∷ types) after → ⊥ }
    ensures local_tee { OpTyped scope (o.LocalTee 0) (I32 ∷ []) (I32 ∷ []) }
    ensures tee_of_another_type { (types after : List ValType) → OpTyped scope (o.LocalTee 0) (I64 ∷ types) after → ⊥ }
    ensures global_get { OpTyped scope (o.GlobalGet 1) [] (I32 ∷ []) }
    ensures no_global { (before after : List ValType) → OpTyped scope (o.GlobalGet 2) before after → ⊥ }
    ensures global_set { OpTyped scope (o.GlobalSet 0) (I64 ∷ []) [] }
    ensures set_of_immutable { (before after : List ValType) → OpTyped scope (o.GlobalSet 1) before after → ⊥ }
    ensures constant { OpTyped scope (o.Const (const.I32 4294967295)) [] (I32 ∷ []) }
    ensures constant_too_great { (before after : List ValType) → OpTyped scope (o.Const (const.I32 4294967296)) before after → ⊥ }
    ensures unary { OpTyped scope (o.Unary I64 Clz) (I64 ∷ []) (I64 ∷ []) }
    ensures unary_of_another_type { (types after : List ValType) → OpTyped scope (o.Unary I64 Clz) (I32 ∷ types) after → ⊥ }
    ensures binary { OpTyped scope (o.Binary I64 Add) (I64 ∷ I64 ∷ []) (I64 ∷ []) }
    ensures binary_of_another_type { (types after : List ValType) → OpTyped scope (o.Binary I32 Add) (I32 ∷ I64 ∷ types) after → ⊥ }
    ensures binary_of_one { (after : List ValType) → OpTyped scope (o.Binary I32 Add) (I32 ∷ []) after → ⊥ }
    ensures division { OpTyped scope (o.Division I32 (Div Signed)) (I32 ∷ I32 ∷ []) (I32 ∷ []) }
    ensures division_of_another_type { (types after : List ValType) → OpTyped scope (o.Division I32 (Rem Signed)) (I64 ∷ types) after → ⊥ }
    ensures eqz { OpTyped scope (o.Eqz I64) (I64 ∷ []) (I32 ∷ []) }
    ensures eqz_of_another_type { (types after : List ValType) → OpTyped scope (o.Eqz I64) (I32 ∷ types) after → ⊥ }
    ensures relation { OpTyped scope (o.Relation I64 (Lt Signed)) (I64 ∷ I64 ∷ []) (I32 ∷ []) }
    ensures relation_leaves_i32 { (before after : List ValType) → OpTyped scope (o.Relation I64 (Lt Signed)) before (I64 ∷ after) → ⊥ }
    ensures convert { OpTyped scope (o.Convert (Extend Signed)) (I32 ∷ []) (I64 ∷ []) }
    ensures convert_of_another_type { (types after : List ValType) → OpTyped scope (o.Convert Wrap) (I32 ∷ types) after → ⊥ }
    ensures load { OpTyped scope (o.Load (load.I64From32 Signed) (record { align = 2; offset = 9 })) (I32 ∷ []) (I64 ∷ []) }
    ensures load_aligned_past_itself { (before after : List ValType) → OpTyped scope (o.Load (load.I64From32 Signed) (record { align = 3; offset = 9 })) before after → ⊥ }
    ensures load_from_i64 { (types after : List ValType) → OpTyped scope (o.Load (load.Full I32) (record { align = 2; offset = 9 })) (I64 ∷ types) after → ⊥ }
    ensures load_of_an_octet { OpTyped scope (o.Load (load.From8 I64 Unsigned) (record { align = 0; offset = 9 })) (I32 ∷ []) (I64 ∷ []) }
    ensures load_of_an_octet_aligned { (before after : List ValType) → OpTyped scope (o.Load (load.From8 I64 Unsigned) (record { align = 1; offset = 9 })) before after → ⊥ }
    ensures store { OpTyped scope (o.Store (store_of.Full I64) (record { align = 3; offset = 9 })) (I64 ∷ I32 ∷ []) [] }
    ensures store_aligned_past_itself { (before after : List ValType) → OpTyped scope (o.Store (store_of.To16 I64) (record { align = 2; offset = 9 })) before after → ⊥ }
    ensures store_of_another_type { (types after : List ValType) → OpTyped scope (o.Store (store_of.Full I32) (record { align = 2; offset = 9 })) (I64 ∷ types) after → ⊥ }
    ensures size { OpTyped scope o.MemorySize [] (I32 ∷ []) }
    ensures growth { OpTyped scope o.MemoryGrow (I32 ∷ []) (I32 ∷ []) }
    ensures growth_by_i64 { (types after : List ValType) → OpTyped scope o.MemoryGrow (I64 ∷ types) after → ⊥ }
    ensures size_of_no_memory { (before after : List ValType) → OpTyped (record scope { outside = nothing }) o.MemorySize before after → ⊥ }
    ensures load_of_no_memory { (before after : List ValType) → OpTyped (record scope { outside = nothing }) (o.Load (load.Full I32) (record { align = 2; offset = 9 })) before after → ⊥ }
    ensures store_in_no_memory { (before after : List ValType) → OpTyped (record scope { outside = nothing }) (o.Store (store_of.Full I32) (record { align = 2; offset = 9 })) before after → ⊥ }
    ensures growth_of_no_memory { (before after : List ValType) → OpTyped (record scope { outside = nothing }) o.MemoryGrow before after → ⊥ }
{}

/// Each form of a sequence at types that its rule admits, and at some that it doesn't (3.3.5, 3.3.6). There is one label, which
/// takes nothing.
pub fn typed_sequences()
    ensures end { (after : List ValType) → Typed scope done [] (I32 ∷ after) → ⊥ }
    ensures stopped { Typed scope (unreachable (op (o.Binary I64 Add) done)) [] (I64 ∷ []) }
    ensures block { Typed scope (block (Some I32) (op (o.Const (const.I32 7)) done) done) [] (I32 ∷ []) }
    ensures block_without_result { (before after : List ValType) → Typed scope (block (Some I32) done done) before after → ⊥ }
    ensures begun_again { Typed scope (loop (Some I32) (br 0 done) done) [] (I32 ∷ []) }
    ensures loop_without_result { (before after : List ValType) → Typed scope (loop (Some I32) done done) before after → ⊥ }
    ensures if_then { Typed scope (if_then None (op o.Nop done) done) (I32 ∷ []) [] }
    ensures if_then_of_a_result { (before after : List ValType) → Typed scope (if_then (Some I32) (op (o.Const (const.I32 7)) done) done) before after → ⊥ }
    ensures if_else { Typed scope (if_else None done done done) (I32 ∷ []) [] }
    ensures if_of_another_type { (types after : List ValType) → Typed scope (if_else None done done done) (I64 ∷ types) after → ⊥ }
    ensures if_without_its_other_result { (before after : List ValType) →
        Typed scope (if_else (Some I32) (op (o.Const (const.I32 7)) done) done done) before after → ⊥ }
    ensures branch { Typed scope (br 0 (op (o.Binary I64 Add) done)) [] (I64 ∷ []) }
    ensures branch_to_no_label { (before after : List ValType) → Typed scope (br 1 done) before after → ⊥ }
    ensures branch_without_operand { (after : List ValType) → Typed (within scope (I32 ∷ [])) (br 0 done) [] after → ⊥ }
    ensures choice { Typed scope (br_if 0 done) (I32 ∷ []) [] }
    ensures choice_by_i64 { (types after : List ValType) → Typed scope (br_if 0 done) (I64 ∷ types) after → ⊥ }
    ensures table { Typed (within scope []) (br_table (1 ∷ []) 0 done) (I32 ∷ []) (I64 ∷ []) }
    ensures table_of_unlike_labels { (before after : List ValType) → Typed (within scope (I32 ∷ [])) (br_table (1 ∷ []) 0 done) before after → ⊥ }
    ensures table_to_no_label { (before after : List ValType) → Typed scope (br_table (1 ∷ []) 0 done) before after → ⊥ }
    ensures returned { Typed scope (return done) (I64 ∷ I32 ∷ []) [] }
    ensures returned_of_another_type { (types after : List ValType) → Typed scope (return done) (I32 ∷ types) after → ⊥ }
    ensures called { Typed scope (call 0 done) (I64 ∷ I32 ∷ []) (I64 ∷ []) }
    ensures called_with_turned_arguments { (types after : List ValType) → Typed scope (call 0 done) (I32 ∷ I64 ∷ types) after → ⊥ }
    ensures called_none { (before after : List ValType) → Typed scope (call 1 done) before after → ⊥ }
{}
