//! Worked cases of the definitions, with numbers, stated as contracts: `SELECT A FROM T WHERE A > 5` over the rows (4), (1), (7),
//! weights of modules, and ends. No function here computes anything.

ghost use Rattle.std.specs.Prelude.{◌≡◌, ◌≤◌, ℕ, pos, true, false, List, [], ◌∷◌, length, Some, None};
ghost use Rattle.qw_types.specs.declared.code.Code.TheVariants.{DivZero, OutOfRange};
ghost use Rattle.qw_types.specs.declared.kind.Kind.{Kind};
ghost use Rattle.qw_types.specs.declared.kind.Kind.TheVariants as kind;
ghost use Rattle.qw_types.specs.declared.value.Ty.TheVariants.{Integer, Date};
ghost use Rattle.qw_types.specs.declared.value.Val.{Val};
ghost use Rattle.qw_types.specs.declared.value.Val.TheVariants.{Num};
ghost use Rattle.qw_linear.specs.Memory.{AreOctets};
ghost use Rattle.qw_module.specs.declared.instruction.Instr.TheVariants as i;
ghost use Rattle.qw_module.specs.declared.instruction.Op.TheVariants as o;
ghost use Rattle.qw_module.specs.declared.module.Function.{Function};
ghost use Rattle.qw_module.specs.declared.module.Import.TheVariants as import;
ghost use Rattle.qw_module.specs.declared.module.Module.{Module};
ghost use Rattle.qw_module.specs.declared.trap.Trap.{Trap};
ghost use Rattle.qw_module.specs.Execution.{Config, Running, Returned, Raised, Trapped};
ghost use Rattle.qw_module.specs.Start.{weight};
ghost use Rattle.qw_module.specs.Syntax.{done, op, call};
ghost use Rattle.qw_module.specs.Validity.{code_of_body, sequences_of};
ghost use Rattle.qw_meaning.specs.Outcome.{Outcome, Rows, Raises};
ghost use Rattle.qw_map.specs.Areas.{World};
ghost use Rattle.qw_map.specs.Layout.{Layout, rows_at};
ghost use Rattle.qw_map.specs.Runs.{Moment};
ghost use Rattle.qw_map.specs.Turns as turns;
ghost use Rattle.qw_map.specs.Turns.{Done, Exception, Pages, Steps};
ghost use Rattle.qw_promise.specs.Compiled.{module_weight, weight_of, bound, raised_for, Answers, AnswersAt, GoesWith};
ghost use Rattle.qw_promise.specs.Promise.{Promise};
ghost use Rattle.qw_promise.specs.WorkedQueries.{above_five, of_integers, three_rows};

/// With `SELECT A FROM T WHERE A > 5`, T being table 0, goes a layout of its column A and one whole number, and one that uses no column;
/// not one with a column of another table, of another type, that may be null, or that T hasn't, nor one whose cells are a date, two
/// numbers or a number of another scale. A layout of 65,472 octets of texts has a descriptor of a page, and goes with it; one of an octet
/// more doesn't, nor with anything else, and none goes with anything whose texts have what is no octet.
pub fn layouts_that_go_with_a_query()
    ensures goes { GoesWith (above_five 1) of_integers }
    ensures no_column { GoesWith (above_five 1) (record of_integers { columns = [] }) }
    ensures other_table { GoesWith (above_five 1) (record of_integers { columns = record { table = 1; column = 0; ty = Integer; not_null = true } ∷ [] }) → ⊥ }
    ensures other_type { GoesWith (above_five 1) (record of_integers { columns = record { table = 0; column = 0; ty = Date; not_null = true } ∷ [] }) → ⊥ }
    ensures nullable { GoesWith (above_five 1) (record of_integers { columns = record { table = 0; column = 0; ty = Integer; not_null = false } ∷ [] }) → ⊥ }
    ensures past_the_table { GoesWith (above_five 1) (record of_integers { columns = record { table = 0; column = 1; ty = Integer; not_null = true } ∷ [] }) → ⊥ }
    ensures other_kind { GoesWith (above_five 1) (record of_integers { cells = kind.Date ∷ [] }) → ⊥ }
    ensures two_cells { GoesWith (above_five 1) (record of_integers { cells = kind.Number 0 ∷ kind.Number 0 ∷ [] }) → ⊥ }
    ensures other_scale { GoesWith (above_five 1) (record of_integers { cells = kind.Number 2 ∷ [] }) → ⊥ }
    ensures page_of_texts { (literals : List ℕ) → AreOctets literals → length literals ≡ 65472 → GoesWith (above_five 1) (record of_integers { columns = []; literals = literals }) }
    ensures past_a_page { (promise : Promise) (literals : List ℕ) (cells : List Kind) → length literals ≡ 65473 → GoesWith promise (record { columns = []; literals = literals; cells = cells }) → ⊥ }
    ensures no_octet { (promise : Promise) (cells : List Kind) → GoesWith promise (record { columns = []; literals = 256 ∷ []; cells = cells }) → ⊥ }
{}

/// A function of 87 instructions executes at most 87 * (1 + 4) = 435 over three rows of which one is found, 87 * (1 + 6) = 609 where all
/// are, and 87 over none.
pub fn bound_of_three_rows()
    ensures one_found { (m : Module) (number : ℕ) → weight_of m number ≡ 87 → bound (above_five 1) three_rows m number ≡ 435 }
    ensures all_found { (m : Module) (number : ℕ) → weight_of m number ≡ 87 → bound (above_five 3) three_rows m number ≡ 609 }
    ensures no_rows { (m : Module) (number : ℕ) → weight_of m number ≡ 87 → bound (above_five 0) [] m number ≡ 87 }
{}

/// A numbered body counts as the code that it stands for: a block around a loop of two instructions, and a branch, are 5; a
/// choice whose arms are one sequence of two instructions counts it twice. A `local.tee` between two instructions counts as two, so
/// that they are 4.
pub fn weights_of_bodies()
    ensures tee { weight (op (o.LocalGet 0) (op (o.LocalTee 1) (op (o.LocalSet 0) done))) ≡ 4 }
    ensures around { (m : Module) (f : Function) → m.functions.items ≡ f ∷ [] →
        sequences_of f.body ≡ record {
          each = (i.Op (o.LocalGet 0) ∷ i.BrIf 0 ∷ []) ∷ (i.Loop None 0 ∷ []) ∷ (i.Block None 1 ∷ i.Br 0 ∷ []) ∷ [];
          labels = [];
        } → weight_of m 0 ≡ 5 }
    ensures twice { (m : Module) (f : Function) → m.functions.items ≡ f ∷ [] →
        sequences_of f.body ≡ record {
          each = (i.Op (o.LocalGet 0) ∷ i.Br 0 ∷ []) ∷ (i.Op (o.LocalGet 0) ∷ i.If None 0 (Some 0) ∷ []) ∷ [];
          labels = [];
        } → weight_of m 0 ≡ 6 }
{}

/// A module's functions count together. Each has its own number, and counts with the functions that it calls, as often as it
/// calls them: the imported one counts nothing, so the first function has 3 instructions, and the second, which calls the first
/// twice, has 4 + 2 * 3 = 10 with it. Nor does the other one count that may be imported, by which pages are asked for: the call itself is an
/// instruction as any other.
pub fn weight_of_two_functions()
    ensures together { (m : Module) (f g : Function) → m.functions.items ≡ f ∷ g ∷ [] →
        weight (code_of_body f.body) ≡ 3 → weight (code_of_body g.body) ≡ 4 → module_weight m ≡ 7 }
    ensures first { (m : Module) (f g : Function) → m.imports.items ≡ import.Raise 0 ∷ [] → m.functions.items ≡ f ∷ g ∷ [] →
        code_of_body f.body ≡ op (o.LocalGet 0) (op (o.LocalGet 0) (call 0 done)) → weight_of m 0 ≡ 3 }
    ensures second { (m : Module) (f g : Function) → m.imports.items ≡ import.Raise 0 ∷ [] → m.functions.items ≡ f ∷ g ∷ [] →
        code_of_body f.body ≡ op (o.LocalGet 0) (op (o.LocalGet 0) (call 0 done)) →
        code_of_body g.body ≡ op (o.LocalGet 0) (call 1 (op (o.LocalGet 0) (call 1 done))) → weight_of m 1 ≡ 10 }
    ensures asked { (m : Module) (f : Function) → m.imports.items ≡ import.Raise 0 ∷ import.Pages 1 ∷ [] → m.functions.items ≡ f ∷ [] →
        code_of_body f.body ≡ op (o.LocalGet 0) (call 1 (op (o.LocalSet 0) done)) → weight_of m 0 ≡ 3 }
    ensures no_third { (m : Module) (f g : Function) → m.functions.items ≡ f ∷ g ∷ [] → weight_of m 2 ≡ 0 }
{}

/// "Division by zero" is raised as 1, "numeric value out of range" as 2.
pub fn codes_that_are_raised()
    ensures division { raised_for DivZero ≡ 1 }
    ensures range { raised_for OutOfRange ≡ 2 }
{}

/// Done answers where no request was refused and the result rows are those of the outcome; not with other rows, or with none that can be
/// read, not after a refused request, and not where the outcome is an exception.
pub fn returns_that_answer()
    ensures answer { (layout : Layout) (most pages descriptor : ℕ) (w : World) (memory : List ℕ) → w.refused ≡ None →
        rows_at layout w memory descriptor ≡ Some ((Num (pos 7) ∷ []) ∷ []) →
        Answers (Rows ((Num (pos 7) ∷ []) ∷ [])) layout most pages descriptor w memory Done }
    ensures other_rows { (layout : Layout) (most pages descriptor : ℕ) (w : World) (memory : List ℕ) →
        rows_at layout w memory descriptor ≡ Some ((Num (pos 4) ∷ []) ∷ []) →
        Answers (Rows ((Num (pos 7) ∷ []) ∷ [])) layout most pages descriptor w memory Done → ⊥ }
    ensures no_rows { (layout : Layout) (most pages descriptor : ℕ) (w : World) (memory : List ℕ) →
        rows_at layout w memory descriptor ≡ None →
        Answers (Rows ((Num (pos 7) ∷ []) ∷ [])) layout most pages descriptor w memory Done → ⊥ }
    ensures refused { (layout : Layout) (most pages descriptor : ℕ) (w : World) (memory : List ℕ) → w.refused ≡ Some 1 →
        Answers (Rows ((Num (pos 7) ∷ []) ∷ [])) layout most pages descriptor w memory Done → ⊥ }
    ensures raised { (layout : Layout) (most pages descriptor : ℕ) (w : World) (memory : List ℕ) →
        Answers (Raises (DivZero ∷ [])) layout most pages descriptor w memory Done → ⊥ }
{}

/// An exception answers where the outcome has it, whichever it is of several; not another one, and not where the outcome is rows.
pub fn exceptions_that_answer()
    ensures first { (layout : Layout) (most pages descriptor : ℕ) (w : World) (memory : List ℕ) → w.refused ≡ None →
        Answers (Raises (DivZero ∷ OutOfRange ∷ [])) layout most pages descriptor w memory (Exception 1) }
    ensures second { (layout : Layout) (most pages descriptor : ℕ) (w : World) (memory : List ℕ) → w.refused ≡ None →
        Answers (Raises (DivZero ∷ OutOfRange ∷ [])) layout most pages descriptor w memory (Exception 2) }
    ensures other { (layout : Layout) (most pages descriptor : ℕ) (w : World) (memory : List ℕ) →
        Answers (Raises (DivZero ∷ [])) layout most pages descriptor w memory (Exception 2) → ⊥ }
    ensures none { (layout : Layout) (most pages descriptor : ℕ) (w : World) (memory : List ℕ) →
        Answers (Raises []) layout most pages descriptor w memory (Exception 1) → ⊥ }
    ensures no_code { (layout : Layout) (most pages descriptor code : ℕ) (w : World) (memory : List ℕ) → 3 ≤ code →
        Answers (Raises (DivZero ∷ OutOfRange ∷ [])) layout most pages descriptor w memory (Exception code) → ⊥ }
    ensures refused { (out : Outcome) (layout : Layout) (most pages descriptor code asked : ℕ) (w : World) (memory : List ℕ) → w.refused ≡ Some asked →
        Answers out layout most pages descriptor w memory (Exception code) → ⊥ }
    ensures rows { (layout : Layout) (most pages descriptor code : ℕ) (w : World) (memory : List ℕ) (bag : List (List Val)) →
        Answers (Rows bag) layout most pages descriptor w memory (Exception code) → ⊥ }
{}

/// Where the limit is one page, held, and one more was refused, this end answers; not where the page was within the limit, where it would
/// have led past the page bound of 2, or where other pages are told. A limit of instructions below the bound of 435 answers, whatever
/// the outcome, and one at the bound doesn't. A trap never answers.
pub fn limits_that_answer()
    ensures past_the_limit { (out : Outcome) (layout : Layout) (most descriptor : ℕ) (w : World) (memory : List ℕ) → w.held ≡ 1 → w.limit ≡ 1 →
        Answers out layout most 2 descriptor w memory (Pages 1 1 1) }
    ensures within_the_limit { (out : Outcome) (layout : Layout) (most descriptor : ℕ) (w : World) (memory : List ℕ) →
        Answers out layout most 2 descriptor w memory (Pages 1 1 2) → ⊥ }
    ensures past_the_bound { (out : Outcome) (layout : Layout) (most descriptor limit : ℕ) (w : World) (memory : List ℕ) →
        Answers out layout most 2 descriptor w memory (Pages 2 1 limit) → ⊥ }
    ensures other_pages { (out : Outcome) (layout : Layout) (most descriptor : ℕ) (w : World) (memory : List ℕ) → w.held ≡ 2 →
        Answers out layout most 2 descriptor w memory (Pages 1 1 1) → ⊥ }
    ensures other_limit { (out : Outcome) (layout : Layout) (most descriptor : ℕ) (w : World) (memory : List ℕ) → w.limit ≡ 2 →
        Answers out layout most 2 descriptor w memory (Pages 1 1 1) → ⊥ }
    ensures steps { (out : Outcome) (layout : Layout) (pages descriptor : ℕ) (w : World) (memory : List ℕ) →
        Answers out layout 435 pages descriptor w memory (Steps 434) }
    ensures steps_at_the_bound { (out : Outcome) (layout : Layout) (pages descriptor : ℕ) (w : World) (memory : List ℕ) →
        Answers out layout 435 pages descriptor w memory (Steps 435) → ⊥ }
    ensures traps { (out : Outcome) (layout : Layout) (most pages descriptor : ℕ) (w : World) (memory : List ℕ) →
        Answers out layout most pages descriptor w memory turns.Trap → ⊥ }
{}

/// A run that raised 3 answers as the last refused request says, and doesn't where none was refused; nor does one that raised another code
/// than 1, 2 and 3, one that trapped, or one that isn't over.
pub fn states_that_answer()
    ensures past_the_limit { (out : Outcome) (layout : Layout) (most descriptor : ℕ) (b : Moment) → b.state ≡ Raised 3 → b.world.refused ≡ Some 1 →
        b.world.held ≡ 1 → b.world.limit ≡ 1 → AnswersAt out layout most 2 descriptor b }
    ensures not_asked { (out : Outcome) (layout : Layout) (most pages descriptor : ℕ) (b : Moment) → b.state ≡ Raised 3 → b.world.refused ≡ None →
        AnswersAt out layout most pages descriptor b → ⊥ }
    ensures raised { (layout : Layout) (most pages descriptor : ℕ) (b : Moment) → b.state ≡ Raised 2 → b.world.refused ≡ None →
        AnswersAt (Raises (OutOfRange ∷ [])) layout most pages descriptor b }
    ensures other_code { (out : Outcome) (layout : Layout) (most pages descriptor : ℕ) (b : Moment) → b.state ≡ Raised 4 →
        AnswersAt out layout most pages descriptor b → ⊥ }
    ensures trapped { (out : Outcome) (layout : Layout) (most pages descriptor : ℕ) (b : Moment) (why : Trap) → b.state ≡ Trapped why →
        AnswersAt out layout most pages descriptor b → ⊥ }
    ensures running { (out : Outcome) (layout : Layout) (most pages descriptor : ℕ) (b : Moment) (c : Config) → b.state ≡ Running c →
        AnswersAt out layout most pages descriptor b → ⊥ }
{}
