//! Worked cases of the definitions, with numbers, stated as contracts. No function here computes anything.

ghost use Rattle.std.specs.Prelude.{◌≡◌, Some, [], ◌∷◌};
ghost use Rattle.qw_types.specs.declared.kind.Kind.TheVariants as kind;
ghost use Rattle.qw_operator.specs.Ends.{CanEnd, cell_kinds, value_kinds};
ghost use Rattle.qw_operator.specs.WorkedEnds.{count_all, count_each, show_price};

/// The local of table 2 is 7, so the areas that it leads to can take rows where locals are free from 8 on, and not where they are free from 7 on. A
/// table of groups finds its directory there, wherever locals are free; and so it is with a select list.
pub fn ends_that_can_be()
    ensures behind { CanEnd count_all 8 }
    ensures among { CanEnd count_all 7 → ⊥ }
    ensures table { CanEnd count_each 7 }
    ensures result { CanEnd show_price 0 }
{}

/// A select list tells the kinds of cells, and a group those of the values that are put into it.
pub fn kinds_that_are_told()
    ensures cells { cell_kinds show_price ≡ Some (kind.Number 2) ∷ [] }
    ensures no_values { value_kinds show_price ≡ [] }
    ensures no_cells { cell_kinds count_all ≡ [] }
    ensures values { value_kinds count_all ≡ Some (kind.Number 0) ∷ [] }
{}
