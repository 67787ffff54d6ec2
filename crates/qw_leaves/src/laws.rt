//! What holds of all leaves of a tree holds of those of what it stands for, and worked cases. No function here computes anything.

ghost use Rattle.std.specs.Prelude.{◌≡◌, [], ◌∷◌, Bool, IsTrue, pos};
ghost use Rattle.std.specs.List.{AllByRecursion};
ghost use Rattle.qw_types.specs.declared.kind.Kind.TheVariants as kind;
ghost use Rattle.qw_types.specs.declared.value.Ty.TheVariants as type;
ghost use Rattle.qw_types.specs.declared.value.Val.TheVariants as val;
ghost use Rattle.qw_scalar.specs.declared.expression.Cond.{Cond};
ghost use Rattle.qw_scalar.specs.declared.expression.Expr.{Expr};
ghost use Rattle.qw_scalar.specs.declared.expression.Predicate.TheVariants.{IsNull};
ghost use Rattle.qw_scalar.specs.Expression.{Expression, between, case, cell, coalesced, column, found, given, last, more, nil, number, operand, parameter, predicate, unless_among};
ghost use Rattle.qw_scalar.specs.Tree.{condition_of, expression_of};
ghost use Rattle.qw_leaves.specs.declared.leaf.Leaf.{Leaf};
ghost use Rattle.qw_leaves.specs.declared.leaf.Leaf.TheVariants as leaf;
ghost use Rattle.qw_leaves.specs.Leaves.{HasLeaves, HaveLeaves, condition_leaves, leaves, leaves_in, leaves_within};

/// What holds of each leaf of a tree holds of each of what it stands for, and the other way round; of those it holds one by one just where it
/// holds of their list.
pub fn leaves_of_trees()
    ensures of_expression { (holds : Leaf → Bool) (e : Expr) → AllByRecursion (λ l. IsTrue (holds l)) (leaves_in e) → HasLeaves (λ l. IsTrue (holds l)) (expression_of e) }
    ensures of_tree { (holds : Leaf → Bool) (e : Expr) → HasLeaves (λ l. IsTrue (holds l)) (expression_of e) → AllByRecursion (λ l. IsTrue (holds l)) (leaves_in e) }
    ensures of_condition { (holds : Leaf → Bool) (c : Cond) → AllByRecursion (λ l. IsTrue (holds l)) (leaves_within c) → HaveLeaves (λ l. IsTrue (holds l)) (condition_of c) }
    ensures of_condition_tree { (holds : Leaf → Bool) (c : Cond) → HaveLeaves (λ l. IsTrue (holds l)) (condition_of c) → AllByRecursion (λ l. IsTrue (holds l)) (leaves_within c) }
    ensures of_list { (holds : Leaf → Bool) (e : Expression) → AllByRecursion (λ l. IsTrue (holds l)) (leaves e) → HasLeaves (λ l. IsTrue (holds l)) e }
    ensures listed { (holds : Leaf → Bool) (e : Expression) → HasLeaves (λ l. IsTrue (holds l)) e → AllByRecursion (λ l. IsTrue (holds l)) (leaves e) }
{}

/// `ID IS NULL` has the leaf ID; `ID BETWEEN 1 AND 2`, which is `ID >= 1 AND ID <= 2`, has ID twice, and so have `COALESCE(ID, 1)` and
/// `NULLIF(ID, 1)`, which test their first argument first (ISO/IEC 9075:1992, 6.9, 8.3). What is filled in is no leaf; `ID IN (SELECT ..)` with the
/// key PRICE has the two columns, and a column with a bound is the column (7.11, 8.4).
pub fn worked_leaves()
    ensures test { condition_leaves (predicate IsNull (column 0 type.Integer)) ≡ leaf.Column 0 type.Integer ∷ [] }
    ensures range { condition_leaves (between (column 0 type.Integer) (number (pos 1) 0) (number (pos 2) 0))
        ≡ leaf.Column 0 type.Integer ∷ leaf.Number (pos 1) 0 ∷ leaf.Column 0 type.Integer ∷ leaf.Number (pos 2) 0 ∷ [] }
    ensures abbreviation { leaves (unless_among (more (column 0 type.Integer) (last (number (pos 1) 0)))) ≡ leaf.Column 0 type.Integer ∷ leaf.Number (pos 1) 0 ∷ leaf.Column 0 type.Integer ∷ [] }
    ensures choice { leaves (case (coalesced (more (column 0 type.Integer) (last (number (pos 1) 0)))))
        ≡ leaf.Column 0 type.Integer ∷ leaf.Column 0 type.Integer ∷ leaf.Number (pos 1) 0 ∷ [] }
    ensures filled_in { (leaves (given (parameter 0) (kind.Number 0) 9 (val.Num (pos 2))) ≡ []) × (leaves (cell 0 type.Integer 9) ≡ leaf.Column 0 type.Integer ∷ []) }
    ensures found { condition_leaves (found 0 (operand (column 0 type.Integer) nil) (operand (column 1 (type.Decimal 9 2)) nil) (kind.Number 2 ∷ kind.Number 0 ∷ []) ((val.Null ∷ val.Null ∷ []) ∷ []))
        ≡ leaf.Column 0 type.Integer ∷ leaf.Column 1 (type.Decimal 9 2) ∷ [] }
{}
