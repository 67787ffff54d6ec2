//! One test of null words before a condition that is unknown where a column of its is null, and raises nothing then (ISO/IEC 9075:1992, 8.2 to 8.4).
//!
//! A comparison is such a condition where no operator of its operands may raise, by the magnitudes of their columns and literals: what is
//! skipped then raises nothing. Beside a column or a literal that can't be null an operand's last operator may raise, since that is applied
//! where neither of its own operands is null. BETWEEN and IN are such conditions where their first operand is such an operand, and the
//! others are columns or literals; NOT of such a condition is too. AND and OR aren't: false and unknown is false.

ghost use Rattle.std.specs.Prelude.{◌≡◌, ℕ, ◌+◌, ◌*◌, ◌≤◌, ◌++◌, List, [], ◌∷◌, IsTrue, IfOk, IfSome, OnOk, length};
ghost use Rattle.qw_scalar.specs.declared.comparison.Comparison.{Comparison};
ghost use Rattle.qw_scalar.specs.Expression.{Expression, among, between, comparison};
ghost use Rattle.qw_scalar.specs.Nodes.{nodes_of};
ghost use Rattle.qw_scalar.specs.Tree.{condition_of, expression_of, expressions_of};
ghost use Rattle.qw_scalar.specs.Typing.{AreTyped, IsTyped};
ghost use Rattle.qw_module.specs.declared.instruction.Op.TheVariants as o;
ghost use Rattle.qw_module.specs.declared.instruction.Const.TheVariants as const;
ghost use Rattle.qw_low.specs.declared.step.LowStep.TheVariants as step;
ghost use Rattle.qw_low.specs.Steps.{expression_steps};
ghost use Rattle.qw_expr.specs.declared.emitter.Emitter.{Emitter};
ghost use Rattle.qw_expr.specs.Bindings.{IsAmong, IsServed, TakeKnown, TakesKnown, known_of, named};
ghost use Rattle.qw_expr.specs.Computes.{Known};
ghost use Rattle.qw_expr.specs.Emits.{extent, free_of};
ghost use Rattle.qw_expr.specs.Tests.{EmitsTest, tested};
ghost use Rattle.qw_expr.specs.Inner.Guards.{AreKept, Calm, Gathers, IsGuarded, Keeps, Nulled, Strict, any_of, null_words, sure_operand};

use crate::bounds::Bounds;
use crate::emitter::Emitter;
use crate::known::{Binding, Leaf, column_of, date_of, number_of};
use crate::operand::Operand;
use crate::test::{Test, test_of};
use qw_low::cell::{Cell, Local};
use qw_low::step::LowStep;
use qw_module::instruction::{Binary, Const, Op, ValType};
use qw_scalar::expression::{Cond, Expr, Exprs};
use qw_types::NoMemory;
use std::alloc::Global;

/// What is known of the columns and the literals of a condition where none of its null words is 1, and these words.
#[derive(Drop)]
pub(crate) struct Sure {
    pub(crate) leaves: Vec<Binding>,
    pub(crate) nulls: Vec<Local>,
}

/// The column, the number or the date that an expression is, as it is known: none of any other expression.
fn leaf_of(expr: &Expr, known: &[Binding]) -> Option<Binding>
    requires known { TakesKnown (known_of known.now) (expression_of expr.now) }
    ensures name { IfSome result (λ out. named out.leaf ≡ expression_of expr.now) }
    ensures known { IfSome result (λ out. IsAmong (record { expression = expression_of expr.now; operand = out.operand }) (known_of known.now)) }
{
    match expr {
        Expr::Number(value, scale) => Some(Binding {
            leaf: Leaf::Number(*value, *scale),
            operand: number_of(known, *value, *scale),
        }),
        Expr::Date(day) => Some(Binding {
            leaf: Leaf::Date(*day),
            operand: date_of(known, *day),
        }),
        Expr::Column(index, ty) => Some(Binding {
            leaf: Leaf::Column(*index, *ty),
            operand: column_of(known, *index, *ty),
        }),
        Expr::Null
        | Expr::Text(_)
        | Expr::Arithmetic(_, _, _)
        | Expr::Negative(_)
        | Expr::Extract(_, _)
        | Expr::Case(_)
        | Expr::Match(_, _)
        | Expr::Call(_, _) => None,
    }
}

/// Whether an expression is a column, a number or a date that can't be null.
fn is_sure(expr: &Expr, known: &[Binding]) -> bool
    requires known { TakesKnown (known_of known.now) (expression_of expr.now) }
{
    match leaf_of(expr, known) {
        Some(leaf) => leaf.operand.cell.null.is_none(),
        None => false,
    }
}

impl Operand {
    /// The same value, where it isn't null.
    fn sure(self) -> Operand
        ensures { result ≡ sure_operand self }
    {
        Operand {
            cell: Cell {
                null: None,
                ..self.cell
            },
            ..self
        }
    }
}

impl Sure {
    /// Adds a column or a literal as it is where it isn't null, and its null word.
    fn add(&mut self, leaf: Binding) -> Result<(), NoMemory>
        ensures leaves { OnOk result (self.new.leaves.items ≡ self.old.leaves.items ++ record { leaf = leaf.leaf; operand = sure_operand leaf.operand } ∷ []) }
        ensures nulls { OnOk result (self.new.nulls.items ≡ self.old.nulls.items ++ null_words leaf.operand.cell.null) }
    {
        if let Some(null) = leaf.operand.cell.null {
            self.nulls.push(null)?;
        }
        let operand = leaf.operand.sure();
        self.leaves.push(Binding {
            leaf: leaf.leaf,
            operand,
        })?;
        Ok(())
    }

    /// Adds the column or the literal that an expression is.
    fn gather_leaf(&mut self, expr: &Expr, known: &[Binding]) -> Result<Option<Bounds>, NoMemory>
        requires known { TakesKnown (known_of known.now) (expression_of expr.now) }
        requires served { (n : ℕ) × IsServed n (known_of known.now) }
        ensures gathers { IfOk result (λ found. IfSome found (λ out. Gathers self.old self.new (λ leaves nulls. Calm (known_of known.now) (expression_of expr.now) leaves nulls out.scale out.most))) }
    {
        let Some(leaf) = leaf_of(expr, known) else {
            return Ok(None);
        };
        let bounds = Bounds {
            scale: leaf.operand.scale,
            most: leaf.operand.most,
        };
        self.add(leaf)?;
        Ok(Some(bounds))
    }

    /// Adds the columns and the literals of an expression, and tells within which bounds its values are: none where it may raise, or is of
    /// another form than operators on columns and literals.
    fn gather(&mut self, expr: &Expr, known: &[Binding]) -> Result<Option<Bounds>, NoMemory>
        requires typed { IsTyped (expression_of expr.now) }
        requires known { TakesKnown (known_of known.now) (expression_of expr.now) }
        requires served { (n : ℕ) × IsServed n (known_of known.now) }
        ensures gathers { IfOk result (λ found. IfSome found (λ out. Gathers self.old self.new (λ leaves nulls. Calm (known_of known.now) (expression_of expr.now) leaves nulls out.scale out.most))) }
    {
        match expr {
            Expr::Number(_, _) | Expr::Date(_) | Expr::Column(_, _) => {
                self.gather_leaf(expr, known)
            }
            Expr::Arithmetic(operator, left, right) => {
                let Some(first) = self.gather(left, known)? else {
                    return Ok(None);
                };
                let Some(second) = self.gather(right, known)? else {
                    return Ok(None);
                };
                Ok(first.operated(*operator, second))
            }
            Expr::Negative(operand) => {
                let found = self.gather(operand, known)?;
                Ok(found)
            }
            Expr::Null
            | Expr::Text(_)
            | Expr::Extract(_, _)
            | Expr::Case(_)
            | Expr::Match(_, _)
            | Expr::Call(_, _) => Ok(None),
        }
    }

    /// Adds the column or the literal that an expression is, as it is known, and tells whether it is one.
    fn keep(&mut self, expr: &Expr, known: &[Binding]) -> Result<bool, NoMemory>
        requires known { TakesKnown (known_of known.now) (expression_of expr.now) }
        ensures { IfOk result (λ kept. IsTrue kept → Gathers self.old self.new (Keeps (known_of known.now) (expression_of expr.now))) }
    {
        let Some(leaf) = leaf_of(expr, known) else {
            return Ok(false);
        };
        self.leaves.push(leaf)?;
        Ok(true)
    }

    /// Adds the columns and the literals of an expression, and tells whether it is null where one is null, and raises nothing then. Its last
    /// operator may raise, since it is applied where neither operand is null.
    fn gather_nulled(&mut self, expr: &Expr, known: &[Binding]) -> Result<bool, NoMemory>
        requires typed { IsTyped (expression_of expr.now) }
        requires known { TakesKnown (known_of known.now) (expression_of expr.now) }
        requires served { (n : ℕ) × IsServed n (known_of known.now) }
        ensures gathers { IfOk result (λ nulled. IsTrue nulled → Gathers self.old self.new (Nulled (known_of known.now) (expression_of expr.now))) }
    {
        if let Expr::Arithmetic(_, left, right) = expr {
            let Some(_) = self.gather(left, known)? else {
                return Ok(false);
            };
            let Some(_) = self.gather(right, known)? else {
                return Ok(false);
            };
            return Ok(true);
        }
        let Some(_) = self.gather(expr, known)? else {
            return Ok(false);
        };
        Ok(true)
    }

    /// Adds the columns and the literals of an expression, and beside it a column or a literal with which it is compared, on either side.
    fn gather_beside(
        &mut self,
        expr: &Expr,
        leaf: &Expr,
        known: &[Binding],
    ) -> Result<bool, NoMemory>
        requires typed { IsTyped (expression_of expr.now) }
        requires known { TakesKnown (known_of known.now) (expression_of expr.now) × TakesKnown (known_of known.now) (expression_of leaf.now) }
        requires served { (n : ℕ) × IsServed n (known_of known.now) }
        ensures gathers { IfOk result (λ strict. IsTrue strict → ((operator : Comparison) → Gathers self.old self.new (Strict (known_of known.now) (comparison operator (expression_of expr.now) (expression_of leaf.now)))
            × Gathers self.old self.new (Strict (known_of known.now) (comparison operator (expression_of leaf.now) (expression_of expr.now))))) }
    {
        if !self.gather_nulled(expr, known)? {
            return Ok(false);
        }
        self.keep(leaf, known)
    }

    /// Adds the columns and the literals of a comparison, and tells whether it is unknown where one is null.
    fn gather_comparison(
        &mut self,
        left: &Expr,
        right: &Expr,
        known: &[Binding],
    ) -> Result<bool, NoMemory>
        requires typed { IsTyped (expression_of left.now) × IsTyped (expression_of right.now) }
        requires known { TakesKnown (known_of known.now) (expression_of left.now) × TakesKnown (known_of known.now) (expression_of right.now) }
        requires served { (n : ℕ) × IsServed n (known_of known.now) }
        ensures gathers { IfOk result (λ strict. IsTrue strict → ((operator : Comparison) → Gathers self.old self.new (Strict (known_of known.now) (comparison operator (expression_of left.now) (expression_of right.now))))) }
    {
        if is_sure(right, known) {
            return self.gather_beside(left, right, known);
        }
        if is_sure(left, known) {
            return self.gather_beside(right, left, known);
        }
        let Some(_) = self.gather(left, known)? else {
            return Ok(false);
        };
        let Some(_) = self.gather(right, known)? else {
            return Ok(false);
        };
        Ok(true)
    }

    /// Adds those of BETWEEN.
    fn gather_between(
        &mut self,
        operand: &Expr,
        least: &Expr,
        greatest: &Expr,
        known: &[Binding],
    ) -> Result<bool, NoMemory>
        requires typed { AreTyped (between (expression_of operand.now) (expression_of least.now) (expression_of greatest.now)) }
        requires known { TakeKnown (known_of known.now) (between (expression_of operand.now) (expression_of least.now) (expression_of greatest.now)) }
        requires served { (n : ℕ) × IsServed n (known_of known.now) }
        ensures gathers { IfOk result (λ strict. IsTrue strict → Gathers self.old self.new (Strict (known_of known.now) (between (expression_of operand.now) (expression_of least.now) (expression_of greatest.now)))) }
    {
        if !self.gather_nulled(operand, known)? {
            return Ok(false);
        }
        if !self.keep(least, known)? {
            return Ok(false);
        }
        self.keep(greatest, known)
    }

    /// Adds some values of IN as they are known, and tells whether each is a column or a literal.
    fn keep_all(&mut self, values: &Exprs, known: &[Binding]) -> Result<bool, NoMemory>
        requires known { (x : Expression) × TakeKnown (known_of known.now) (among x (expressions_of values.now)) }
        ensures { IfOk result (λ kept. IsTrue kept → Gathers self.old self.new (AreKept (known_of known.now) (expressions_of values.now))) }
    {
        match values {
            Exprs::Last(value) => self.keep(value, known),
            Exprs::More(value, rest) => {
                if !self.keep(value, known)? {
                    return Ok(false);
                }
                self.keep_all(rest, known)
            }
        }
    }

    /// Adds those of IN.
    fn gather_in(
        &mut self,
        operand: &Expr,
        values: &Exprs,
        known: &[Binding],
    ) -> Result<bool, NoMemory>
        requires typed { AreTyped (among (expression_of operand.now) (expressions_of values.now)) }
        requires known { TakeKnown (known_of known.now) (among (expression_of operand.now) (expressions_of values.now)) }
        requires served { (n : ℕ) × IsServed n (known_of known.now) }
        ensures gathers { IfOk result (λ strict. IsTrue strict → Gathers self.old self.new (Strict (known_of known.now) (among (expression_of operand.now) (expressions_of values.now)))) }
    {
        if !self.gather_nulled(operand, known)? {
            return Ok(false);
        }
        self.keep_all(values, known)
    }

    /// Adds the columns and the literals of a condition, and tells whether it is unknown where one is null, and raises nothing then.
    fn gather_condition(&mut self, cond: &Cond, known: &[Binding]) -> Result<bool, NoMemory>
        requires typed { AreTyped (condition_of cond.now) }
        requires known { TakeKnown (known_of known.now) (condition_of cond.now) }
        requires served { (n : ℕ) × IsServed n (known_of known.now) }
        ensures gathers { IfOk result (λ strict. IsTrue strict → Gathers self.old self.new (Strict (known_of known.now) (condition_of cond.now))) }
        ensures guarded { IfOk result (λ strict. IsTrue strict → IsGuarded cond.now) }
    {
        match cond {
            Cond::Compare(_, left, right) => self.gather_comparison(left, right, known),
            Cond::Between(operand, least, greatest) => {
                self.gather_between(operand, least, greatest, known)
            }
            Cond::Not(operand) => self.gather_condition(operand, known),
            Cond::In(operand, values) => self.gather_in(operand, values, known),
            Cond::Predicate(_, _) | Cond::And(_, _) | Cond::Or(_, _) | Cond::Is(_, _) => Ok(false),
        }
    }
}

/// What is known of the columns and the literals of a condition that is unknown where one of some null words is 1, and raises nothing then:
/// none of any other condition.
pub(crate) fn sure_of(
    alloc: Global,
    cond: &Cond,
    known: &[Binding],
) -> Result<Option<Sure>, NoMemory>
    requires typed { AreTyped (condition_of cond.now) }
    requires known { TakeKnown (known_of known.now) (condition_of cond.now) }
    requires served { (n : ℕ) × IsServed n (known_of known.now) }
    ensures strict { IfOk result (λ found. IfSome found (λ out. Strict (known_of known.now) (condition_of cond.now) out.leaves.items out.nulls.items)) }
    ensures guarded { IfOk result (λ found. IfSome found (λ out. IsGuarded cond.now)) }
{
    let mut sure = Sure {
        leaves: Vec::new(alloc),
        nulls: Vec::new(alloc),
    };
    if sure.gather_condition(cond, known)? {
        Ok(Some(sure))
    } else {
        Ok(None)
    }
}

impl Emitter {
    /// Adds whether any of some null words is 1.
    fn any_null(&mut self, first: Local, rest: &[Local]) -> Result<(), NoMemory>
        ensures code { OnOk result (self.new.block.code.items ≡ self.old.block.code.items ++ expression_steps (any_of first rest.now)) }
        ensures same { OnOk result ((self.new.first ≡ self.old.first) × (self.new.own.items ≡ self.old.own.items)) }
        ensures short { OnOk result (extent self.new ≤ extent self.old + (2 * length rest.now + 1)) }
    {
        self.block.push(LowStep::Op(Op::LocalGet(first)))?;
        let Some((second, others)) = rest.split_first() else {
            return Ok(());
        };
        self.any_null(*second, others)?;
        self.block
            .push(LowStep::Op(Op::Binary(ValType::I32, Binary::Or)))
    }

    /// Begins what is done where no null word is 1, and leaves 0 in `t` where one is.
    fn begin_sure(&mut self, first: Local, rest: &[Local], t: Local) -> Result<(), NoMemory>
        ensures code { OnOk result (self.new.block.code.items ≡ self.old.block.code.items ++ (expression_steps (any_of first rest.now) ++ step.If ∷ step.Op (o.Const (const.I32 0)) ∷ step.Op (o.LocalSet t) ∷ step.Else ∷ [])) }
        ensures same { OnOk result ((self.new.first ≡ self.old.first) × (self.new.own.items ≡ self.old.own.items)) }
        ensures short { OnOk result (extent self.new ≤ extent self.old + (2 * length rest.now + 5)) }
    {
        self.any_null(first, rest)?;
        self.block.code.extend_from_slice(&[
            LowStep::If,
            LowStep::Op(Op::Const(Const::I32(0))),
            LowStep::Op(Op::LocalSet(t)),
            LowStep::Else,
        ])?;
        Ok(())
    }

    /// Ends it with a test, which is left in `t`.
    fn end_sure(&mut self, test: &Test, t: Local) -> Result<(), NoMemory>
        ensures code { OnOk result (self.new.block.code.items ≡ self.old.block.code.items ++ (expression_steps (tested test.now) ++ step.Op (o.LocalSet t) ∷ step.End ∷ [])) }
        ensures same { OnOk result ((self.new.first ≡ self.old.first) × (self.new.own.items ≡ self.old.own.items)) }
        ensures short { OnOk result (extent self.new ≤ extent self.old + (length (expression_steps (tested test.now)) + 2)) }
    {
        test.push(&mut self.block)?;
        self.block
            .code
            .extend_from_slice(&[LowStep::Op(Op::LocalSet(t)), LowStep::End])?;
        Ok(())
    }
}

/// Adds the block of a condition behind a test of its null words: the condition's test is left in a local, and 0 where a null word is 1.
pub(crate) fn emit_guarded(
    alloc: Global,
    emitter: &mut Emitter,
    cond: &Cond,
    first: Local,
    rest: &[Local],
    leaves: &[Binding],
) -> Result<Test, NoMemory>
    requires typed { AreTyped (condition_of cond.now) }
    requires known { TakeKnown (known_of leaves.now) (condition_of cond.now) }
    requires served { IsServed (free_of emitter.old) (known_of leaves.now) }
    requires few { length rest.now ≤ 7 }
    requires guarded { IsGuarded cond.now }
    ensures emits { IfOk result (λ out. (known : List Known) → Strict known (condition_of cond.now) leaves.now (first ∷ rest.now) → EmitsTest known (condition_of cond.now) emitter.old emitter.new out) }
    ensures short { OnOk result (extent emitter.new ≤ extent emitter.old + 400 * nodes_of cond.now) }
    ensures few { IfOk result (λ out. length (expression_steps (tested out)) + 1 ≤ 4 * nodes_of cond.now) }
{
    let t = emitter.fresh(ValType::I32)?;
    emitter.begin_sure(first, rest, t)?;
    let test = test_of(alloc, emitter, cond, leaves)?;
    emitter.end_sure(&test, t)?;
    Ok(Test::Local(t))
}
