//! IN of many literals (ISO/IEC 9075:1992, 8.4): they are sorted when compiling, and a value is sought in ever smaller halves of them.

ghost use Rattle.std.specs.Prelude.{◌≡◌, ◌+◌, ◌*◌, ◌≤◌, ◌++◌, [], ◌∷◌, IfOk, IfSome, OnOk, IsTrue, length};
ghost use Rattle.qw_scalar.specs.declared.comparison.Comparison.TheVariants.{Equal};
ghost use Rattle.qw_scalar.specs.Expression.{among, comparison};
ghost use Rattle.qw_scalar.specs.Nodes.{nodes_of_all};
ghost use Rattle.qw_scalar.specs.Tree.{expression_of, expressions_of};
ghost use Rattle.qw_scalar.specs.Typing.{AreTyped};
ghost use Rattle.qw_low.specs.Steps.{expression_steps};
ghost use Rattle.qw_expr.specs.Bindings.{TakeKnown, TakesKnown, known_of};
ghost use Rattle.qw_expr.specs.Emits.{extent};
ghost use Rattle.qw_expr.specs.Inner.Made.{with_operand};
ghost use Rattle.qw_expr.specs.Inner.Search.{AreRising, EmitsHalves, EmitsSearch, MadeSought, equals_one};
ghost use Rattle.qw_expr.specs.Inner.Tests.{is_one_relation};

use crate::emitter::Emitter;
use crate::known::{Binding, date_of, number_of};
use crate::operand::Operand;
use crate::test::is_one_relation;
use qw_low::cell::Local;
use qw_low::step::LowStep;
use qw_module::instruction::{Binary, Op, Relation, Sign, ValType};
use qw_scalar::expression::{Expr, Exprs};
use qw_types::NoMemory;
use std::alloc::Global;

/// So many literals are worth a search: fewer are compared one after another.
const FEWEST: usize = 8;

/// So many literals are compared one after another where a search ends.
const LAST: usize = 3;

/// A literal among which a value is sought, and the local that holds it.
#[derive(Clone, Copy)]
pub(crate) struct Sought {
    pub(crate) value: i64,
    pub(crate) local: Local,
}

/// A literal in an operand's local, where another operand compares with it by one relation.
fn where_related(x: Operand, y: Operand, value: i64) -> Option<Sought>
    ensures { IfSome result (λ k. IsTrue (is_one_relation x y) × (k ≡ record { value = value; local = y.cell.value })) }
{
    if is_one_relation(x, y) {
        Some(Sought {
            value,
            local: y.cell.value,
        })
    } else {
        None
    }
}

/// The literal that an expression is, where a known operand compares with it by one relation.
fn literal_of(operand: &Expr, x: Operand, value: &Expr, known: &[Binding]) -> Option<Sought>
    requires typed { AreTyped (comparison Equal (expression_of operand.now) (expression_of value.now)) }
    requires known { TakesKnown (known_of known.now) (expression_of value.now) }
    ensures { IfSome result (λ k. MadeSought (with_operand (expression_of operand.now) x (known_of known.now)) (comparison Equal (expression_of operand.now) (expression_of value.now)) x (k ∷ [])) }
{
    match value {
        Expr::Number(number, scale) => {
            where_related(x, number_of(known, *number, *scale), *number)
        }
        Expr::Date(day) => where_related(x, date_of(known, *day), i64::from(*day)),
        Expr::Null
        | Expr::Text(_)
        | Expr::Column(_, _)
        | Expr::Arithmetic(_, _, _)
        | Expr::Negative(_)
        | Expr::Extract(_, _)
        | Expr::Case(_)
        | Expr::Match(_, _)
        | Expr::Call(_, _) => None,
    }
}

/// The literals that some values are, where a known operand compares with each by one relation: the last value comes first.
fn literals_of(
    alloc: Global,
    operand: &Expr,
    x: Operand,
    values: &Exprs,
    known: &[Binding],
) -> Result<Option<Vec<Sought>>, NoMemory>
    requires typed { AreTyped (among (expression_of operand.now) (expressions_of values.now)) }
    requires known { TakeKnown (known_of known.now) (among (expression_of operand.now) (expressions_of values.now)) }
    ensures made { IfOk result (λ found. IfSome found (λ sought. MadeSought (with_operand (expression_of operand.now) x (known_of known.now)) (among (expression_of operand.now) (expressions_of values.now)) x sought.items)) }
    ensures few { IfOk result (λ found. IfSome found (λ sought. length sought.items ≤ nodes_of_all values.now)) }
{
    match values {
        Exprs::Last(value) => {
            let Some(literal) = literal_of(operand, x, value, known) else {
                return Ok(None);
            };
            let mut sought = Vec::new(alloc);
            sought.push(literal)?;
            Ok(Some(sought))
        }
        Exprs::More(value, rest) => {
            let Some(literal) = literal_of(operand, x, value, known) else {
                return Ok(None);
            };
            let Some(mut sought) = literals_of(alloc, operand, x, rest, known)? else {
                return Ok(None);
            };
            sought.push(literal)?;
            Ok(Some(sought))
        }
    }
}

/// The literals of IN, the least first, where there are enough for a search.
pub(crate) fn sorted_literals(
    alloc: Global,
    operand: &Expr,
    x: Operand,
    values: &Exprs,
    known: &[Binding],
) -> Result<Option<Vec<Sought>>, NoMemory>
    requires typed { AreTyped (among (expression_of operand.now) (expressions_of values.now)) }
    requires known { TakeKnown (known_of known.now) (among (expression_of operand.now) (expressions_of values.now)) }
    ensures made { IfOk result (λ found. IfSome found (λ sought. MadeSought (with_operand (expression_of operand.now) x (known_of known.now)) (among (expression_of operand.now) (expressions_of values.now)) x sought.items)) }
    ensures rising { IfOk result (λ found. IfSome found (λ sought. AreRising sought.items)) }
    ensures few { IfOk result (λ found. IfSome found (λ sought. (1 ≤ length sought.items) × (length sought.items ≤ nodes_of_all values.now))) }
{
    let Some(mut sought) = literals_of(alloc, operand, x, values, known)? else {
        return Ok(None);
    };
    if sought.len() < FEWEST {
        return Ok(None);
    }
    sought.sort_by(|one, other| one.value.cmp(&other.value))?;
    Ok(Some(sought))
}

impl Emitter {
    /// Adds the word that tells whether a local equals one of the literals'.
    fn equals_one(&mut self, x: Local, sought: &[Sought]) -> Result<(), NoMemory>
        requires { 1 ≤ length sought.now }
        ensures code { OnOk result (self.new.block.code.items ≡ self.old.block.code.items ++ expression_steps (equals_one x sought.now)) }
        ensures same { OnOk result ((self.new.first ≡ self.old.first) × (self.new.own.items ≡ self.old.own.items)) }
        ensures short { OnOk result (extent self.new + 1 ≤ extent self.old + 4 * length sought.now) }
    {
        let Some((first, rest)) = sought.split_first() else {
            unreachable!()
        };
        self.block.code.extend_from_slice(&[
            LowStep::Op(Op::LocalGet(x)),
            LowStep::Op(Op::LocalGet(first.local)),
            LowStep::Op(Op::Relation(ValType::I64, Relation::Eq)),
        ])?;
        if rest.is_empty() {
            return Ok(());
        }
        self.equals_one(x, rest)?;
        self.block
            .push(LowStep::Op(Op::Binary(ValType::I32, Binary::Or)))
    }

    /// Adds a search among literals in their order, which leaves in a local whether the value of another is one of them: those of the lower
    /// half where it is less than the first one of the upper half, and else those of the upper half.
    fn search_halves(&mut self, x: Local, sought: &[Sought], out: Local) -> Result<(), NoMemory>
        requires some { 1 ≤ length sought.now }
        requires rising { AreRising sought.now }
        ensures emits { OnOk result (EmitsHalves x out sought.now self.old self.new) }
        ensures short { OnOk result (extent self.new + 6 ≤ extent self.old + 10 * length sought.now) }
    {
        if sought.len() <= LAST {
            self.equals_one(x, sought)?;
            return self.block.push(LowStep::Op(Op::LocalSet(out)));
        }
        let (lower, upper) = sought.split_at(sought.len() / 2);
        let Some((middle, _)) = upper.split_first() else {
            unreachable!()
        };
        self.block.code.extend_from_slice(&[
            LowStep::Op(Op::LocalGet(x)),
            LowStep::Op(Op::LocalGet(middle.local)),
            LowStep::Op(Op::Relation(ValType::I64, Relation::Lt(Sign::Signed))),
            LowStep::If,
        ])?;
        self.search_halves(x, lower, out)?;
        self.block.push(LowStep::Else)?;
        self.search_halves(x, upper, out)?;
        self.block.push(LowStep::End)
    }

    /// The same in a local of its own.
    pub(crate) fn search(&mut self, x: Local, sought: &[Sought]) -> Result<Local, NoMemory>
        requires some { 1 ≤ length sought.now }
        requires rising { AreRising sought.now }
        ensures emits { IfOk result (λ out. EmitsSearch x sought.now self.old self.new out) }
        ensures short { OnOk result (extent self.new + 5 ≤ extent self.old + 10 * length sought.now) }
    {
        let out = self.fresh(ValType::I32)?;
        self.search_halves(x, sought, out)?;
        Ok(out)
    }
}
