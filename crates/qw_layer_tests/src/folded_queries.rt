//! What specifications become when they are folded. The trees were found by hand.

ghost use Rattle.std.specs.Prelude.{◌≡◌, pos, [], ◌∷◌, IfOk};
ghost use Rattle.qw_types.specs.declared.value.Ty.TheVariants as type;
ghost use Rattle.qw_scalar.specs.declared.expression.Operator.TheVariants.{Add, Divide, Multiply, Subtract};
ghost use Rattle.qw_scalar.specs.declared.comparison.Comparison.TheVariants.{Less};
ghost use Rattle.qw_scalar.specs.Expression.{arithmetic, between, column, comparison, number};
ghost use Rattle.qw_meaning.specs.Select.{IsSpecification, specification_of};
ghost use Rattle.qw_scalar.specs.Tree.{condition_of, expression_of};
ghost use Rattle.qw_meaning.specs.WorkedQueries.{nullable};

use crate::assertions::assert_text;
use qw_fold::fold::fold;
use qw_meaning::Select;
use qw_scalar::comparison::Comparison;
use qw_scalar::expression::{Cond, Expr, Operator};
use qw_types::{ColumnType, NoMemory, Ty};
use std::alloc::{AllocError, Global};
use std::test::Fail;

/// `PRICE`, the only column of its table.
fn price(alloc: Global) -> Result<Box<Expr>, NoMemory>
    ensures { IfOk result (λ made. expression_of made.value ≡ column 0 (type.Decimal 9 2)) }
{
    let ty = Ty::Decimal {
        precision: 9,
        scale: 2,
    };
    Ok(Box::new(alloc, Expr::Column(0, ty))?)
}

/// A number of scale 0.
fn integer(alloc: Global, value: i64) -> Result<Box<Expr>, NoMemory>
    ensures { IfOk result (λ made. expression_of made.value ≡ number value 0) }
{
    Ok(Box::new(alloc, Expr::Number(value, 0))?)
}

/// `2 * 3 + 1`.
fn seven(alloc: Global) -> Result<Expr, NoMemory>
    ensures { IfOk result (λ made. expression_of made ≡ arithmetic Add (arithmetic Multiply (number (pos 2) 0) (number (pos 3) 0)) (number (pos 1) 0)) }
{
    let six = Expr::Arithmetic(Operator::Multiply, integer(alloc, 2)?, integer(alloc, 3)?);
    let six = Box::new(alloc, six)?;
    Ok(Expr::Arithmetic(Operator::Add, six, integer(alloc, 1)?))
}

/// What a specification over the table of PRICE becomes.
fn folded(alloc: Global, conjuncts: Vec<Cond>, list: Vec<Expr>) -> Result<Select, NoMemory>
    requires { IsSpecification (specification_of (record { table = 0; columns = nullable (type.Decimal 9 2) ∷ []; conjuncts = conjuncts.items; items = list.items })) }
{
    let price = ColumnType {
        ty: Ty::Decimal {
            precision: 9,
            scale: 2,
        },
        not_null: false,
    };
    fold(
        alloc,
        &Select::new(0, vec![in alloc; price]?, conjuncts, list),
    )
}

/// `PRICE < 10`.
fn below_ten(alloc: Global) -> Result<Cond, NoMemory>
    ensures { IfOk result (λ made. condition_of made ≡ comparison Less (column 0 (type.Decimal 9 2)) (number (pos 10) 0)) }
{
    Ok(Cond::Compare(Comparison::Less, price(alloc)?, integer(alloc, 10)?))
}

/// `1 / 0`.
fn by_zero(alloc: Global) -> Result<Expr, NoMemory>
    ensures { IfOk result (λ made. expression_of made ≡ arithmetic Divide (number (pos 1) 0) (number (pos 0) 0)) }
{
    let one = integer(alloc, 1)?;
    Ok(Expr::Arithmetic(Operator::Divide, one, integer(alloc, 0)?))
}

/// `PRICE - 1`.
fn less_one(alloc: Global) -> Result<Expr, NoMemory>
    ensures { IfOk result (λ made. expression_of made ≡ arithmetic Subtract (column 0 (type.Decimal 9 2)) (number (pos 1) 0)) }
{
    let price = price(alloc)?;
    Ok(Expr::Arithmetic(Operator::Subtract, price, integer(alloc, 1)?))
}

/// `SELECT 2 * 3 + 1, 1 / 0, PRICE - 1 FROM T WHERE PRICE < 10`.
fn sums(alloc: Global) -> Result<Select, NoMemory> {
    let conjuncts = vec![in alloc; below_ten(alloc)?]?;
    let items = vec![in alloc; seven(alloc)?, by_zero(alloc)?, less_one(alloc)?]?;
    folded(alloc, conjuncts, items)
}

/// `PRICE BETWEEN 1 AND 99999999999999999`.
fn within(alloc: Global) -> Result<Cond, NoMemory>
    ensures { IfOk result (λ made. condition_of made ≡ between (column 0 (type.Decimal 9 2)) (number (pos 1) 0) (number (pos 99999999999999999) 0)) }
{
    let least = integer(alloc, 1)?;
    let greatest = integer(alloc, 99_999_999_999_999_999)?;
    Ok(Cond::Between(price(alloc)?, least, greatest))
}

/// `SELECT - 5 FROM T WHERE PRICE BETWEEN 1 AND 99999999999999999`, whose upper bound has no 18 digits at the scale of PRICE.
fn bounds(alloc: Global) -> Result<Select, NoMemory> {
    let conjuncts = vec![in alloc; within(alloc)?]?;
    let minus_five = Expr::Negative(integer(alloc, 5)?);
    folded(alloc, conjuncts, vec![in alloc; minus_five]?)
}

/// A number or a column; of other trees that they are none.
fn leaf(alloc: Global, expression: &Expr) -> Result<String, AllocError> {
    match expression {
        Expr::Number(value, scale) => format!(in alloc; "Number({value}, {scale})"),
        Expr::Column(index, ty) => format!(in alloc; "Column({index}, {ty:?})"),
        _ => String::from_str(alloc, "a tree"),
    }
}

/// A leaf, or an operator with two of them.
fn shown(alloc: Global, expression: &Expr) -> Result<String, AllocError> {
    match expression {
        Expr::Arithmetic(operator, left, right) => {
            let (left, right) = (leaf(alloc, left)?, leaf(alloc, right)?);
            format!(in alloc; "{operator:?}({left}, {right})")
        }
        other => leaf(alloc, other),
    }
}

/// A comparison or BETWEEN of leaves; of other conditions that they are none.
fn condition(alloc: Global, condition: &Cond) -> Result<String, AllocError> {
    match condition {
        Cond::Compare(comparison, left, right) => {
            let (left, right) = (leaf(alloc, left)?, leaf(alloc, right)?);
            format!(in alloc; "{comparison:?}({left}, {right})")
        }
        Cond::Between(operand, least, greatest) => {
            let (least, greatest) = (leaf(alloc, least)?, leaf(alloc, greatest)?);
            let operand = leaf(alloc, operand)?;
            format!(in alloc; "Between({operand}, {least}, {greatest})")
        }
        _ => String::from_str(alloc, "a condition"),
    }
}

/// A specification's conjuncts and its items, each with a line end.
fn printed(alloc: Global, select: &Select) -> Result<String, AllocError> {
    let mut text = String::new(alloc);
    for conjunct in select.conjuncts() {
        text.push_str(condition(alloc, conjunct)?.as_str())?;
        text.push_str("\n")?;
    }
    for item in select.items() {
        text.push_str(shown(alloc, item)?.as_str())?;
        text.push_str("\n")?;
    }
    Ok(text)
}

#[test]
fn folded_sums(rt: HostRuntime) -> Result<(), Fail> {
    let text = printed(rt.alloc(), &sums(rt.alloc())?)?;
    let wanted = "Less(Column(0, Decimal { precision: 9, scale: 2 }), Number(1000, 2))
Number(7, 0)
Divide(Number(1, 0), Number(0, 0))
Subtract(Column(0, Decimal { precision: 9, scale: 2 }), Number(100, 2))
";
    assert_text(&rt, &text, wanted);
    Ok(())
}

#[test]
fn folded_bounds(rt: HostRuntime) -> Result<(), Fail> {
    let text = printed(rt.alloc(), &bounds(rt.alloc())?)?;
    let wanted =
        "Between(Column(0, Decimal { precision: 9, scale: 2 }), Number(100, 2), Number(99999999999999999, 0))
Number(-5, 0)
";
    assert_text(&rt, &text, wanted);
    Ok(())
}
