//! The worked queries over the tables ITEM and NOTHING, through the slow program. Their answers were found by hand.

ghost use Rattle.std.specs.Prelude.{◌≡◌, pos, [], ◌∷◌, IfOk, IsTrue, map};
ghost use Rattle.std.specs.List.{AllByRecursion};
ghost use Rattle.qw_types.specs.Arithmetic.{fits};
ghost use Rattle.qw_types.specs.Kind.{IsOfKind, IsRowOf, type_kind};
ghost use Rattle.qw_types.specs.declared.kind.Kind.TheVariants as kind;
ghost use Rattle.qw_types.specs.declared.value.Ty.TheVariants as type;
ghost use Rattle.qw_scalar.specs.declared.expression.Operator.TheVariants.{Divide, Subtract};
ghost use Rattle.qw_scalar.specs.declared.comparison.Comparison.TheVariants.{Equal, Greater};
ghost use Rattle.qw_scalar.specs.declared.expression.Function.TheVariants.{Coalesce, NullIf};
ghost use Rattle.qw_scalar.specs.Expression.{arithmetic, called, case, column, comparison, last, more, negative, number, otherwise, text, when};
ghost use Rattle.qw_meaning.specs.Select.{IsSpecification, specification_of};
ghost use Rattle.qw_scalar.specs.Tree.{condition_of, expression_of};
ghost use Rattle.qw_meaning.specs.WorkedQueries.{item_entry};

use crate::assertions::assert_text;
use qw_meaning::Select;
use qw_plain::outcome::{Answer, plain_select_outcome};
use qw_scalar::comparison::Comparison;
use qw_scalar::expression::{Branches, Cond, Expr, Exprs, Function, Operator};
use qw_types::{ColumnType, NoMemory, Row, Text, Ty, Val};
use std::alloc::Global;
use std::process::Abort;
use std::test::Fail;

fn named(alloc: Global, text: &str) -> Result<Val, NoMemory>
    ensures { IfOk result (λ made. IsOfKind kind.Text made) }
{
    Ok(Val::Text(Text::new(String::from_str(alloc, text)?)))
}

/// A column that may be null.
fn nullable(ty: Ty) -> ColumnType
    ensures { result ≡ Rattle.qw_meaning.specs.WorkedQueries.nullable ty }
{
    ColumnType {
        ty,
        not_null: false,
    }
}

/// The columns of ITEM: ID INTEGER NOT NULL, PRICE DECIMAL(9,2), SOLD DATE, LABEL VARCHAR(20).
fn item_columns(alloc: Global) -> Result<Vec<ColumnType>, NoMemory>
    ensures { IfOk result (λ columns. columns.items ≡ item_entry.columns) }
{
    Ok(vec![in alloc;
        ColumnType {
            ty: Ty::Integer,
            not_null: true,
        },
        nullable(Ty::Decimal {
            precision: 9,
            scale: 2,
        }),
        nullable(Ty::Date),
        nullable(Ty::Varchar { length: 20 }),
    ]?)
}

/// A row of ITEM.
fn item(alloc: Global, id: i64, price: Val, sold: Val, label: &str) -> Result<Row, NoMemory>
    requires { IsTrue (fits id) × IsOfKind (kind.Number 2) price × IsOfKind kind.Date sold }
    ensures { IfOk result (λ row. IsRowOf (map type_kind (type.Integer ∷ type.Decimal 9 2 ∷ type.Date ∷ type.Varchar 20 ∷ [])) row) }
{
    Ok(Row::new(vec![in alloc; Val::Num(id), price, sold, named(alloc, label)?]?))
}

/// The rows of ITEM.
#[tactic(auto, using(qw_types::proofs::DayLemmas::day_is))]
fn items(alloc: Global) -> Result<Vec<Row>, NoMemory>
    ensures { IfOk result (λ rows. AllByRecursion (IsRowOf (map type_kind (type.Integer ∷ type.Decimal 9 2 ∷ type.Date ∷ type.Varchar 20 ∷ []))) rows.items) }
{
    let first = item(alloc, 1, Val::Num(1000), Val::Date(19_980_902), "pen")?;
    let second = item(alloc, 2, Val::Null, Val::Date(19_980_903), "ink")?;
    let third = item(alloc, 3, Val::Num(50), Val::Null, "pen")?;
    Ok(vec![in alloc; first, second, third]?)
}

/// What a query over ITEM answers.
fn of_items(alloc: Global, conjuncts: Vec<Cond>, list: Vec<Expr>) -> Result<Answer, NoMemory>
    requires { IsSpecification (specification_of (record { table = 0; columns = item_entry.columns; conjuncts = conjuncts.items; items = list.items })) }
{
    let select = Select::new(0, item_columns(alloc)?, conjuncts, list);
    let tables = vec![in alloc; items(alloc)?]?;
    plain_select_outcome(alloc, &select, &tables)
}

/// `ID`.
fn id(alloc: Global) -> Result<Box<Expr>, NoMemory>
    ensures { IfOk result (λ made. expression_of made.value ≡ column 0 type.Integer) }
{
    Ok(Box::new(alloc, Expr::Column(0, Ty::Integer))?)
}

/// A number of scale 0.
fn integer(alloc: Global, value: i64) -> Result<Box<Expr>, NoMemory>
    ensures { IfOk result (λ made. expression_of made.value ≡ number value 0) }
{
    Ok(Box::new(alloc, Expr::Number(value, 0))?)
}

/// `value / (ID - 1)`.
fn by_id_less_one(alloc: Global, value: Box<Expr>) -> Result<Expr, NoMemory>
    ensures { IfOk result (λ made. expression_of made ≡ arithmetic Divide (expression_of value.value) (arithmetic Subtract (column 0 type.Integer) (number (pos 1) 0))) }
{
    let less_one = Expr::Arithmetic(Operator::Subtract, id(alloc)?, integer(alloc, 1)?);
    Ok(Expr::Arithmetic(Operator::Divide, value, Box::new(alloc, less_one)?))
}

/// `PRICE`.
fn price(alloc: Global) -> Result<Box<Expr>, NoMemory>
    ensures { IfOk result (λ made. expression_of made.value ≡ column 1 (type.Decimal 9 2)) }
{
    Ok(Box::new(
        alloc,
        Expr::Column(
            1,
            Ty::Decimal {
                precision: 9,
                scale: 2,
            },
        ),
    )?)
}

/// `LABEL`.
fn label(alloc: Global) -> Result<Box<Expr>, NoMemory>
    ensures { IfOk result (λ made. expression_of made.value ≡ column 3 (type.Varchar 20)) }
{
    Ok(Box::new(alloc, Expr::Column(3, Ty::Varchar { length: 20 }))?)
}

/// A text literal.
fn literal(alloc: Global, octets: &str) -> Result<Box<Expr>, NoMemory>
    ensures { IfOk result (λ made. expression_of made.value ≡ text octets.now) }
{
    Ok(Box::new(
        alloc,
        Expr::Text(Text::new(String::from_str(alloc, octets)?)),
    )?)
}

/// The list of `ID` alone.
fn only_id(alloc: Global) -> Result<Vec<Expr>, NoMemory>
    ensures { IfOk result (λ list. map expression_of list.items ≡ column 0 type.Integer ∷ []) }
{
    Ok(vec![in alloc; Expr::Column(0, Ty::Integer)]?)
}

/// `ID = value`.
fn id_is(alloc: Global, value: i64) -> Result<Cond, NoMemory>
    requires { IsTrue (fits value) }
    ensures { IfOk result (λ made. condition_of made ≡ comparison Equal (column 0 type.Integer) (number value 0)) }
{
    Ok(Cond::Compare(Comparison::Equal, id(alloc)?, integer(alloc, value)?))
}

/// `SELECT ID FROM ITEM WHERE PRICE > 1`.
fn price_above_one(alloc: Global) -> Result<Answer, NoMemory> {
    let test = Cond::Compare(Comparison::Greater, price(alloc)?, integer(alloc, 1)?);
    of_items(alloc, vec![in alloc; test]?, only_id(alloc)?)
}

/// `SELECT ID / (ID - 1) FROM ITEM`.
fn quotients(alloc: Global) -> Result<Answer, NoMemory> {
    let quotient = by_id_less_one(alloc, id(alloc)?)?;
    of_items(alloc, vec![in alloc;]?, vec![in alloc; quotient]?)
}

/// `ID > 1`.
fn guard(alloc: Global) -> Result<Cond, NoMemory>
    ensures { IfOk result (λ made. condition_of made ≡ comparison Greater (column 0 type.Integer) (number (pos 1) 0)) }
{
    Ok(Cond::Compare(Comparison::Greater, id(alloc)?, integer(alloc, 1)?))
}

/// `10 / (ID - 1) > 6`.
fn quotient_above_six(alloc: Global) -> Result<Cond, NoMemory>
    ensures { IfOk result (λ made. condition_of made ≡ comparison Greater (arithmetic Divide (number (pos 10) 0) (arithmetic Subtract (column 0 type.Integer) (number (pos 1) 0))) (number (pos 6) 0)) }
{
    let quotient = by_id_less_one(alloc, integer(alloc, 10)?)?;
    Ok(Cond::Compare(
        Comparison::Greater,
        Box::new(alloc, quotient)?,
        integer(alloc, 6)?,
    ))
}

/// `SELECT ID FROM ITEM WHERE ID > 1 AND 10 / (ID - 1) > 6`.
fn guard_first(alloc: Global) -> Result<Answer, NoMemory> {
    let conjuncts = vec![in alloc; guard(alloc)?, quotient_above_six(alloc)?]?;
    of_items(alloc, conjuncts, only_id(alloc)?)
}

/// `SELECT ID FROM ITEM WHERE 10 / (ID - 1) > 6 AND ID > 1`.
fn guard_last(alloc: Global) -> Result<Answer, NoMemory> {
    let conjuncts = vec![in alloc; quotient_above_six(alloc)?, guard(alloc)?]?;
    of_items(alloc, conjuncts, only_id(alloc)?)
}

/// `SELECT 1 / 0 FROM NOTHING`, a table without rows.
fn of_nothing(alloc: Global) -> Result<Answer, NoMemory> {
    let quotient = Expr::Arithmetic(Operator::Divide, integer(alloc, 1)?, integer(alloc, 0)?);
    let select = Select::new(
        0,
        vec![in alloc; nullable(Ty::Integer)]?,
        vec![in alloc;]?,
        vec![in alloc; quotient]?,
    );
    plain_select_outcome(alloc, &select, vec![in alloc; Vec::new(alloc)]?.as_slice())
}

/// `SELECT ID FROM ITEM WHERE ID NOT IN (1, PRICE)`.
fn not_among(alloc: Global) -> Result<Answer, NoMemory> {
    let last = Exprs::Last(price(alloc)?);
    let values = Exprs::More(integer(alloc, 1)?, Box::new(alloc, last)?);
    let among = Cond::In(id(alloc)?, Box::new(alloc, values)?);
    let test = Cond::Not(Box::new(alloc, among)?);
    of_items(alloc, vec![in alloc; test]?, only_id(alloc)?)
}

/// `SELECT PRICE FROM ITEM WHERE ID = 2`.
fn null_price(alloc: Global) -> Result<Answer, NoMemory> {
    let item = Expr::Column(
        1,
        Ty::Decimal {
            precision: 9,
            scale: 2,
        },
    );
    of_items(
        alloc,
        vec![in alloc; id_is(alloc, 2)?]?,
        vec![in alloc; item]?,
    )
}

/// `-7/2`.
fn minus_seven_halves(alloc: Global) -> Result<Expr, NoMemory>
    ensures { IfOk result (λ made. expression_of made ≡ arithmetic Divide (negative (number (pos 7) 0)) (number (pos 2) 0)) }
{
    let minus_seven = Box::new(alloc, Expr::Negative(integer(alloc, 7)?))?;
    Ok(Expr::Arithmetic(Operator::Divide, minus_seven, integer(alloc, 2)?))
}

/// `7.00/2`.
fn seven_halves(alloc: Global) -> Result<Expr, NoMemory>
    ensures { IfOk result (λ made. expression_of made ≡ arithmetic Divide (number (pos 700) 2) (number (pos 2) 0)) }
{
    let seven = Box::new(alloc, Expr::Number(700, 2))?;
    Ok(Expr::Arithmetic(Operator::Divide, seven, integer(alloc, 2)?))
}

/// `1/0.5`.
fn one_by_a_half(alloc: Global) -> Result<Expr, NoMemory>
    ensures { IfOk result (λ made. expression_of made ≡ arithmetic Divide (number (pos 1) 0) (number (pos 5) 1)) }
{
    let half = Box::new(alloc, Expr::Number(5, 1))?;
    Ok(Expr::Arithmetic(Operator::Divide, integer(alloc, 1)?, half))
}

/// `SELECT -7/2, 7.00/2, 1/0.5 FROM ITEM WHERE ID = 1`.
fn three_quotients(alloc: Global) -> Result<Answer, NoMemory> {
    let conjuncts = vec![in alloc; id_is(alloc, 1)?]?;
    let first = minus_seven_halves(alloc)?;
    let second = seven_halves(alloc)?;
    let third = one_by_a_half(alloc)?;
    of_items(alloc, conjuncts, vec![in alloc; first, second, third]?)
}

/// `SELECT ID FROM ITEM WHERE SOLD <= DATE '1998-12-01' - INTERVAL '90' DAY`, the interval folded.
#[tactic(auto, using(qw_types::proofs::DayLemmas::day_is))]
fn sold_before(alloc: Global) -> Result<Answer, NoMemory> {
    let sold = Box::new(alloc, Expr::Column(2, Ty::Date))?;
    let day = Box::new(alloc, Expr::Date(19_980_902))?;
    let test = Cond::Compare(Comparison::LessOrEqual, sold, day);
    of_items(alloc, vec![in alloc; test]?, only_id(alloc)?)
}

/// `CASE WHEN ID = 1 THEN 0 ELSE 10 / (ID - 1) END`.
fn zero_at_one(alloc: Global) -> Result<Expr, NoMemory>
    ensures { IfOk result (λ made. expression_of made ≡ case (when (comparison Equal (column 0 type.Integer) (number (pos 1) 0)) (number (pos 0) 0) (otherwise (arithmetic Divide (number (pos 10) 0) (arithmetic Subtract (column 0 type.Integer) (number (pos 1) 0)))))) }
{
    let quotient = by_id_less_one(alloc, integer(alloc, 10)?)?;
    let other = Box::new(alloc, Branches::Else(Box::new(alloc, quotient)?))?;
    let test = Box::new(alloc, id_is(alloc, 1)?)?;
    let branches = Branches::When(test, integer(alloc, 0)?, other);
    Ok(Expr::Case(Box::new(alloc, branches)?))
}

/// `SELECT CASE WHEN ID = 1 THEN 0 ELSE 10 / (ID - 1) END FROM ITEM WHERE ID = 1`.
fn chosen_result(alloc: Global) -> Result<Answer, NoMemory> {
    let conjuncts = vec![in alloc; id_is(alloc, 1)?]?;
    of_items(alloc, conjuncts, vec![in alloc; zero_at_one(alloc)?]?)
}

/// `SELECT ID FROM ITEM WHERE LABEL < 'm'`.
fn label_below(alloc: Global) -> Result<Answer, NoMemory> {
    let test = Cond::Compare(Comparison::Less, label(alloc)?, literal(alloc, "m")?);
    of_items(alloc, vec![in alloc; test]?, only_id(alloc)?)
}

/// `NULLIF(LABEL, octets)`.
fn label_unless(alloc: Global, octets: &str) -> Result<Expr, NoMemory>
    ensures { IfOk result (λ made. expression_of made ≡ called NullIf (more (column 3 (type.Varchar 20)) (last (text octets.now)))) }
{
    let others = Box::new(alloc, Exprs::Last(literal(alloc, octets)?))?;
    let arguments = Exprs::More(label(alloc)?, others);
    Ok(Expr::Call(Function::NullIf, Box::new(alloc, arguments)?))
}

/// `COALESCE(NULLIF(LABEL, octets), other)`.
fn label_or(alloc: Global, octets: &str, other: &str) -> Result<Expr, NoMemory>
    ensures { IfOk result (λ made. expression_of made ≡ called Coalesce (more (called NullIf (more (column 3 (type.Varchar 20)) (last (text octets.now)))) (last (text other.now)))) }
{
    let first = Box::new(alloc, label_unless(alloc, octets)?)?;
    let rest = Box::new(alloc, Exprs::Last(literal(alloc, other)?))?;
    Ok(Expr::Call(
        Function::Coalesce,
        Box::new(alloc, Exprs::More(first, rest))?,
    ))
}

/// `SELECT LABEL, NULLIF(LABEL, 'pen'), COALESCE(NULLIF(LABEL, 'pen'), 'none') FROM ITEM`.
fn labels(alloc: Global) -> Result<Answer, NoMemory> {
    let item = Expr::Column(3, Ty::Varchar { length: 20 });
    let not_pen = label_unless(alloc, "pen")?;
    let named = label_or(alloc, "pen", "none")?;
    let items = vec![in alloc; item, not_pen, named]?;
    of_items(alloc, vec![in alloc;]?, items)
}

/// Asserts what an answer prints.
fn assert_prints(
    rt: &impl Abort,
    alloc: Global,
    answer: Result<Answer, NoMemory>,
    expected: &str,
) -> Result<(), Fail> {
    let printed = format!(in alloc; "{:?}", answer?)?;
    assert_text(rt, &printed, expected);
    Ok(())
}

#[test]
fn rows_of_numbers(rt: HostRuntime) -> Result<(), Fail> {
    let alloc = rt.alloc();
    let first = "Rows([Row { values: [Num(1)] }])";
    let third = "Rows([Row { values: [Num(3)] }])";
    let null = "Rows([Row { values: [Null] }])";
    let quotients_at_one = "Rows([Row { values: [Num(-3), Num(350), Num(2)] }])";
    assert_prints(&rt, alloc, price_above_one(alloc), first)?;
    assert_prints(&rt, alloc, not_among(alloc), third)?;
    assert_prints(&rt, alloc, null_price(alloc), null)?;
    assert_prints(&rt, alloc, three_quotients(alloc), quotients_at_one)?;
    assert_prints(&rt, alloc, sold_before(alloc), first)
}

#[test]
fn rows_of_guarded_quotients(rt: HostRuntime) -> Result<(), Fail> {
    let alloc = rt.alloc();
    let raises = "Raises([DivZero])";
    assert_prints(&rt, alloc, quotients(alloc), raises)?;
    assert_prints(
        &rt,
        alloc,
        guard_first(alloc),
        "Rows([Row { values: [Num(2)] }])",
    )?;
    assert_prints(&rt, alloc, guard_last(alloc), raises)?;
    assert_prints(&rt, alloc, of_nothing(alloc), "Rows([])")?;
    assert_prints(
        &rt,
        alloc,
        chosen_result(alloc),
        "Rows([Row { values: [Num(0)] }])",
    )
}

#[test]
fn rows_of_texts(rt: HostRuntime) -> Result<(), Fail> {
    let alloc = rt.alloc();
    let named =
        "Rows([Row { values: [Text(Text { text: \"pen\" }), Null, Text(Text { text: \"none\" })] }, \
         Row { values: [Text(Text { text: \"ink\" }), Text(Text { text: \"ink\" }), Text(Text { text: \"ink\" })] }, \
         Row { values: [Text(Text { text: \"pen\" }), Null, Text(Text { text: \"none\" })] }])";
    assert_prints(
        &rt,
        alloc,
        label_below(alloc),
        "Rows([Row { values: [Num(2)] }])",
    )?;
    assert_prints(&rt, alloc, labels(alloc), named)
}
