//! A script in one line for a statement, with brackets that show the tree: `( )` round what an operator joins, `[ ]` round a
//! condition that stands in brackets in the text.

use qw_ast::script::{
    Branches, Cond, Entry, Expr, Exprs, Interval, Item, Key, Phrase, Reference, SelectList,
    SetFunction, Sign, SortSpecification, Source, Statement,
};
use qw_scalar::comparison::Comparison;
use qw_scalar::expression::{Field, Function, Operator, Predicate};
use qw_types::Truth;
use std::alloc::{AllocError, Global};

fn sign_octets(sign: Sign) -> &'static [u8] {
    match sign {
        Sign::Plus => b"+",
        Sign::Minus => b"-",
    }
}

fn operator_octets(operator: Operator) -> &'static [u8] {
    match operator {
        Operator::Add => b" + ",
        Operator::Subtract => b" - ",
        Operator::Multiply => b" * ",
        Operator::Divide => b" / ",
    }
}

fn field_octets(field: Field) -> &'static [u8] {
    match field {
        Field::Year => b"YEAR ",
        Field::Month => b"MONTH ",
        Field::Day => b"DAY ",
    }
}

fn function_octets(function: SetFunction) -> &'static [u8] {
    match function {
        SetFunction::Count => b"COUNT(",
        SetFunction::Sum => b"SUM(",
        SetFunction::Avg => b"AVG(",
        SetFunction::Min => b"MIN(",
        SetFunction::Max => b"MAX(",
    }
}

fn comparison_octets(comparison: Comparison) -> &'static [u8] {
    match comparison {
        Comparison::Equal => b" = ",
        Comparison::NotEqual => b" <> ",
        Comparison::Less => b" < ",
        Comparison::LessOrEqual => b" <= ",
        Comparison::Greater => b" > ",
        Comparison::GreaterOrEqual => b" >= ",
        Comparison::Like => b" LIKE ",
        Comparison::NotLike => b" NOT LIKE ",
    }
}

fn predicate_octets(predicate: Predicate) -> &'static [u8] {
    match predicate {
        Predicate::IsNull => b" NULL",
    }
}

fn truth_octets(truth: Truth) -> &'static [u8] {
    match truth {
        Truth::True => b"TRUE",
        Truth::False => b"FALSE",
        Truth::Unknown => b"UNKNOWN",
    }
}

/// A line that is being made. Once memory is wanting, nothing is added any more: so no caller has to look.
#[derive(Drop)]
struct Line {
    octets: Vec<u8>,
    is_whole: bool,
}

fn put(out: &mut Line, octets: &[u8]) {
    out.is_whole = out.is_whole && out.octets.extend_from_slice(octets).is_ok();
}

/// NOT where it stands in the predicate.
fn put_not(out: &mut Line, negated: bool) {
    if negated {
        put(out, b" NOT");
    }
}

fn put_intervals(out: &mut Line, intervals: &[Interval<'_>]) {
    for interval in intervals {
        put(out, b" ");
        put(out, sign_octets(interval.sign));
        put(out, interval.days);
    }
}

/// The name behind its qualifier, if it has one.
fn put_column(out: &mut Line, qualifier: Option<&[u8]>, name: &[u8]) {
    if let Some(qualifier) = qualifier {
        put(out, qualifier);
        put(out, b".");
    }
    put(out, name)
}

#[cycle(shown)]
fn put_expression(out: &mut Line, expression: &Expr<'_>) {
    match expression {
        Expr::Null => put(out, b"NULL"),
        Expr::Number(digits) => put(out, digits),
        Expr::Text(string) => put(out, string),
        Expr::Date(string, intervals) => {
            put(out, b"DATE ");
            put(out, string);
            put_intervals(out, intervals)
        }
        Expr::Column(qualifier, name) => put_column(out, *qualifier, name),
        Expr::Signed(sign, operand) => {
            put(out, b"(");
            put(out, sign_octets(*sign));
            put_expression(out, operand);
            put(out, b")")
        }
        Expr::Arithmetic(operator, left, right) => {
            put(out, b"(");
            put_expression(out, left);
            put(out, operator_octets(*operator));
            put_expression(out, right);
            put(out, b")")
        }
        Expr::Extract(field, date) => {
            put(out, b"EXTRACT(");
            put(out, field_octets(*field));
            put_expression(out, date);
            put(out, b")")
        }
        Expr::Case(branches) => {
            put(out, b"CASE");
            put_branches(out, branches)
        }
        Expr::Match(operand, branches) => {
            put(out, b"CASE ");
            put_expression(out, operand);
            put_branches(out, branches)
        }
        Expr::Call(Function::Coalesce, arguments) => {
            put(out, b"COALESCE");
            put_expressions(out, arguments)
        }
        Expr::Call(Function::NullIf, arguments) => {
            put(out, b"NULLIF(");
            put_listed(out, arguments);
            put(out, b")")
        }
        Expr::CountRows(_) => put(out, b"COUNT(*)"),
        Expr::SetFunction(_, function, argument) => {
            put(out, function_octets(*function));
            put_expression(out, argument);
            put(out, b")")
        }
    }
}

#[cycle(shown)]
fn put_condition(out: &mut Line, condition: &Cond<'_>) {
    match condition {
        Cond::Compare(comparison, left, right) => {
            put_expression(out, left);
            put(out, comparison_octets(*comparison));
            put_expression(out, right)
        }
        Cond::Between(negated, operand, least, greatest) => {
            put_expression(out, operand);
            put_not(out, *negated);
            put(out, b" BETWEEN ");
            put_expression(out, least);
            put(out, b" .. ");
            put_expression(out, greatest)
        }
        Cond::In(negated, operand, values) => {
            put_expression(out, operand);
            put_not(out, *negated);
            put(out, b" IN ");
            put_expressions(out, values)
        }
        Cond::Predicate(predicate, negated, operand) => {
            put_expression(out, operand);
            put(out, b" IS");
            put_not(out, *negated);
            put(out, predicate_octets(*predicate))
        }
        Cond::And(left, right) => {
            put(out, b"(");
            put_condition(out, left);
            put(out, b" AND ");
            put_condition(out, right);
            put(out, b")")
        }
        Cond::Or(left, right) => {
            put(out, b"(");
            put_condition(out, left);
            put(out, b" OR ");
            put_condition(out, right);
            put(out, b")")
        }
        Cond::Not(operand) => {
            put(out, b"(NOT ");
            put_condition(out, operand);
            put(out, b")")
        }
        Cond::Is(negated, operand, truth) => {
            put(out, b"(");
            put_condition(out, operand);
            put(out, b" IS");
            put_not(out, *negated);
            put(out, b" ");
            put(out, truth_octets(*truth));
            put(out, b")")
        }
        Cond::Bracketed(inside) => {
            put(out, b"[");
            put_condition(out, inside);
            put(out, b"]")
        }
    }
}

#[cycle(shown)]
fn put_phrase(out: &mut Line, phrase: &Phrase<'_>) {
    match phrase {
        Phrase::Condition(condition) => put_condition(out, condition),
        Phrase::Expression(expression) => put_expression(out, expression),
    }
}

#[cycle(shown)]
fn put_expressions(out: &mut Line, expressions: &Exprs<'_>) {
    match expressions {
        Exprs::Last(last) => {
            put(out, b"(");
            put_expression(out, last);
            put(out, b")")
        }
        Exprs::More(first, rest) => {
            put(out, b"(");
            put_expression(out, first);
            put(out, b", ");
            put_expressions(out, rest);
            put(out, b")")
        }
    }
}

/// Expressions one behind the other.
#[cycle(shown)]
fn put_listed(out: &mut Line, expressions: &Exprs<'_>) {
    match expressions {
        Exprs::Last(last) => put_expression(out, last),
        Exprs::More(first, rest) => {
            put_expression(out, first);
            put(out, b", ");
            put_listed(out, rest)
        }
    }
}

#[cycle(shown)]
fn put_branches(out: &mut Line, branches: &Branches<'_>) {
    match branches {
        Branches::Else(result) => {
            put(out, b" ELSE ");
            put_expression(out, result);
            put(out, b" END")
        }
        Branches::When(test, result, rest) => {
            put(out, b" WHEN ");
            put_phrase(out, test);
            put(out, b" THEN ");
            put_expression(out, result);
            put_branches(out, rest)
        }
    }
}

fn put_item(out: &mut Line, item: &Item<'_>) {
    put_expression(out, &item.expression);
    if let Some(name) = item.name {
        put(out, b" AS ");
        put(out, name);
    }
}

fn put_items(out: &mut Line, items: &[Item<'_>]) {
    for (index, item) in items.iter().enumerate() {
        if 0 < index {
            put(out, b"; ");
        }
        put_item(out, item);
    }
}

fn put_entry(out: &mut Line, entry: &Entry<'_>) {
    put(out, entry.table);
    if let Some(alias) = entry.alias {
        put(out, b" AS ");
        put(out, alias);
    }
}

fn put_source(out: &mut Line, source: &Source<'_>) {
    put_entry(out, &source.first);
    for join in &source.joins {
        put(
            out,
            if join.outer {
                b" LEFT JOIN ".as_slice()
            } else {
                b" JOIN ".as_slice()
            },
        );
        put_entry(out, &join.entry);
        put(out, b" ON ");
        put_condition(out, &join.on);
    }
}

fn put_sources(out: &mut Line, sources: &[Source<'_>]) {
    for (index, source) in sources.iter().enumerate() {
        if 0 < index {
            put(out, b"; ");
        }
        put_source(out, source);
    }
}

fn put_sort(out: &mut Line, sort: &SortSpecification<'_>) {
    match sort.key {
        Key::Ordinal(digits) => put(out, digits),
        Key::Column(name) => put(out, name),
    }
    if sort.is_descending {
        put(out, b" DESC");
    }
}

fn put_grouping(out: &mut Line, grouping: &[Reference<'_>]) {
    for (index, reference) in grouping.iter().enumerate() {
        put(
            out,
            if index == 0 {
                b" GROUP BY ".as_slice()
            } else {
                b"; ".as_slice()
            },
        );
        put_column(out, reference.qualifier, reference.name);
    }
}

fn put_order(out: &mut Line, order: &[SortSpecification<'_>]) {
    for (index, sort) in order.iter().enumerate() {
        put(
            out,
            if index == 0 {
                b" ORDER BY ".as_slice()
            } else {
                b"; ".as_slice()
            },
        );
        put_sort(out, sort);
    }
}

fn put_statement(out: &mut Line, statement: &Statement<'_>) {
    if statement.distinct {
        put(out, b"DISTINCT ");
    }
    match &statement.list {
        SelectList::All => put(out, b"*"),
        SelectList::Items(items) => put_items(out, items),
    }
    put(out, b" FROM ");
    put_sources(out, &statement.sources);
    if let Some(condition) = &statement.condition {
        put(out, b" WHERE ");
        put_condition(out, condition);
    }
    put_grouping(out, &statement.grouping);
    if let Some(condition) = &statement.having {
        put(out, b" HAVING ");
        put_condition(out, condition);
    }
    put_order(out, &statement.order);
}

/// The statement in one line.
fn shown(alloc: Global, statement: &Statement<'_>) -> Result<Vec<u8>, AllocError> {
    let mut out = Line {
        octets: Vec::new(alloc),
        is_whole: true,
    };
    put_statement(&mut out, statement);
    if out.is_whole {
        Ok(out.octets)
    } else {
        Err(AllocError)
    }
}

/// Adds the statement in one line.
pub fn put_shown(
    alloc: Global,
    out: &mut Vec<u8>,
    statement: &Statement<'_>,
) -> Result<(), AllocError> {
    out.extend_from_slice(&shown(alloc, statement)?)
}
