//! What groups a query: the columns of its GROUP BY, and its set functions (ISO/IEC 9075:1992, 6.5, 7.7).

ghost use Rattle.std.specs.Prelude.{◌≡◌, ◌≤◌, ◌∷◌, ℕ, [], IfOk, MatchResult, Ok, OnOk, map};
ghost use Rattle.qw_ast.specs.SyntaxTree as syntax;
ghost use Rattle.qw_grouped.specs.Grouped as group;
ghost use Rattle.qw_grouped.specs.Grouped.{value_kind};
ghost use Rattle.qw_grouped.specs.Query.{function_of};
ghost use Rattle.qw_scalar.specs.Tree.{expression_of};
ghost use Rattle.qw_typer.specs.Faults.{argument_faults, first_token};
ghost use Rattle.qw_typer.specs.Functions.{counted, applied as applied_function};
ghost use Rattle.qw_typer.specs.Grouping as said;
ghost use Rattle.qw_typer.specs.Grouping.{kind_of_function, many_faults, first_word};
ghost use Rattle.qw_typer.specs.Inner.Functions.{all_written, written_of};
ghost use Rattle.qw_typer.specs.Inner.Grouping.{Functions as MadeFunctions};
ghost use Rattle.qw_typer.specs.Inner.Grouping.{RowsAdded, FitsArgument, FitsArguments, arguments_nodes, arguments_octets, as_functions, column_for, typed_column, typed_columns, typed_function, typed_functions};
ghost use Rattle.qw_typer.specs.Inner.Typing.{IsTold, Refuses, as_entries, as_function, kind_scale, outcome, spelled};
ghost use Rattle.qw_ast.specs.declared.script.SetFunction.TheVariants.{Avg};

use crate::expression::expression;
use crate::fault::FaultKind;
use crate::functions::Written;
use crate::leaf::reference;
use crate::refusal::{Refusal, Token, first_token};
use crate::scope::{Entry, FunctionColumn, Scope};
use crate::set_function::{has_scale, takes};
use crate::tree::Typed;
use qw_ast::script;
use qw_grouped::{GroupedColumn, SetFunction, SetFunctionKind};
use qw_scalar::expression::Expr;
use qw_types::{Kind, NoMemory, Ty};
use std::alloc::Global;

/// The most set functions that a query may have.
const MAX_FUNCTIONS: usize = 128;

/// How many digits more an average has behind its point than what is averaged.
const FINER: u8 = 4;

/// The digits of the widest number, and the characters of the widest text.
const MOST_DIGITS: u8 = 18;

const MOST_CHARACTERS: u16 = 1000;

/// The set functions of a grouped query, and the columns of the grouped table that they are.
#[derive(Drop)]
pub(crate) struct Placed {
    pub(crate) functions: Vec<SetFunction>,
    pub(crate) columns: Vec<FunctionColumn>,
}

/// The columns of GROUP BY.
#[tactic(auto, using(crate::proofs::GroupingLemmas::columns_first, crate::proofs::OutcomeLemmas::refuses_memory), unfolding(crate::specs::Inner::Typing::Refuses))]
pub(crate) fn columns<'a>(
    alloc: Global,
    entries: &[Entry<'_>],
    references: &[script::Reference<'a>],
) -> Result<Vec<GroupedColumn>, Refusal<'a>>
    ensures { MatchResult result (λ made. typed_columns (as_entries entries.now) (map syntax.reference_of references.now) ≡ Ok made.items)
        (λ refusal. Refuses refusal (typed_columns (as_entries entries.now) (map syntax.reference_of references.now))) }
{
    let mut made = Vec::new(alloc);
    let mut rest = references;
    while let [one, behind @ ..] = rest {
        let grouped = column(alloc, entries, one)?;
        made.push(grouped).map_err(|_| Refusal::NoMemory)?;
        rest = behind;
    }
    Ok(made)
}

/// The column of FROM that a reference of GROUP BY means.
#[tactic(auto, using(crate::proofs::GroupingLemmas::column_gives, crate::proofs::OutcomeLemmas::refuses_then), unfolding(crate::specs::Inner::Typing::Refuses))]
fn column<'a>(
    alloc: Global,
    entries: &[Entry<'_>],
    named: &script::Reference<'a>,
) -> Result<GroupedColumn, Refusal<'a>>
    ensures { MatchResult result (λ made. typed_column (as_entries entries.now) (syntax.reference_of named.now) ≡ Ok made)
        (λ refusal. Refuses refusal (typed_column (as_entries entries.now) (syntax.reference_of named.now))) }
{
    let place = reference(alloc, entries, named.qualifier, named.name)?;
    Ok(GroupedColumn {
        number: place.place,
        ty: place.ty,
    })
}

/// The set functions of a query.
#[tactic(auto, using(crate::proofs::GroupingLemmas::functions_first, crate::proofs::GroupingLemmas::arguments_first, crate::proofs::OutcomeLemmas::refuses_memory), unfolding(crate::specs::Inner::Typing::Refuses))]
pub(crate) fn functions<'a>(
    alloc: Global,
    entries: &[Entry<'_>],
    written: &[Written<'_, 'a>],
) -> Result<Placed, Refusal<'a>>
    ensures gives { MatchResult result (λ made. typed_functions (as_entries entries.now) (all_written written.now) ≡ Ok (as_functions made))
        (λ refusal. Refuses refusal (typed_functions (as_entries entries.now) (all_written written.now))) }
    ensures fits { IfOk result (λ made. FitsArguments made.functions.items (arguments_nodes (all_written written.now)) (arguments_octets (all_written written.now))) }
{
    let mut made = Placed {
        functions: Vec::new(alloc),
        columns: Vec::new(alloc),
    };
    let mut rest = written;
    while let [one, behind @ ..] = rest {
        let typed = function(alloc, entries, one)?;
        made.functions.push(typed.0).map_err(|_| Refusal::NoMemory)?;
        made.columns.push(typed.1).map_err(|_| Refusal::NoMemory)?;
        rest = behind;
    }
    Ok(made)
}

/// A set function, and the column of the grouped table that it is.
fn function<'a>(
    alloc: Global,
    entries: &[Entry<'_>],
    written: &Written<'_, 'a>,
) -> Result<(SetFunction, FunctionColumn), Refusal<'a>>
    ensures gives { MatchResult result (λ made. (typed_function (as_entries entries.now) (written_of written.now) ≡ Ok (function_of made.0)) × (as_function made.1 ≡ column_for (written_of written.now) (function_of made.0)))
        (λ refusal. Refuses refusal (typed_function (as_entries entries.now) (written_of written.now))) }
    ensures fits { IfOk result (λ made. FitsArgument made.0.argument (written_of written.now)) }
{
    match written {
        Written::Rows(place) => Ok(rows_at(*place)),
        Written::Applied(place, function, argument) => {
            applied(alloc, entries, *place, *function, argument)
        }
    }
}

/// COUNT(*) at a place of the text.
fn rows_at(place: usize) -> (SetFunction, FunctionColumn)
    ensures function { function_of result.0 ≡ said.rows_counted }
    ensures column { as_function result.1 ≡ column_for (counted place) said.rows_counted }
    ensures fits { FitsArgument result.0.argument (counted place) }
{
    let column = FunctionColumn {
        place,
        ty: widest(Some(Kind::Number(0))),
    };
    (rows_counted(), column)
}

/// A set function of an argument, at a place of the text.
fn applied<'a>(
    alloc: Global,
    entries: &[Entry<'_>],
    place: usize,
    function: script::SetFunction,
    argument: &script::Expr<'a>,
) -> Result<(SetFunction, FunctionColumn), Refusal<'a>>
    ensures gives { MatchResult result (λ made. (typed_function (as_entries entries.now) (applied_function place function (syntax.expression_of argument.now)) ≡ Ok (function_of made.0)) × (as_function made.1 ≡ column_for (applied_function place function (syntax.expression_of argument.now)) (function_of made.0)))
        (λ refusal. Refuses refusal (typed_function (as_entries entries.now) (applied_function place function (syntax.expression_of argument.now)))) }
    ensures fits { IfOk result (λ made. FitsArgument made.0.argument (applied_function place function (syntax.expression_of argument.now))) }
{
    let x = expression(alloc, &Scope::ungrouped(entries), argument)?;
    expect_argument(function, &x, argument)?;
    let ty = value_type(function, x.kind);
    let made = SetFunction {
        kind: kind_of_function(function),
        argument: x.tree,
    };
    Ok((made, FunctionColumn { place, ty }))
}

/// Whether the set function takes the argument.
#[tactic(auto, unfolding(crate::specs::Inner::Typing::Refuses))]
fn expect_argument<'a>(
    function: script::SetFunction,
    argument: &Typed,
    at: &script::Expr<'a>,
) -> Result<(), Refusal<'a>>
    requires told { IsTold argument.now }
    ensures gives { (f : group.SetFunction) → MatchResult result (λ _. outcome (argument_faults (first_token (syntax.expression_of at.now)) function (expression_of argument.now.tree)) f ≡ Ok f)
        (λ refusal. Refuses refusal (outcome (argument_faults (first_token (syntax.expression_of at.now)) function (expression_of argument.now.tree)) f)) }
    ensures scale { IfOk result (λ _. function ≡ Avg → kind_scale argument.now.kind ≤ 14) }
{
    if !takes(function, argument.kind) {
        return Err(Refusal::Fault(FaultKind::Clash, first_token(at)));
    }
    if !has_scale(function, argument.kind) {
        return Err(Refusal::Fault(FaultKind::ScaleTooLarge, first_token(at)));
    }
    Ok(())
}

/// COUNT(*).
fn rows_counted() -> SetFunction
    ensures is { function_of result ≡ said.rows_counted }
    ensures fits { (place : ℕ) → FitsArgument result.argument (counted place) }
{
    SetFunction {
        kind: SetFunctionKind::CountRows,
        argument: Expr::Number(1, 0),
    }
}

/// With COUNT(*) where there is neither a column nor a set function.
pub(crate) fn or_rows(
    columns: &[GroupedColumn],
    functions: &mut Vec<SetFunction>,
) -> Result<(), NoMemory>
    ensures gives { OnOk result (map function_of functions.new.items ≡ said.or_rows columns.now (map function_of functions.old.items)) }
    ensures fits { OnOk result (RowsAdded functions.old.items functions.new.items) }
{
    if columns.is_empty() && functions.is_empty() {
        functions.push(rows_counted())?;
    }
    Ok(())
}

/// Whether there are few enough set functions.
#[tactic(auto, unfolding(crate::specs::Inner::Typing::Refuses))]
pub(crate) fn expect_few<'a>(written: &[Written<'_, 'a>]) -> Result<(), Refusal<'a>>
    ensures { (made : MadeFunctions) → MatchResult result (λ _. outcome (many_faults (all_written written.now)) made ≡ Ok made) (λ refusal. Refuses refusal (outcome (many_faults (all_written written.now)) made)) }
{
    match written {
        [first, ..] if MAX_FUNCTIONS < written.len() => {
            Err(Refusal::Fault(FaultKind::TooManyFunctions, word_of(first)))
        }
        _ => Ok(()),
    }
}

/// The word of a set function.
fn word_of<'a>(written: &Written<'_, 'a>) -> Token<'a>
    ensures { spelled result ≡ first_word (written_of written.now ∷ []) }
{
    match written {
        Written::Rows(_) => Token::Function(script::SetFunction::Count),
        Written::Applied(_, function, _) => Token::Function(*function),
    }
}

/// What a set function reckons.
fn kind_of_function(function: script::SetFunction) -> SetFunctionKind
    ensures { result ≡ kind_of_function function }
{
    match function {
        script::SetFunction::Count => SetFunctionKind::Count,
        script::SetFunction::Sum => SetFunctionKind::Sum,
        script::SetFunction::Avg => SetFunctionKind::Avg,
        script::SetFunction::Min => SetFunctionKind::Min,
        script::SetFunction::Max => SetFunctionKind::Max,
    }
}

/// The type of a set function's values, of an argument of this kind (6.5).
fn value_type(function: script::SetFunction, argument: Option<Kind>) -> Ty
    requires scale { function ≡ Avg → kind_scale argument ≤ 14 }
    ensures { result ≡ group.widest (value_kind (kind_of_function function) argument) }
{
    match function {
        script::SetFunction::Count => widest(Some(Kind::Number(0))),
        script::SetFunction::Sum | script::SetFunction::Min | script::SetFunction::Max => {
            widest(argument)
        }
        script::SetFunction::Avg => match argument {
            Some(Kind::Number(scale)) => widest(Some(Kind::Number(scale + FINER))),
            other => widest(other),
        },
    }
}

/// The greatest type of a kind.
fn widest(kind: Option<Kind>) -> Ty
    ensures { result ≡ group.widest kind }
{
    match kind {
        None => Ty::Integer,
        Some(Kind::Number(scale)) => Ty::Decimal {
            precision: MOST_DIGITS,
            scale,
        },
        Some(Kind::Date) => Ty::Date,
        Some(Kind::Text) => Ty::Varchar {
            length: MOST_CHARACTERS,
        },
    }
}
