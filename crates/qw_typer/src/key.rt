//! The result columns that the keys of an ORDER BY name (ISO/IEC 9075:1992, 13.1).

ghost use Rattle.std.specs.Prelude.{◌≡◌, ◌-◌, ◌++◌, ◌∷◌, ℕ, [], IsTrue, List, MatchResult, Some, None, if◌then◌else◌, map, not};
ghost use Rattle.std.specs.Str.{bytes_eq};
ghost use Rattle.std.specs.Str.Parse.{digits_value};
ghost use Rattle.qw_types.specs.Digits.{are_digits};
ghost use Rattle.qw_ast.specs.Grammar.{name_of};
ghost use Rattle.qw_ast.specs.SyntaxTree as syntax;
ghost use Rattle.qw_typer.specs.declared.fault.FaultKind.TheVariants.{BadOrdinal};
ghost use Rattle.qw_typer.specs.Faults.{counted_faults, fault_where};
ghost use Rattle.qw_typer.specs.Keys.{is_ordinal, key_faults, key_meant, keyed, keys_faults, keys_meant, positions_where};
ghost use Rattle.qw_typer.specs.Inner.Queries.{GivesPosition, IsNamed, IsOneOf};

use crate::fault::FaultKind;
use crate::name::name_text;
use crate::refusal::{Refusal, Token};
use crate::scope::is_name;
use qw_ast::script::{Key, SortSpecification};
use qw_order::SortKey;
use qw_types::Text;
use qw_types::digits::are_digits;
use std::alloc::Global;
use std::str;

/// What there is of result columns that a key may name, by their positions from 0.
#[derive(Clone, Copy)]
enum Named {
    Nothing,
    One(usize),
    Several,
}

impl Named {
    /// With one more, where it is meant.
    fn with(self, position: usize, is_meant: bool) -> Named
        ensures { (positions : List ℕ) → IsNamed self positions → IsNamed result (positions ++ (if is_meant then position ∷ [] else [])) }
    {
        match self {
            _ if !is_meant => self,
            Named::Nothing => Named::One(position),
            Named::One(_) | Named::Several => Named::Several,
        }
    }
}

/// The keys of an order over the names of the result columns.
#[tactic(auto, using(crate::proofs::QueryLemmas::memory_refused))]
pub(crate) fn keys<'a>(
    alloc: Global,
    names: &[Text],
    order: &[SortSpecification<'a>],
) -> Result<Vec<SortKey>, Refusal<'a>>
    ensures { MatchResult result (λ made. (keys_faults names.now (map syntax.sort_of order.now) ≡ [])
        × (made.items ≡ keys_meant names.now (map syntax.sort_of order.now)))
        (λ refusal. IsOneOf refusal (keys_faults names.now (map syntax.sort_of order.now))) }
{
    let mut made = Vec::new(alloc);
    let mut rest = order;
    while let [sort, behind @ ..] = rest {
        let key = sort_key(alloc, names, sort)?;
        made.push(key).map_err(|_| Refusal::NoMemory)?;
        rest = behind;
    }
    Ok(made)
}

/// The key that a sort specification means.
fn sort_key<'a>(
    alloc: Global,
    names: &[Text],
    sort: &SortSpecification<'a>,
) -> Result<SortKey, Refusal<'a>>
    ensures { MatchResult result (λ key. (key_faults names.now (syntax.key_of sort.now.key) ≡ []) × (key ≡ key_meant names.now (syntax.sort_of sort.now)))
        (λ refusal. IsOneOf refusal (key_faults names.now (syntax.key_of sort.now.key))) }
{
    let position = position(alloc, names, &sort.key)?;
    Ok(SortKey {
        position,
        is_descending: sort.is_descending,
    })
}

/// The position of the result column that a key names, from 0.
fn position<'a>(alloc: Global, names: &[Text], key: &Key<'a>) -> Result<usize, Refusal<'a>>
    ensures { GivesPosition result (key_faults names.now (syntax.key_of key.now)) (keyed names.now (syntax.key_of key.now)) }
{
    match key {
        Key::Ordinal(digits) => by_ordinal(names.len(), digits),
        Key::Column(name) => by_name(alloc, names, name),
    }
}

/// The result column at a position from 1, among so many.
fn by_ordinal<'a>(columns: usize, digits: &'a [u8]) -> Result<usize, Refusal<'a>>
    ensures { GivesPosition result (fault_where (not (is_ordinal columns digits.now)) BadOrdinal digits.now) (if is_ordinal columns digits.now then (digits_value 10 digits.now - 1) ∷ [] else []) }
{
    match ordinal_position(columns, digits) {
        Some(position) => Ok(position),
        None => Err(Refusal::Fault(FaultKind::BadOrdinal, Token::Literal(digits))),
    }
}

/// The position from 0 that the octets are, if they are digits of a position from 1.
fn ordinal_position(columns: usize, octets: &[u8]) -> Option<usize>
    ensures { result ≡ (if is_ordinal columns octets.now then Some (digits_value 10 octets.now - 1) else None) }
{
    if !are_digits(octets) {
        return None;
    }
    match str::from_utf8(octets) {
        Ok(digits) => digits_position(columns, digits),
        Err(_) => None,
    }
}

/// The position from 0 that the digits are, if they are those of a position from 1.
fn digits_position(columns: usize, digits: &str) -> Option<usize>
    requires { IsTrue (are_digits digits.now) }
    ensures { result ≡ (if is_ordinal columns digits.now then Some (digits_value 10 digits.now - 1) else None) }
{
    let Ok(number) = digits.parse::<usize>() else {
        return None;
    };
    if 1 <= number && number <= columns {
        Some(number - 1)
    } else {
        None
    }
}

/// The result column of a name.
#[tactic(auto, using(crate::proofs::QueryLemmas::memory_refused))]
fn by_name<'a>(alloc: Global, names: &[Text], name: &'a [u8]) -> Result<usize, Refusal<'a>>
    ensures { GivesPosition result (counted_faults (name_of name.now) (positions_where (bytes_eq (name_of name.now)) 0 names.now)) (positions_where (bytes_eq (name_of name.now)) 0 names.now) }
{
    let kept = name_text(alloc, name).map_err(|_| Refusal::NoMemory)?;
    only(of_name(names, &kept), name)
}

/// The only one that a name may mean.
fn only<'a>(named: Named, name: &'a [u8]) -> Result<usize, Refusal<'a>>
    ensures { (positions : List ℕ) → IsNamed named positions → GivesPosition result (counted_faults (name_of name.now) positions) positions }
{
    match named {
        Named::One(position) => Ok(position),
        Named::Nothing => Err(Refusal::Fault(FaultKind::UnknownColumn, Token::Name(name))),
        Named::Several => Err(Refusal::Fault(FaultKind::Ambiguous, Token::Name(name))),
    }
}

/// The result columns of a name.
fn of_name(names: &[Text], name: &Text) -> Named
    ensures { IsNamed result (positions_where (bytes_eq name.now) 0 names.now) }
{
    let mut found = Named::Nothing;
    for (position, other) in names.iter().enumerate() {
        found = found.with(position, is_name(name, other));
    }
    found
}
