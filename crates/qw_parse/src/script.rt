//! The script that a text says, or why it says none.

ghost use Rattle.std.specs.Prelude.{◌≡◌, ◌⊎◌, length, map, IfOk, IfErr};
ghost use Rattle.qw_token.specs.Token.{lexemes};
ghost use Rattle.qw_ast.specs.SyntaxTree.{select_of, selected_of, selects_of, source_of};
ghost use Rattle.qw_ast.specs.Limits.{AreTaken, IsAccepted, entries_of, items_of, query_columns, query_entries, query_items, query_keys, query_nodes, query_octets};
ghost use Rattle.qw_parse.specs.Script.{AreAccepted, HasFault, HasFirstFault, IsScriptRefused, ReadsScript};
ghost use Rattle.qw_parse.specs.Inner.Judges.{PassesLimit};
ghost use Rattle.qw_parse.specs.Inner.Sizes.{counted};

use crate::fault::{Count, ParseFault};
use crate::read::{Stop, push, query};
use crate::size::size_of;
use qw_ast::limits::MAX_ITEMS;
use qw_ast::script::{Script, SelectList, Source, Statement};
use qw_ast::statement::{is_too_deep, statements};
use qw_token::token::{self, Token};
use std::alloc::Global;

/// The most statements of a text.
const MAX_STATEMENTS: usize = 64;

/// The most entries of FROM.
const MAX_ENTRIES: usize = 8;

/// The most columns of GROUP BY.
const MAX_COLUMNS: usize = 64;

/// The most keys of ORDER BY.
const MAX_KEYS: usize = 64;

/// The most nodes of a query.
const MAX_NODES: usize = 1000;

/// The most octets of the values of a query's character strings.
const MAX_LITERAL_OCTETS: usize = 16_384;

/// The script that the text says: 1 to 64 queries, with a `;` between each two and one or none behind the last (ISO/IEC
/// 9075:1992, 7.9). Names and literals are slices of the text.
///
/// # Errors
///
/// The first of these: `NotUtf8`; `NotToken`; `TooMany` statements; then statement by statement `TooDeep`, `NotGrammar`,
/// `TooMany` items of the select list, entries of FROM, columns of GROUP BY, keys of ORDER BY, nodes, octets of literals. A text without
/// a statement is `NotGrammar`. And `NoMemory`.
pub fn script_of<'a>(alloc: Global, text: &'a [u8]) -> Result<Script<'a>, ParseFault>
    ensures script { IfOk result (λ script. ReadsScript text.now (selects_of script)) }
    ensures refused { IfErr result (λ fault. (fault ≡ ParseFault.NoMemory) ⊎ IsScriptRefused text.now fault) }
{
    let tokens = token::tokens(alloc, text)?;
    let statements = statements(alloc, &tokens)?;
    if MAX_STATEMENTS < statements.len() {
        return Err(ParseFault::TooMany {
            statement: 1,
            what: Count::Statements,
            limit: MAX_STATEMENTS,
        });
    }
    if statements.is_empty() {
        return Err(ParseFault::NotGrammar { statement: 1 });
    }
    let queries = queries(alloc, &statements)?;
    Ok(Script::new(queries))
}

/// The queries that the statements are, one each, or the first fault.
fn queries<'a>(alloc: Global, statements: &[&[Token<'a>]]) -> Result<Vec<Statement<'a>>, ParseFault>
    ensures accepted { IfOk result (λ queries. AreAccepted (map (λ s. lexemes s.now) statements.now) (map select_of queries.items)) }
    ensures refused { IfErr result (λ fault. (fault ≡ ParseFault.NoMemory) ⊎ HasFirstFault 1 (map (λ s. lexemes s.now) statements.now) fault) }
{
    let mut queries = Vec::new(alloc);
    for (index, tokens) in statements.iter().enumerate() {
        let query = accepted(alloc, index + 1, tokens)?;
        push(&mut queries, query)?;
    }
    Ok(queries)
}

/// The query that the statement of this number is, or its first fault.
fn accepted<'a>(
    alloc: Global,
    statement: usize,
    tokens: &[Token<'a>],
) -> Result<Statement<'a>, ParseFault>
    ensures accepted { IfOk result (λ query. IsAccepted (lexemes tokens.now) (select_of query)) }
    ensures refused { IfErr result (λ fault. (fault ≡ ParseFault.NoMemory) ⊎ HasFault statement (lexemes tokens.now) fault) }
{
    if is_too_deep(tokens) {
        return Err(ParseFault::TooDeep { statement });
    }
    match query(alloc, tokens) {
        Ok(query) => {
            within_limits(statement, &query)?;
            Ok(query)
        }
        Err(Stop::NotGrammar) => Err(ParseFault::NotGrammar { statement }),
        Err(Stop::NoMemory) => Err(ParseFault::NoMemory),
    }
}

/// How many items the select list has; `*` is none.
fn item_count(list: &SelectList<'_>) -> usize
    ensures { result ≡ length (items_of (selected_of list.now)) }
{
    match list {
        SelectList::All => 0,
        SelectList::Items(items) => items.len(),
    }
}

/// How many entries FROM has; at most the greatest number.
fn entry_count(sources: &[Source<'_>]) -> usize
    ensures { result ≡ counted (length (entries_of (map source_of sources.now))) }
{
    let mut count: usize = 0;
    for source in sources {
        count = count.saturating_add(source.joins.len()).saturating_add(1);
    }
    count
}

/// Sees that the query of this number keeps each limit.
fn within_limits(statement: usize, query: &Statement<'_>) -> Result<(), ParseFault>
    ensures kept { IfOk result (λ _. AreTaken (query_items (select_of query.now)) (query_entries (select_of query.now)) (query_columns (select_of query.now)) (query_keys (select_of query.now)) (query_nodes (select_of query.now)) (query_octets (select_of query.now))) }
    ensures passed { IfErr result (λ fault. PassesLimit statement (select_of query.now) fault) }
{
    let size = size_of(query);
    let (what, limit) = if MAX_ITEMS < item_count(&query.list) {
        (Count::SelectItems, MAX_ITEMS)
    } else if MAX_ENTRIES < entry_count(query.sources.as_slice()) {
        (Count::FromEntries, MAX_ENTRIES)
    } else if MAX_COLUMNS < query.grouping.len() {
        (Count::GroupColumns, MAX_COLUMNS)
    } else if MAX_KEYS < query.order.len() {
        (Count::SortKeys, MAX_KEYS)
    } else if MAX_NODES < size.nodes {
        (Count::Nodes, MAX_NODES)
    } else if MAX_LITERAL_OCTETS < size.octets {
        (Count::LiteralOctets, MAX_LITERAL_OCTETS)
    } else {
        return Ok(());
    };
    Err(ParseFault::TooMany {
        statement,
        what,
        limit,
    })
}
