//! The schema that a text declares.

mod declare;
mod form;
mod literal;
mod name;
mod table;

ghost use Rattle.std.specs.Prelude.{◌≡◌, ◌⊎◌, List, ℕ, IfOk, IfErr};
ghost use Rattle.qw_types.specs.declared.schema.Table.{Table};
ghost use Rattle.qw_types.specs.Octets.{double_quote};
ghost use Rattle.qw_token.specs.Token.{Lexeme, quoted};
ghost use Rattle.qw_ast.specs.Grammar.{name_of};
ghost use Rattle.qw_ast.specs.SchemaGrammar.{IsTableOf};
ghost use Rattle.qw_schema.specs.Parse.{IsRefused, ReadsSchema};
ghost use Rattle.qw_schema.specs.Inner.Faults.{schema_fault_of};

use declare::declared;
use qw_ast::statement::statements;
use qw_token::token::{self, TokenFault};
use qw_types::schema::MAX_TABLES;
use qw_types::{NoMemory, Schema};
use std::alloc::Global;
use thiserror::Error;

/// What there may be too many of.
#[derive(Clone, Copy, Debug, PartialEq, Eq)]
pub enum Count {
    Tables,
    Columns,
}

/// Why a text declares no schema. Statements are counted from 1.
#[derive(Clone, Copy, Debug, PartialEq, Eq, Error)]
pub enum SchemaFault {
    #[error("the text is not UTF-8")]
    NotUtf8,
    /// No token begins at this octet, counted from 0 at the start of the text.
    #[error("no token begins at octet {at}")]
    NotToken {
        at: usize,
    },
    /// The statement is no table definition, or there is none.
    #[error("statement {statement} is no table definition")]
    NotGrammar {
        statement: usize,
    },
    /// More brackets are open behind a token of the statement than are taken.
    #[error("statement {statement} is nested too deeply")]
    TooDeep {
        statement: usize,
    },
    /// More than `limit` of something; of tables at statement 1.
    #[error("there are too many of {what:?} in statement {statement}, more than {limit}")]
    TooMany {
        statement: usize,
        what: Count,
        limit: usize,
    },
    /// The name of the table or of a column comes again.
    #[error("a name comes again in statement {statement}")]
    Duplicate {
        statement: usize,
    },
    /// A size of a data type isn't taken.
    #[error("a size is not taken in statement {statement}")]
    BadSize {
        statement: usize,
    },
    #[error("want of memory")]
    NoMemory,
}

impl From<TokenFault> for SchemaFault {
    ghost from_gives = { λ fault e. e ≡ schema_fault_of fault };

    fn from(fault: TokenFault) -> SchemaFault {
        match fault {
            TokenFault::NotUtf8 => SchemaFault::NotUtf8,
            TokenFault::NotToken { at } => SchemaFault::NotToken { at },
            TokenFault::NoMemory => SchemaFault::NoMemory,
        }
    }
}

impl From<NoMemory> for SchemaFault {
    ghost use Rattle.qw_schema.specs.declared.parse.SchemaFault.TheVariants.{NoMemory};

    ghost from_gives = { λ _ e. e ≡ NoMemory };

    fn from(_e: NoMemory) -> SchemaFault {
        SchemaFault::NoMemory
    }
}

/// The schema that the text declares: 1 to 32 tables, each by a statement of its own, with a `;` between each two and one
/// or none behind the last (ISO/IEC 9075:1992, 11.3, 11.4, 6.1).
///
/// # Errors
///
/// The first of these: `NotUtf8`; `NotToken`; `TooMany` of tables; then statement by statement `TooDeep`, `NotGrammar`,
/// `TooMany` of columns, `Duplicate`, `BadSize`. A text without a statement is `NotGrammar`. And `NoMemory`.
pub fn schema_of(alloc: Global, text: &[u8]) -> Result<Schema, SchemaFault>
    ensures read { IfOk result (λ schema. ReadsSchema text.now schema) }
    ensures refused { IfErr result (λ fault. (fault ≡ SchemaFault.NoMemory) ⊎ IsRefused text.now fault) }
{
    let tokens = token::tokens(alloc, text)?;
    let statements = statements(alloc, &tokens)?;
    if MAX_TABLES < statements.len() {
        return Err(SchemaFault::TooMany {
            statement: 1,
            what: Count::Tables,
            limit: MAX_TABLES,
        });
    }
    if statements.is_empty() {
        return Err(SchemaFault::NotGrammar { statement: 1 });
    }
    let tables = declared(alloc, &statements)?;
    Ok(Schema::new(tables))
}

/// The name of a delimited identifier is the one that is quoted in it.
pub fn delimited_names()
    ensures { (name : List ℕ) → name_of (quoted double_quote name) ≡ name }
{}

/// Tokens are one table definition at most.
pub fn one_table_definition()
    ensures { (tokens : List Lexeme) (table other : Table) → IsTableOf tokens table → IsTableOf tokens other → table ≡ other }
{}

/// A text declares one schema, or is refused for one cause. So `schema_of` answers a schema exactly where the text declares
/// it, and each fault exactly where the text is refused for it, unless memory runs out.
pub fn one_schema()
    ensures schema { (text : List ℕ) (tables others : List Table) → ReadsSchema text tables → ReadsSchema text others → tables ≡ others }
    ensures cause { (text : List ℕ) (fault other : SchemaFault) → IsRefused text fault → IsRefused text other → fault ≡ other }
    ensures either { (text : List ℕ) (tables : List Table) (fault : SchemaFault) → ReadsSchema text tables → IsRefused text fault → ⊥ }
{}
