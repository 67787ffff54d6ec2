//! Why a text is no script.

ghost use Rattle.std.specs.Prelude.{◌≡◌};
ghost use Rattle.qw_parse.specs.Inner.Judges.{fault_of};

use qw_token::token::TokenFault;
use qw_types::NoMemory;
use std::alloc::AllocError;
use thiserror::Error;

/// What there may be too many of.
#[derive(Clone, Copy, Debug, PartialEq, Eq)]
pub enum Count {
    Statements,
    SelectItems,
    FromEntries,
    GroupColumns,
    SortKeys,
    Nodes,
    LiteralOctets,
}

/// Why a text is no script. Statements are counted from 1.
#[derive(Clone, Copy, Debug, PartialEq, Eq, Error)]
pub enum ParseFault {
    #[error("the text is not UTF-8")]
    NotUtf8,
    /// No token begins at this octet, counted from 0 at the start of the text.
    #[error("no token begins at octet {at}")]
    NotToken {
        at: usize,
    },
    /// The statement is no query, or there is none.
    #[error("statement {statement} is no query")]
    NotGrammar {
        statement: usize,
    },
    /// More brackets are open behind a token of the statement than are taken.
    #[error("statement {statement} is nested too deeply")]
    TooDeep {
        statement: usize,
    },
    /// More than `limit` of something; of statements at statement 1.
    #[error("there are too many of {what:?} in statement {statement}, more than {limit}")]
    TooMany {
        statement: usize,
        what: Count,
        limit: usize,
    },
    #[error("want of memory")]
    NoMemory,
}

impl From<TokenFault> for ParseFault {
    ghost from_gives = { λ fault e. e ≡ fault_of fault };

    fn from(fault: TokenFault) -> ParseFault {
        match fault {
            TokenFault::NotUtf8 => ParseFault::NotUtf8,
            TokenFault::NotToken { at } => ParseFault::NotToken { at },
            TokenFault::NoMemory => ParseFault::NoMemory,
        }
    }
}

impl From<NoMemory> for ParseFault {
    ghost use Rattle.qw_parse.specs.declared.fault.ParseFault.TheVariants.{NoMemory};

    ghost from_gives = { λ _ e. e ≡ NoMemory };

    fn from(_e: NoMemory) -> ParseFault {
        ParseFault::NoMemory
    }
}

impl From<AllocError> for ParseFault {
    ghost use Rattle.qw_parse.specs.declared.fault.ParseFault.TheVariants.{NoMemory};

    ghost from_gives = { λ _ e. e ≡ NoMemory };

    fn from(_e: AllocError) -> ParseFault {
        ParseFault::NoMemory
    }
}
