//! The tokens of a statement that are still to be read.

ghost use Rattle.std.specs.Prelude.{◌≡◌, length, option_map, if◌then◌else◌, Some, None, false, IfOk};
ghost use Rattle.qw_token.specs.Token.{lexeme};
ghost use Rattle.qw_ast.specs.ScriptGrammar.{addition_of, comparison_of, field_of, function_of, is_integer, is_name, is_number, is_regular, is_string, multiplication_of, predicate_of, set_function_of, sign_of, truth_of};
ghost use Rattle.qw_parse.specs.Inner.Readers.{inner_join_at, interval_sign_at, join_at, left_join_at, not_at, octets_if, symbol_at, token_at, word_at};
ghost use Rattle.qw_parse.specs.Inner.Parser.{Passes, Reads, behind, first_of, is_there, left};

use super::terminal;
use qw_ast::script::{SetFunction, Sign};
use qw_scalar::comparison::Comparison;
use qw_scalar::expression::{Field, Function, Operator, Predicate};
use qw_token::token::Token;
use qw_types::Truth;
use std::alloc::{AllocError, Global};
use std::collections::VecDeque;

/// Why nothing more is read of a statement.
#[derive(Clone, Copy, PartialEq, Eq)]
pub(crate) enum Stop {
    /// No rule goes on with the next token.
    NotGrammar,
    NoMemory,
}

impl From<AllocError> for Stop {
    ghost use Rattle.qw_parse.specs.declared.read.parser.Stop.TheVariants.{NoMemory};

    ghost from_gives = { λ _ e. e ≡ NoMemory };

    fn from(_e: AllocError) -> Stop {
        Stop::NoMemory
    }
}

/// The tokens that are still to be read, in order.
#[derive(Drop)]
pub(crate) struct Parser<'a> {
    pub(crate) alloc: Global,
    rest: VecDeque<Token<'a>>,
}

impl<'a> Parser<'a> {
    pub(crate) fn new(alloc: Global, tokens: &[Token<'a>]) -> Result<Parser<'a>, AllocError>
        ensures { IfOk result (λ parser. left parser ≡ Rattle.qw_token.specs.Token.lexemes tokens.now) }
    {
        Ok(Parser {
            alloc,
            rest: VecDeque::from_vec(tokens.to_vec(alloc)?),
        })
    }

    pub(crate) fn is_done(&self) -> bool
        ensures { result ≡ Rattle.qw_parse.specs.Inner.Parser.is_none (left self.now) }
    {
        self.rest.is_empty()
    }

    /// How many tokens are still to be read.
    pub(crate) fn count(&self) -> usize
        ensures { result ≡ length (left self.now) }
    {
        self.rest.len()
    }

    /// The next token.
    pub(crate) fn first(&self) -> Option<Token<'a>>
        ensures { option_map lexeme result ≡ first_of (left self.now) }
    {
        self.rest.front().copied()
    }

    /// The token behind the next one.
    fn second(&self) -> Option<Token<'a>>
        ensures { option_map lexeme result ≡ first_of (behind (left self.now)) }
    {
        self.rest.get(1).copied()
    }

    /// The token behind the next two.
    fn third(&self) -> Option<Token<'a>>
        ensures { option_map lexeme result ≡ first_of (behind (behind (left self.now))) }
    {
        self.rest.get(2).copied()
    }

    /// Goes on behind the next token.
    pub(crate) fn skip(&mut self)
        ensures { left self.new ≡ behind (left self.old) }
    {
        self.rest.pop_front();
    }

    /// Whether the key word is next; it is read then.
    #[tactic(auto, unfolding(crate::specs::Inner::Readers::one_at))]
    pub(crate) fn word(&mut self, word: &[u8]) -> bool
        ensures found { word_at word.now (left self.old) ≡ (if result then Some (left self.new) else None) }
        ensures kept { result ≡ false → left self.new ≡ left self.old }
    {
        match self.first() {
            Some(token) if terminal::is_word(&token, word) => {
                self.skip();
                true
            }
            _ => false,
        }
    }

    /// Whether the key word is next.
    #[tactic(auto, unfolding(crate::specs::Inner::Readers::one_at))]
    pub(crate) fn is_word(&self, word: &[u8]) -> bool
        ensures { result ≡ is_there (word_at word.now (left self.now)) }
    {
        match self.first() {
            Some(token) => terminal::is_word(&token, word),
            None => false,
        }
    }

    /// Whether the symbol is next; it is read then.
    #[tactic(auto, unfolding(crate::specs::Inner::Readers::one_at))]
    pub(crate) fn symbol(&mut self, octets: &[u8]) -> bool
        ensures found { symbol_at octets.now (left self.old) ≡ (if result then Some (left self.new) else None) }
        ensures kept { result ≡ false → left self.new ≡ left self.old }
    {
        match self.first() {
            Some(token) if terminal::is_symbol(&token, octets) => {
                self.skip();
                true
            }
            _ => false,
        }
    }

    /// Reads the key word.
    pub(crate) fn expect_word(&mut self, word: &[u8]) -> Result<(), Stop>
        ensures { Passes (word_at word.now (left self.old)) result (left self.new) }
    {
        if self.word(word) {
            Ok(())
        } else {
            Err(Stop::NotGrammar)
        }
    }

    /// Reads the symbol.
    pub(crate) fn expect_symbol(&mut self, octets: &[u8]) -> Result<(), Stop>
        ensures { Passes (symbol_at octets.now (left self.old)) result (left self.new) }
    {
        if self.symbol(octets) {
            Ok(())
        } else {
            Err(Stop::NotGrammar)
        }
    }

    /// Whether NOT is next; it is read then.
    #[tactic(auto, unfolding(crate::specs::Inner::Readers::not_at))]
    pub(crate) fn not(&mut self) -> bool
        ensures { (result, left self.new) ≡ not_at (left self.old) }
    {
        self.word(b"NOT")
    }

    /// The sign that is next, if there is one.
    #[tactic(auto, unfolding(crate::specs::Inner::Readers::token_at))]
    pub(crate) fn sign(&mut self) -> Option<Sign>
        ensures found { token_at sign_of (left self.old) ≡ option_map (λ x. (x, left self.new)) result }
        ensures kept { result ≡ None → left self.new ≡ left self.old }
    {
        let sign = terminal::sign_of(&self.first()?)?;
        self.skip();
        Some(sign)
    }

    /// The sign that is next with INTERVAL behind it, if they are there.
    #[tactic(auto, unfolding(crate::specs::Inner::Readers::interval_sign_at, crate::specs::Inner::Readers::token_at, crate::specs::Inner::Readers::one_at))]
    pub(crate) fn interval_sign(&mut self) -> Option<Sign>
        ensures found { interval_sign_at (left self.old) ≡ option_map (λ x. (x, left self.new)) result }
        ensures kept { result ≡ None → left self.new ≡ left self.old }
    {
        let sign = terminal::sign_of(&self.first()?)?;
        let Some(word) = self.second() else {
            return None;
        };
        if !terminal::is_word(&word, b"INTERVAL") {
            return None;
        }
        self.skip();
        self.skip();
        Some(sign)
    }

    /// Whether JOIN is next, behind INNER or not; it is read then.
    #[tactic(auto, unfolding(crate::specs::Inner::Readers::inner_join_at, crate::specs::Inner::Readers::one_at))]
    fn inner_join(&mut self) -> bool
        ensures found { inner_join_at (left self.old) ≡ (if result then Some (left self.new) else None) }
        ensures kept { result ≡ false → left self.new ≡ left self.old }
    {
        let Some(first) = self.first() else {
            return false;
        };
        if terminal::is_word(&first, b"JOIN") {
            self.skip();
            return true;
        }
        let Some(second) = self.second() else {
            return false;
        };
        if !terminal::is_word(&first, b"INNER") || !terminal::is_word(&second, b"JOIN") {
            return false;
        }
        self.skip();
        self.skip();
        true
    }

    /// Whether LEFT JOIN or LEFT OUTER JOIN is next; it is read then.
    #[tactic(auto, unfolding(crate::specs::Inner::Readers::left_join_at, crate::specs::Inner::Readers::one_at))]
    fn left_join(&mut self) -> bool
        ensures found { left_join_at (left self.old) ≡ (if result then Some (left self.new) else None) }
        ensures kept { result ≡ false → left self.new ≡ left self.old }
    {
        let (Some(first), Some(second)) = (self.first(), self.second()) else {
            return false;
        };
        if !terminal::is_word(&first, b"LEFT") {
            return false;
        }
        if terminal::is_word(&second, b"JOIN") {
            self.skip();
            self.skip();
            return true;
        }
        if !terminal::is_word(&second, b"OUTER") {
            return false;
        }
        let Some(third) = self.third() else {
            return false;
        };
        if !terminal::is_word(&third, b"JOIN") {
            return false;
        }
        self.skip();
        self.skip();
        self.skip();
        true
    }

    /// Whether the join that is next is outer, if there is one; its type and JOIN are read then.
    #[tactic(auto, unfolding(crate::specs::Inner::Readers::join_at))]
    pub(crate) fn join(&mut self) -> Option<bool>
        ensures found { join_at (left self.old) ≡ option_map (λ x. (x, left self.new)) result }
        ensures kept { result ≡ None → left self.new ≡ left self.old }
    {
        if self.inner_join() {
            return Some(false);
        }
        if self.left_join() {
            return Some(true);
        }
        None
    }

    /// The `+` or `-` that is next, if there is one.
    #[tactic(auto, unfolding(crate::specs::Inner::Readers::token_at))]
    pub(crate) fn addition(&mut self) -> Option<Operator>
        ensures found { token_at addition_of (left self.old) ≡ option_map (λ x. (x, left self.new)) result }
        ensures kept { result ≡ None → left self.new ≡ left self.old }
    {
        let operator = terminal::addition_of(&self.first()?)?;
        self.skip();
        Some(operator)
    }

    /// The `*` or `/` that is next, if there is one.
    #[tactic(auto, unfolding(crate::specs::Inner::Readers::token_at))]
    pub(crate) fn multiplication(&mut self) -> Option<Operator>
        ensures found { token_at multiplication_of (left self.old) ≡ option_map (λ x. (x, left self.new)) result }
        ensures kept { result ≡ None → left self.new ≡ left self.old }
    {
        let operator = terminal::multiplication_of(&self.first()?)?;
        self.skip();
        Some(operator)
    }

    /// The comparison that is next, if there is one.
    #[tactic(auto, unfolding(crate::specs::Inner::Readers::token_at))]
    pub(crate) fn comparison(&mut self) -> Option<Comparison>
        ensures found { token_at comparison_of (left self.old) ≡ option_map (λ x. (x, left self.new)) result }
        ensures kept { result ≡ None → left self.new ≡ left self.old }
    {
        let comparison = terminal::comparison_of(&self.first()?)?;
        self.skip();
        Some(comparison)
    }

    /// The function whose word is next, if there is one.
    #[tactic(auto, unfolding(crate::specs::Inner::Readers::token_at))]
    pub(crate) fn function(&mut self) -> Option<Function>
        ensures found { token_at function_of (left self.old) ≡ option_map (λ x. (x, left self.new)) result }
        ensures kept { result ≡ None → left self.new ≡ left self.old }
    {
        let function = terminal::function_of(&self.first()?)?;
        self.skip();
        Some(function)
    }

    /// The set function whose word is next, if there is one.
    #[tactic(auto, unfolding(crate::specs::Inner::Readers::token_at))]
    pub(crate) fn set_function(&mut self) -> Option<SetFunction>
        ensures found { token_at set_function_of (left self.old) ≡ option_map (λ x. (x, left self.new)) result }
        ensures kept { result ≡ None → left self.new ≡ left self.old }
    {
        let function = terminal::set_function_of(&self.first()?)?;
        self.skip();
        Some(function)
    }

    /// Reads the word of a predicate of one value.
    #[tactic(auto, unfolding(crate::specs::Inner::Readers::token_at))]
    pub(crate) fn predicate(&mut self) -> Result<Predicate, Stop>
        ensures { Reads (λ x. x) (token_at predicate_of (left self.old)) result (left self.new) }
    {
        let token = self.first().ok_or(Stop::NotGrammar)?;
        let predicate = terminal::predicate_of(&token).ok_or(Stop::NotGrammar)?;
        self.skip();
        Ok(predicate)
    }

    /// Reads the name of a field of a date.
    #[tactic(auto, unfolding(crate::specs::Inner::Readers::token_at))]
    pub(crate) fn field(&mut self) -> Result<Field, Stop>
        ensures { Reads (λ x. x) (token_at field_of (left self.old)) result (left self.new) }
    {
        let token = self.first().ok_or(Stop::NotGrammar)?;
        let field = terminal::field_of(&token).ok_or(Stop::NotGrammar)?;
        self.skip();
        Ok(field)
    }

    /// Reads a truth value.
    #[tactic(auto, unfolding(crate::specs::Inner::Readers::token_at))]
    pub(crate) fn truth(&mut self) -> Result<Truth, Stop>
        ensures { Reads (λ x. x) (token_at truth_of (left self.old)) result (left self.new) }
    {
        let token = self.first().ok_or(Stop::NotGrammar)?;
        let truth = terminal::truth_of(&token).ok_or(Stop::NotGrammar)?;
        self.skip();
        Ok(truth)
    }

    /// The number that is next, if there is one.
    #[tactic(auto, unfolding(crate::specs::Inner::Readers::token_at))]
    pub(crate) fn number(&mut self) -> Option<&'a [u8]>
        ensures found { token_at (octets_if is_number) (left self.old) ≡ option_map (λ x. (x.now, left self.new)) result }
        ensures kept { result ≡ None → left self.new ≡ left self.old }
    {
        let token = self.first()?;
        if !terminal::is_number(&token) {
            return None;
        }
        self.skip();
        Some(token.octets)
    }

    /// The number without a point that is next, if there is one.
    #[tactic(auto, unfolding(crate::specs::Inner::Readers::token_at))]
    pub(crate) fn integer(&mut self) -> Option<&'a [u8]>
        ensures found { token_at (octets_if is_integer) (left self.old) ≡ option_map (λ x. (x.now, left self.new)) result }
        ensures kept { result ≡ None → left self.new ≡ left self.old }
    {
        let token = self.first()?;
        if !terminal::is_integer(&token) {
            return None;
        }
        self.skip();
        Some(token.octets)
    }

    /// The character string that is next, if there is one, with its quotes.
    #[tactic(auto, unfolding(crate::specs::Inner::Readers::token_at))]
    pub(crate) fn string(&mut self) -> Option<&'a [u8]>
        ensures found { token_at (octets_if is_string) (left self.old) ≡ option_map (λ x. (x.now, left self.new)) result }
        ensures kept { result ≡ None → left self.new ≡ left self.old }
    {
        let token = self.first()?;
        if !terminal::is_string(&token) {
            return None;
        }
        self.skip();
        Some(token.octets)
    }

    /// The identifier that is next, if there is one, as it stands in the text.
    #[tactic(auto, unfolding(crate::specs::Inner::Readers::token_at))]
    pub(crate) fn name(&mut self) -> Option<&'a [u8]>
        ensures found { token_at (octets_if is_name) (left self.old) ≡ option_map (λ x. (x.now, left self.new)) result }
        ensures kept { result ≡ None → left self.new ≡ left self.old }
    {
        let Some(token) = self.first() else {
            return None;
        };
        if !terminal::is_name(&token) {
            return None;
        }
        self.skip();
        Some(token.octets)
    }

    /// Reads a regular identifier.
    #[tactic(auto, unfolding(crate::specs::Inner::Readers::token_at))]
    pub(crate) fn regular(&mut self) -> Result<&'a [u8], Stop>
        ensures { Reads (λ x. x.now) (token_at (octets_if is_regular) (left self.old)) result (left self.new) }
    {
        let Some(token) = self.first() else {
            return Err(Stop::NotGrammar);
        };
        if !terminal::is_regular(&token) {
            return Err(Stop::NotGrammar);
        }
        self.skip();
        Ok(token.octets)
    }

    /// Reads a number without a point.
    #[tactic(auto, unfolding(crate::specs::Inner::Readers::one_at))]
    pub(crate) fn expect_integer(&mut self) -> Result<(), Stop>
        ensures { Passes (Rattle.qw_parse.specs.Inner.Readers.one_at is_integer (left self.old)) result (left self.new) }
    {
        let token = self.first().ok_or(Stop::NotGrammar)?;
        if !terminal::is_integer(&token) {
            return Err(Stop::NotGrammar);
        }
        self.skip();
        Ok(())
    }
}
