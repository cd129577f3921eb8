//! The reader of a text, and how it reads single tokens of the kinds that the grammar wants.

ghost use Rattle.std.specs.Prelude.{◌≡◌, ◌≤◌, IfOk, IfSome, None, option_map};
ghost use Rattle.guest_syntax.specs.{Tokens.symbol, Tree.name_view};
ghost use Rattle.guest_syntax.specs.declared.{limits.TheConstants.REPEATS, tokens.Reader.Reader};
ghost use Rattle.guest_syntax.specs.reader.Gives.{Gives};
ghost use Rattle.guest_syntax.specs.reader.Reads.{IsPlaceOf, IsTokenOf, IsEndOf, StaysAt, rest_of, Parses, Reads, StaysIn, TakesToken, ItemTakesToken};
ghost use Rattle.guest_syntax.specs.reader.SingleTokens.{next_at, token_at, symbol_from, name_from, number_in, number_from, times_from};
ghost use Rattle.guest_syntax.specs.reader.TokenViews.{kind_view, token_view};

use crate::cursor::Cursor;
use crate::error::SyntaxError;
use crate::lexer::first_token;
use crate::limits::REPEATS;
use crate::place::Pos;
use crate::token::{Symbol, Token, TokenKind};
use crate::tree::Name;
use std::alloc::Global;

/// Reads a text token by token: each method answers what comes next, and goes on past that. After a
/// refusal it may be anywhere.
#[derive(Clone, Copy)]
pub struct Reader<'a> {
    pub alloc: Global,
    pub cursor: Cursor<'a>,
}

impl<'a> Reader<'a> {
    /// Reads the next token; `None` at the end. Refuses a byte above 127, or that begins no token.
    pub fn next_token(&mut self) -> Result<Option<Token<'a>>, SyntaxError>
        ensures gives { Reads (option_map token_view) result next_at self.old self.new }
        ensures spelt { IfOk result (λ x. IfSome x (λ t. IsTokenOf self.old (token_view t))) }
        ensures place { IfOk result (λ x. IfSome x (λ t. IsPlaceOf self.old t.at)) }
        ensures end { IfOk result (λ x. x ≡ None → IsEndOf self.old self.new.cursor.at) }
        ensures within { StaysIn result self.old self.new }
        ensures shorter { ItemTakesToken result self.old self.new }
    {
        let (token, after) = first_token(self.cursor)?;
        self.cursor = after;
        Ok(token)
    }

    /// Reads the next token; refuses the end of the text.
    #[tactic(auto, unfolding(crate::specs::reader::SingleTokens::next_at, crate::specs::reader::SingleTokens::token_at))]
    pub fn token(&mut self) -> Result<Token<'a>, SyntaxError>
        ensures gives { Reads token_view result token_at self.old self.new }
        ensures spelt { IfOk result (λ t. IsTokenOf self.old (token_view t)) }
        ensures place { IfOk result (λ t. IsPlaceOf self.old t.at) }
        ensures within { StaysIn result self.old self.new }
        ensures shorter { TakesToken result self.old self.new }
    {
        match self.next_token()? {
            Some(token) => Ok(token),
            None => Err(SyntaxError::Expected(self.cursor.at)),
        }
    }

    /// Reads the next token, which must be the symbol `wanted`, and answers its place.
    #[tactic(auto, unfolding(crate::specs::reader::SingleTokens::symbol_from))]
    pub fn symbol(&mut self, wanted: Symbol) -> Result<Pos, SyntaxError>
        ensures gives { Gives (λ _. rest_of self.new) result
            (symbol_from wanted (rest_of self.old)) }
        ensures place { IfOk result (λ p.
            IsTokenOf self.old (record { kind = symbol wanted; at = p })) }
        ensures within { StaysIn result self.old self.new }
        ensures shorter { TakesToken result self.old self.new }
    {
        let token = self.token()?;
        match token.kind {
            TokenKind::Symbol(found) if found == wanted => Ok(token.at),
            _ => Err(SyntaxError::Expected(token.at)),
        }
    }

    /// Reads the next token, which must be a name, and answers a copy of it with its place.
    #[tactic(auto, unfolding(crate::specs::reader::SingleTokens::name_from))]
    pub fn name(&mut self) -> Result<Name, SyntaxError>
        ensures { Parses name_view result name_from self.old self.new }
    {
        let token = self.token()?;
        match token.kind {
            TokenKind::Name(bytes) => {
                let text = Vec::from_slice(self.alloc, bytes)?;
                Ok(Name { text, at: token.at })
            }
            _ => Err(SyntaxError::Expected(token.at)),
        }
    }

    /// Reads the next token, which must be a number up to `limit`, and answers its value.
    #[tactic(auto, unfolding(crate::specs::reader::SingleTokens::number_from))]
    pub fn number(&mut self, limit: u64) -> Result<u64, SyntaxError>
        requires least { REPEATS ≤ limit }
        ensures parses { Parses (λ x. x) result (number_from limit) self.old self.new }
        ensures limit { IfOk result (λ n. n ≤ limit) }
    {
        number_in(self.token()?, limit)
    }

    /// Reads how often a `repeat` runs its block, a number from 1 to `REPEATS`, after its keyword.
    #[tactic(auto, unfolding(crate::specs::reader::SingleTokens::times_from))]
    pub fn repeat_count(&mut self) -> Result<u8, SyntaxError>
        ensures { Parses (λ x. x) result times_from self.old self.new }
    {
        let token = self.token()?;
        let times = number_in(token, REPEATS)?;
        if times == 0 {
            return Err(SyntaxError::Expected(token.at));
        }
        Ok(times as u8)
    }
}

/// The value of a token that is read already; refuses all but a number up to `limit`.
pub fn number_in(token: Token, limit: u64) -> Result<u64, SyntaxError>
    requires least { REPEATS ≤ limit }
    ensures gives { Gives (λ n. n) result (number_in limit (kind_view token.entry.kind)) }
    ensures limit { IfOk result (λ n. n ≤ limit) }
    ensures place { (reader : Reader) → IsTokenOf reader (token_view token.entry)
        → StaysAt result reader }
{
    match token.kind {
        TokenKind::Number(n) if n <= limit => Ok(n),
        TokenKind::Number(_) => Err(SyntaxError::NumberTooBig(token.at)),
        _ => Err(SyntaxError::Expected(token.at)),
    }
}
