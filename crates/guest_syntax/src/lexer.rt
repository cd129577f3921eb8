//! From bytes to tokens, one at a time as they are asked for.

ghost use Rattle.std.specs.Prelude.{◌≡◌, ◌+◌, ◌<◌, ◌≤◌, ◌^◌, length, false, IfOk, IfErr, IfSome, None, take, drop, [], ◌∷◌, option_map, find, nat_eq};
ghost use Rattle.std.specs.{List.{starts_with, prefix_len}, Str.bytes_eq};
ghost use Rattle.guest_syntax.specs.{Answers.{IsTokenIn, RefusalIn}, Place.after};
ghost use Rattle.guest_syntax.specs.Tokens.{keyword_text, symbol_text, is_space, is_letter, is_digit, is_name_byte, blank};
ghost use Rattle.guest_syntax.specs.reader.{Gives.Gives, Reads.Scans};
ghost use Rattle.guest_syntax.specs.reader.Scanner.{skipped, name_or_keyword, capped, symbol_at, kind_at, first};
ghost use Rattle.guest_syntax.specs.reader.TokenViews.{kind_view};
ghost use Rattle.guest_syntax.specs.Place as place;

use crate::cursor::Cursor;
use crate::error::SyntaxError;
use crate::place::Pos;
use crate::token::{KEYWORDS, Keyword, SYMBOLS, Symbol, Token, TokenKind};

// Whether a byte is a space, a tab, a line feed or a carriage return.
fn is_space(byte: u8) -> bool
    ensures { result ≡ is_space byte }
{
    byte == b' ' || byte == b'\t' || byte == b'\n' || byte == b'\r'
}

// Whether a name or a keyword may begin with a byte: an ASCII letter or `_`.
fn is_name_start(byte: u8) -> bool
    ensures { result ≡ is_letter byte }
{
    byte.is_ascii_alphabetic() || byte == b'_'
}

// Whether a byte is an ASCII digit.
fn is_ascii_digit(byte: u8) -> bool
    ensures { result ≡ is_digit byte }
{
    byte.is_ascii_digit()
}

// Whether a byte may be in a name after its first byte: an ASCII letter, `_` or a digit.
fn is_name_byte(byte: u8) -> bool
    ensures { result ≡ is_name_byte byte }
{
    is_name_start(byte) || is_ascii_digit(byte)
}

/// Whether a comment goes on after a byte, where `comment` says whether one goes on before it;
/// `None` where the byte is neither in a comment nor blank, nor the `#` that begins a comment.
pub fn comment_goes_on(comment: bool, byte: u8) -> Option<bool>
    ensures { result ≡ blank comment (byte ∷ []) }
{
    if comment {
        Some(byte != b'\n')
    } else if byte == b'#' {
        Some(true)
    } else if is_space(byte) {
        Some(false)
    } else {
        None
    }
}

// The place after the spaces and comments that a text at `start` begins with, and the text from
// there. Refuses a byte above 127 in these or right after them.
fn skip_blank_bytes<'a>(text: &'a [u8], start: Pos) -> Result<(Pos, &'a [u8]), SyntaxError>
    requires line { start.line + length text.now < 2 ^ 32 }
    requires col { start.col + length text.now < 2 ^ 32 }
    ensures gives { Gives (λ x. (x.0, x.1.now)) result (skipped false start text.now) }
    ensures line { IfOk result (λ x. x.0.line + length x.1.now ≤ start.line + length text.now) }
    ensures col { IfOk result (λ x. x.0.col + length x.1.now ≤ start.col + length text.now) }
    ensures refused { IfErr result (RefusalIn start text.now) }
{
    let mut at = start;
    let mut comment = false;
    for (i, byte) in text.iter().enumerate() {
        if *byte > 127 {
            return Err(SyntaxError::NotAscii(at));
        }
        match comment_goes_on(comment, *byte) {
            Some(goes_on) => comment = goes_on,
            None => return Ok((at, &text[i..])),
        }
        at = at.past(*byte);
    }
    Ok((at, &text[text.len()..]))
}

// The cursor after the spaces and comments that come next in the text. Refuses a byte above 127 in
// these or right after them.
fn skip_blanks<'a>(text: Cursor<'a>) -> Result<Cursor<'a>, SyntaxError>
    ensures gives { Gives (λ x. (x.at, x.rest.now)) result
        (skipped false text.entry.at text.entry.rest.now) }
    ensures same { IfOk result (λ x. x.text.now ≡ text.entry.text.now) }
    ensures refused { IfErr result (RefusalIn place.start text.entry.text.now) }
{
    let (at, rest) = skip_blank_bytes(text.rest, text.at)?;
    let text = text.text;
    Ok(Cursor { text, rest, at })
}

/// The cursor after the next `len` bytes of the text.
pub fn advance<'a>(text: Cursor<'a>, len: usize) -> Cursor<'a>
    requires { len ≤ length text.rest.now }
    ensures rest { result.rest.now ≡ drop len text.entry.rest.now }
    ensures at { result.at ≡ after text.entry.at (take len text.entry.rest.now) }
    ensures text { result.text.now ≡ text.entry.text.now }
{
    let (passed, rest) = text.rest.split_at(len);
    let at = text.at.after(passed);
    let text = text.text;
    Cursor { text, rest, at }
}

// The keyword among `keywords` that is written as `text`; `None` where none is.
fn keyword_in(keywords: &[Keyword], text: &[u8]) -> Option<Keyword>
    ensures { result ≡ find (λ w. bytes_eq (keyword_text w) text.now) keywords.now }
{
    keywords.iter().copied().find(|w| w.text() == text)
}

// What kind of token a word is: the keyword that is written like it, or else a name.
fn keyword_or_name(text: &[u8]) -> TokenKind<'_>
    ensures { kind_view result ≡ name_or_keyword text.now }
{
    match keyword_in(&KEYWORDS, text) {
        Some(keyword) => TokenKind::Keyword(keyword),
        None => TokenKind::Name(text),
    }
}

// The number that decimal digits spell; 2^64 - 1 for every number above that.
fn saturating_number(digits: &[u8]) -> u64
    ensures { result ≡ capped digits.now }
{
    digits.iter().fold(
        0,
        |n: u64, b| n
            .saturating_mul(10)
            .saturating_add(b.saturating_sub(b'0') as u64),
    )
}

// The first of `symbols` that a text begins with; `None` where it begins with none of them.
fn symbol_in(symbols: &[Symbol], text: &[u8]) -> Option<Symbol>
    ensures { result ≡ find (λ s. starts_with nat_eq text.now (symbol_text s)) symbols.now }
{
    symbols.iter().copied().find(|s| text.starts_with(s.text()))
}

// The longest symbol that a text begins with: `SYMBOLS` has longer ones first; `None` if none.
fn symbol_at(text: &[u8]) -> Option<Symbol>
    ensures { result ≡ symbol_at text.now }
{
    symbol_in(&SYMBOLS, text)
}

// How many ASCII letters, digits and `_` a text begins with.
fn name_len(text: &[u8]) -> usize
    ensures { result ≡ prefix_len is_name_byte text.now }
{
    text.iter().take_while(|b| is_name_byte(**b)).count()
}

// How many ASCII digits a text begins with.
fn digits_len(text: &[u8]) -> usize
    ensures { result ≡ prefix_len is_digit text.now }
{
    text.iter().take_while(|b| is_ascii_digit(**b)).count()
}

/// The longest token that a text begins with: its kind, and its length in bytes. `None` where the
/// text, which isn't empty, begins with a byte that begins no token, such as a space.
#[tactic(auto, unfolding(crate::specs::reader::Scanner::kind_at))]
pub fn kind_at(text: &[u8]) -> Option<(TokenKind<'_>, usize)>
    requires { 0 < length text.now }
    ensures kind { option_map (λ x. (kind_view x.0, x.1)) result ≡ kind_at text.now }
    ensures length { IfSome result (λ x. x.1 ≤ length text.now) }
{
    if is_name_start(text[0]) {
        let len = name_len(text);
        Some((keyword_or_name(&text[..len]), len))
    } else if is_ascii_digit(text[0]) {
        let len = digits_len(text);
        Some((TokenKind::Number(saturating_number(&text[..len])), len))
    } else {
        let symbol = symbol_at(text)?;
        Some((TokenKind::Symbol(symbol), symbol.text().len()))
    }
}

/// The next token, past spaces and comments, and the cursor after it; `None` at the text's end.
/// Refuses a byte above 127, or one that begins no token.
#[tactic(auto, unfolding(crate::specs::reader::Scanner::first))]
pub fn first_token<'a>(text: Cursor<'a>) -> Result<(Option<Token<'a>>, Cursor<'a>), SyntaxError>
    ensures gives { Scans result text.entry }
    ensures end { IfOk result (λ x. x.0 ≡ None → x.1.rest.now ≡ []) }
    ensures same { IfOk result (λ x. x.1.text.now ≡ text.entry.text.now) }
    ensures refused { IfErr result (RefusalIn place.start text.entry.text.now) }
    ensures place { IfOk result (λ x. IfSome x.0 (λ t.
        IsTokenIn place.start text.entry.text.now (kind_view t.kind) t.at)) }
{
    let start = skip_blanks(text)?;
    if start.rest.is_empty() {
        return Ok((None, start));
    }
    let Some((kind, len)) = kind_at(start.rest) else {
        return Err(SyntaxError::BadChar(start.at));
    };
    let token = Token { kind, at: start.at };
    Ok((Some(token), advance(start, len)))
}
