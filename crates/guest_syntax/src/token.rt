//! Tokens: names, keywords, numbers, operators and marks.

ghost use Rattle.std.specs.Prelude.{◌≡◌};
ghost use Rattle.guest_syntax.specs.Tokens.{keyword_text, symbol_text};

use crate::place::Pos;

/// A reserved word: nothing may have it as its name.
#[derive(Clone, Copy, PartialEq, Eq)]
pub enum Keyword {
    Var,
    Mutex,
    Cond,
    Sem,
    Thread,
    Load,
    Store,
    Add,
    Cas,
    Lock,
    Unlock,
    Wait,
    Signal,
    Broadcast,
    Acquire,
    Release,
    Set,
    If,
    Else,
    Repeat,
    Leave,
    Assert,
}

/// An operator such as `+`, or a mark: the `=` of a declaration, a brace or `;`.
#[derive(Clone, Copy, PartialEq, Eq)]
pub enum Symbol {
    Equal,
    NotEqual,
    LessOrEqual,
    GreaterOrEqual,
    Less,
    Greater,
    Plus,
    Minus,
    Times,
    Assign,
    Open,
    Close,
    End,
}

/// What a token is, with the bytes of a name and the value of a number.
#[derive(Clone, Copy)]
pub enum TokenKind<'a> {
    Name(&'a [u8]),
    Keyword(Keyword),
    /// The value of a number; 2^64 - 1 for every number above that.
    Number(u64),
    Symbol(Symbol),
}

/// A token and the place of its first byte.
#[derive(Clone, Copy)]
pub struct Token<'a> {
    pub kind: TokenKind<'a>,
    pub at: Pos,
}

/// All keywords.
pub const KEYWORDS: [Keyword; 22] = [
    Keyword::Var,
    Keyword::Mutex,
    Keyword::Cond,
    Keyword::Sem,
    Keyword::Thread,
    Keyword::Load,
    Keyword::Store,
    Keyword::Add,
    Keyword::Cas,
    Keyword::Lock,
    Keyword::Unlock,
    Keyword::Wait,
    Keyword::Signal,
    Keyword::Broadcast,
    Keyword::Acquire,
    Keyword::Release,
    Keyword::Set,
    Keyword::If,
    Keyword::Else,
    Keyword::Repeat,
    Keyword::Leave,
    Keyword::Assert,
];

/// All operators and marks, longer ones first: the first that a text begins with is the longest.
pub const SYMBOLS: [Symbol; 13] = [
    Symbol::Equal,
    Symbol::NotEqual,
    Symbol::LessOrEqual,
    Symbol::GreaterOrEqual,
    Symbol::Less,
    Symbol::Greater,
    Symbol::Plus,
    Symbol::Minus,
    Symbol::Times,
    Symbol::Assign,
    Symbol::Open,
    Symbol::Close,
    Symbol::End,
];

impl Keyword {
    /// How the keyword is written.
    pub fn text(self) -> &'static [u8]
        ensures { result.now ≡ keyword_text self }
    {
        match self {
            Keyword::Var => b"var",
            Keyword::Mutex => b"mutex",
            Keyword::Cond => b"cond",
            Keyword::Sem => b"sem",
            Keyword::Thread => b"thread",
            Keyword::Load => b"load",
            Keyword::Store => b"store",
            Keyword::Add => b"add",
            Keyword::Cas => b"cas",
            Keyword::Lock => b"lock",
            Keyword::Unlock => b"unlock",
            Keyword::Wait => b"wait",
            Keyword::Signal => b"signal",
            Keyword::Broadcast => b"broadcast",
            Keyword::Acquire => b"acquire",
            Keyword::Release => b"release",
            Keyword::Set => b"set",
            Keyword::If => b"if",
            Keyword::Else => b"else",
            Keyword::Repeat => b"repeat",
            Keyword::Leave => b"leave",
            Keyword::Assert => b"assert",
        }
    }
}

impl Symbol {
    /// How the symbol, an operator or a mark such as `;`, is written.
    pub fn text(self) -> &'static [u8]
        ensures { result.now ≡ symbol_text self }
    {
        match self {
            Symbol::Equal => b"==",
            Symbol::NotEqual => b"!=",
            Symbol::LessOrEqual => b"<=",
            Symbol::GreaterOrEqual => b">=",
            Symbol::Less => b"<",
            Symbol::Greater => b">",
            Symbol::Plus => b"+",
            Symbol::Minus => b"-",
            Symbol::Times => b"*",
            Symbol::Assign => b"=",
            Symbol::Open => b"{",
            Symbol::Close => b"}",
            Symbol::End => b";",
        }
    }
}
