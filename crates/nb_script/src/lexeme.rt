//! What the parser reads: words, numbers, texts and symbols, with their places.
ghost use Rattle.std.specs.Prelude.{◌≡◌};
ghost use Rattle.nb_script.specs.Words.{keyword_text, keyword_in, keyword_of};

use nb_base::Text;

/// A word that is no name.
#[derive(Clone, Copy, Debug, PartialEq, Eq)]
pub enum Keyword {
    Message,
    Saga,
    Handler,
    On,
    By,
    Fields,
    Start,
    Find,
    Reply,
    Timeout,
    Let,
    Set,
    Put,
    Add,
    Erase,
    Row,
    Has,
    Send,
    Local,
    Publish,
    Originator,
    After,
    Complete,
    Fail,
    Reject,
    If,
    Else,
    Msg,
    True,
    False,
    Retries,
    Now,
    Sent,
    Id,
    Text,
    Len,
    Int,
    Bool,
}

/// A symbol, named for what it is in most places.
#[derive(Clone, Copy, Debug, PartialEq, Eq)]
pub enum Symbol {
    OpenBrace,
    CloseBrace,
    Open,
    Close,
    Comma,
    Semi,
    Colon,
    Dot,
    Assign,
    Equal,
    Unequal,
    Less,
    LessOrEqual,
    Greater,
    GreaterOrEqual,
    Plus,
    Join,
    Minus,
    Star,
    And,
    Or,
    Not,
}

/// What a token says.
#[derive(Debug, Drop)]
pub enum Content {
    Word(Text),
    /// From 0.
    Number(i64),
    /// The text between the quotes, without its escapes.
    Quoted(Text),
    Symbol(Symbol),
}

/// A token as the parser sees it, and its place.
#[derive(Debug, Drop)]
pub struct Lexeme {
    pub at: u32,
    pub content: Content,
}

/// What the parser goes by: a token but for its text.
#[derive(Clone, Copy, Debug, PartialEq, Eq)]
pub enum Seen {
    End,
    Key(Keyword),
    Name,
    Number,
    Quoted,
    Symbol(Symbol),
}

/// All keywords.
pub const KEYWORDS: [Keyword; 38] = [
    Keyword::Message,
    Keyword::Saga,
    Keyword::Handler,
    Keyword::On,
    Keyword::By,
    Keyword::Fields,
    Keyword::Start,
    Keyword::Find,
    Keyword::Reply,
    Keyword::Timeout,
    Keyword::Let,
    Keyword::Set,
    Keyword::Put,
    Keyword::Add,
    Keyword::Erase,
    Keyword::Row,
    Keyword::Has,
    Keyword::Send,
    Keyword::Local,
    Keyword::Publish,
    Keyword::Originator,
    Keyword::After,
    Keyword::Complete,
    Keyword::Fail,
    Keyword::Reject,
    Keyword::If,
    Keyword::Else,
    Keyword::Msg,
    Keyword::True,
    Keyword::False,
    Keyword::Retries,
    Keyword::Now,
    Keyword::Sent,
    Keyword::Id,
    Keyword::Text,
    Keyword::Len,
    Keyword::Int,
    Keyword::Bool,
];

impl Keyword {
    /// The word.
    pub fn text(self) -> &'static str
        ensures { result.now ≡ keyword_text self }
    {
        match self {
            Keyword::Message => "message",
            Keyword::Saga => "saga",
            Keyword::Handler => "handler",
            Keyword::On => "on",
            Keyword::By => "by",
            Keyword::Fields => "fields",
            Keyword::Start => "start",
            Keyword::Find => "find",
            Keyword::Reply => "reply",
            Keyword::Timeout => "timeout",
            Keyword::Let => "let",
            Keyword::Set => "set",
            Keyword::Put => "put",
            Keyword::Add => "add",
            Keyword::Erase => "erase",
            Keyword::Row => "row",
            Keyword::Has => "has",
            Keyword::Send => "send",
            Keyword::Local => "local",
            Keyword::Publish => "publish",
            Keyword::Originator => "originator",
            Keyword::After => "after",
            Keyword::Complete => "complete",
            Keyword::Fail => "fail",
            Keyword::Reject => "reject",
            Keyword::If => "if",
            Keyword::Else => "else",
            Keyword::Msg => "msg",
            Keyword::True => "true",
            Keyword::False => "false",
            Keyword::Retries => "retries",
            Keyword::Now => "now",
            Keyword::Sent => "sent",
            Keyword::Id => "id",
            Keyword::Text => "text",
            Keyword::Len => "len",
            Keyword::Int => "int",
            Keyword::Bool => "bool",
        }
    }

    /// The keyword that a word is.
    #[tactic(auto, unfolding(crate::specs::Words::keyword_of))]
    pub fn of(word: &str) -> Option<Keyword>
        ensures { result ≡ keyword_of word.now }
    {
        keyword_in(&KEYWORDS, word)
    }
}

// The first of these keywords that the word is.
fn keyword_in(keywords: &[Keyword], word: &str) -> Option<Keyword>
    ensures { result ≡ keyword_in keywords.now word.now }
{
    match keywords {
        [] => None,
        [keyword, others @ ..] => {
            if word == keyword.text() {
                Some(*keyword)
            } else {
                keyword_in(others, word)
            }
        }
    }
}
