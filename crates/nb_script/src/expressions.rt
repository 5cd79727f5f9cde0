//! Reads expressions.
ghost use Rattle.std.specs.Prelude.{◌≡◌, ◌-◌, ◌<◌, ◌≤◌, slice_get, IfOk, suc, ◌||◌};
ghost use Rattle.nb_script.specs.Spelling.{is_zero, operators, binary_symbol, unary_symbol, constant_key, holder_key, function_key};
ghost use Rattle.nb_script.specs.Tree.{tree, Gives};
ghost use Rattle.nb_script.specs.Reading as read;

use crate::expr::{Binary, Constant, Expr, Function, Holder, Unary};
use crate::fault::{Fault, Halt};
use crate::lexeme::{Keyword, Seen, Symbol};
use crate::parser::Parser;
use sqlite_items::Boxed;

/// The most operators of one expression.
pub const OPERATORS: u32 = 1000;

/// An expression, and how many more operators may come.
#[derive(Debug, Drop)]
pub struct Counted {
    pub expr: Expr,
    pub left: u32,
}

pub(crate) fn is_zero(n: u32) -> bool
    ensures { result ≡ is_zero n }
{
    match n {
        0 => true,
        _ => false,
    }
}

impl Unary {
    /// The symbol of the operator.
    pub fn symbol(self) -> Symbol
        ensures { result ≡ unary_symbol self }
    {
        match self {
            Unary::Negative => Symbol::Minus,
            Unary::Not => Symbol::Not,
        }
    }
}

impl Binary {
    /// The symbol of the operator.
    pub fn symbol(self) -> Symbol
        ensures { result ≡ binary_symbol self }
    {
        match self {
            Binary::Times => Symbol::Star,
            Binary::Plus => Symbol::Plus,
            Binary::Minus => Symbol::Minus,
            Binary::Join => Symbol::Join,
            Binary::Equal => Symbol::Equal,
            Binary::Unequal => Symbol::Unequal,
            Binary::Less => Symbol::Less,
            Binary::LessOrEqual => Symbol::LessOrEqual,
            Binary::Greater => Symbol::Greater,
            Binary::GreaterOrEqual => Symbol::GreaterOrEqual,
            Binary::And => Symbol::And,
            Binary::Or => Symbol::Or,
        }
    }
}

impl Constant {
    /// The word of the constant.
    pub fn keyword(self) -> Keyword
        ensures { result ≡ constant_key self }
    {
        match self {
            Constant::True => Keyword::True,
            Constant::False => Keyword::False,
            Constant::Retries => Keyword::Retries,
            Constant::Now => Keyword::Now,
            Constant::Sent => Keyword::Sent,
            Constant::Id => Keyword::Id,
        }
    }
}

impl Holder {
    /// The word in front of the dot.
    pub fn keyword(self) -> Keyword
        ensures { result ≡ holder_key self }
    {
        match self {
            Holder::Message => Keyword::Msg,
            Holder::Saga => Keyword::Saga,
        }
    }
}

impl Function {
    /// The word in front of the parenthesis.
    pub fn keyword(self) -> Keyword
        ensures { result ≡ function_key self }
    {
        match self {
            Function::Row => Keyword::Row,
            Function::Has => Keyword::Has,
            Function::Text => Keyword::Text,
            Function::Len => Keyword::Len,
        }
    }
}

// The operator of this level that is seen.
fn operator_in(level: u32, seen: Seen) -> Option<Binary>
    ensures { result ≡ read.operator_in level seen }
{
    let Seen::Symbol(symbol) = seen else {
        return None;
    };
    let (op, own) = match symbol {
        Symbol::Star => (Binary::Times, 1),
        Symbol::Plus => (Binary::Plus, 2),
        Symbol::Minus => (Binary::Minus, 2),
        Symbol::Join => (Binary::Join, 2),
        Symbol::Equal => (Binary::Equal, 3),
        Symbol::Unequal => (Binary::Unequal, 3),
        Symbol::Less => (Binary::Less, 3),
        Symbol::LessOrEqual => (Binary::LessOrEqual, 3),
        Symbol::Greater => (Binary::Greater, 3),
        Symbol::GreaterOrEqual => (Binary::GreaterOrEqual, 3),
        Symbol::And => (Binary::And, 4),
        Symbol::Or => (Binary::Or, 5),
        _ => return None,
    };
    if own == level { Some(op) } else { None }
}

impl Parser<'_> {
    // The operator of this level at a token.
    fn operator(&self, level: u32, at: usize) -> Option<Binary>
        ensures { result ≡ read.operator level (slice_get self.now.lexemes.now at) }
    {
        operator_in(level, self.seen(at))
    }

    // The word in front of an argument.
    fn function_word(&self, function: Function, at: usize) -> Result<(u32, usize), Halt>
        ensures { Gives (λ x. x) result
            (read.key (function_key function) (slice_get self.now.lexemes.now) at) }
    {
        self.key(function.keyword(), at)
    }

    // A word that stands for a value.
    #[tactic(auto, unfolding(crate::specs::Reading::constant_word))]
    fn constant(&self, constant: Constant, at: usize) -> Result<(Expr, usize), Halt>
        ensures value { Gives (λ x. (tree x.0, x.1)) result
            (read.constant_word constant (slice_get self.now.lexemes.now) at) }
        ensures none { IfOk result (λ x. operators (tree x.0) ≡ 0) }
    {
        let (place, next) = self.key(constant.keyword(), at)?;
        let expr = Expr::Constant {
            at: place,
            constant,
        };
        Ok((expr, next))
    }

    // A field of the message or of the saga.
    #[tactic(auto, unfolding(crate::specs::Reading::holder_field))]
    fn holder_field(&self, holder: Holder, at: usize) -> Result<(Expr, usize), Halt>
        ensures value { Gives (λ x. (tree x.0, x.1)) result
            (read.holder_field holder (slice_get self.now.lexemes.now) at) }
        ensures none { IfOk result (λ x. operators (tree x.0) ≡ 0) }
    {
        let (place, next) = self.key(holder.keyword(), at)?;
        let (dot_at, next) = self.symbol(Symbol::Dot, next)?;
        let ((name_at, name), next) = self.word(next)?;
        let expr = Expr::Field {
            at: place,
            holder,
            dot_at,
            name_at,
            name,
        };
        Ok((expr, next))
    }

    #[cycle(expr)]
    #[tactic(auto, unfolding(crate::specs::Reading::operand_in))]
    fn operand(&self, room: u32, left: u32, at: usize) -> Result<(Counted, usize), Halt>
        ensures value { Gives (λ x. (tree x.0.expr, x.1)) result
            (read.operand room left (slice_get self.now.lexemes.now) at) }
        ensures count { IfOk result (λ x. x.0.left ≡ left - operators (tree x.0.expr)) }
    {
        match self.seen(at) {
            Seen::Number => {
                let ((at, value), next) = self.number(at)?;
                let expr = Expr::Number { at, value };
                Ok((Counted { expr, left }, next))
            }
            Seen::Quoted => {
                let ((at, text), next) = self.quoted(at)?;
                let expr = Expr::Quoted { at, text };
                Ok((Counted { expr, left }, next))
            }
            Seen::Name => {
                let ((at, name), next) = self.name(at)?;
                let expr = Expr::Name { at, name };
                Ok((Counted { expr, left }, next))
            }
            Seen::Key(keyword) => self.keyed(room, left, keyword, at),
            Seen::Symbol(Symbol::Open) => self.parens(room, left, at),
            Seen::Symbol(Symbol::Minus) => self.signed(room, left, Unary::Negative, at),
            Seen::Symbol(Symbol::Not) => self.signed(room, left, Unary::Not, at),
            _ => Err(Halt::Stopped(Fault::Expected, at)),
        }
    }

    // An operand that begins with a keyword.
    #[cycle(expr)]
    fn keyed(
        &self,
        room: u32,
        left: u32,
        keyword: Keyword,
        at: usize,
    ) -> Result<(Counted, usize), Halt>
        ensures value { Gives (λ x. (tree x.0.expr, x.1)) result
            (read.keyed (is_zero room) (read.deeper room) left keyword
            (slice_get self.now.lexemes.now) at) }
        ensures count { IfOk result (λ x. x.0.left ≡ left - operators (tree x.0.expr)) }
    {
        let (expr, next) = match keyword {
            Keyword::True => self.constant(Constant::True, at)?,
            Keyword::False => self.constant(Constant::False, at)?,
            Keyword::Retries => self.constant(Constant::Retries, at)?,
            Keyword::Now => self.constant(Constant::Now, at)?,
            Keyword::Sent => self.constant(Constant::Sent, at)?,
            Keyword::Id => self.constant(Constant::Id, at)?,
            Keyword::Msg => self.holder_field(Holder::Message, at)?,
            Keyword::Saga => self.holder_field(Holder::Saga, at)?,
            Keyword::Row => return self.call(room, left, Function::Row, at),
            Keyword::Has => return self.call(room, left, Function::Has, at),
            Keyword::Text => return self.call(room, left, Function::Text, at),
            Keyword::Len => return self.call(room, left, Function::Len, at),
            _ => return Err(Halt::Stopped(Fault::Expected, at)),
        };
        Ok((Counted { expr, left }, next))
    }

    // An expression in parentheses, one level deeper.
    #[cycle(expr)]
    #[tactic(auto, unfolding(crate::specs::Reading::deeper))]
    fn inner(&self, room: u32, left: u32, at: usize) -> Result<(Counted, usize), Halt>
        requires { 0 < room }
        ensures value { Gives (λ x. (tree x.0.expr, x.1)) result
            ((read.deeper room).inner left (slice_get self.now.lexemes.now) at) }
        ensures count { IfOk result (λ x. x.0.left ≡ left - operators (tree x.0.expr)) }
    {
        self.climb(5, room - 1, left, at)
    }

    // An operand, one level deeper.
    #[cycle(expr)]
    #[tactic(auto, unfolding(crate::specs::Reading::deeper))]
    fn inner_operand(&self, room: u32, left: u32, at: usize) -> Result<(Counted, usize), Halt>
        requires { 0 < room }
        ensures value { Gives (λ x. (tree x.0.expr, x.1)) result
            ((read.deeper room).operand left (slice_get self.now.lexemes.now) at) }
        ensures count { IfOk result (λ x. x.0.left ≡ left - operators (tree x.0.expr)) }
    {
        self.operand(room - 1, left, at)
    }

    #[cycle(expr)]
    fn parens(&self, room: u32, left: u32, at: usize) -> Result<(Counted, usize), Halt>
        ensures value { Gives (λ x. (tree x.0.expr, x.1)) result
            (read.parens (is_zero room) (read.deeper room) left
            (slice_get self.now.lexemes.now) at) }
        ensures count { IfOk result (λ x. x.0.left ≡ left - operators (tree x.0.expr)) }
    {
        let (open_at, next) = self.take_symbol(is_zero(room), Symbol::Open, at)?;
        let (inner, next) = self.inner(room, left, next)?;
        let (close_at, next) = self.symbol(Symbol::Close, next)?;
        let Counted { expr, left } = inner;
        let expr = Expr::Paren {
            open_at,
            inner: Boxed::new(self.alloc, expr)?,
            close_at,
        };
        Ok((Counted { expr, left }, next))
    }

    #[cycle(expr)]
    fn signed(&self, room: u32, left: u32, op: Unary, at: usize) -> Result<(Counted, usize), Halt>
        ensures value { Gives (λ x. (tree x.0.expr, x.1)) result
            (read.signed (is_zero room) (read.deeper room) left op
            (slice_get self.now.lexemes.now) at) }
        ensures count { IfOk result (λ x. x.0.left ≡ left - operators (tree x.0.expr)) }
    {
        let past = is_zero(room) || is_zero(left);
        let (place, next) = self.take_symbol(past, op.symbol(), at)?;
        let (operand, next) = self.inner_operand(room, left - 1, next)?;
        let Counted { expr, left } = operand;
        let expr = Expr::Prefix {
            at: place,
            op,
            operand: Boxed::new(self.alloc, expr)?,
        };
        Ok((Counted { expr, left }, next))
    }

    #[cycle(expr)]
    #[tactic(auto, unfolding(crate::specs::Reading::call))]
    fn call(
        &self,
        room: u32,
        left: u32,
        function: Function,
        at: usize,
    ) -> Result<(Counted, usize), Halt>
        ensures value { Gives (λ x. (tree x.0.expr, x.1)) result
            (read.call (is_zero room) (read.deeper room) left function
            (slice_get self.now.lexemes.now) at) }
        ensures count { IfOk result (λ x. x.0.left ≡ left - operators (tree x.0.expr)) }
    {
        let (place, next) = self.function_word(function, at)?;
        self.argument(room, left, function, place, next)
    }

    // What stands behind a function's word.
    #[cycle(expr)]
    fn argument(
        &self,
        room: u32,
        left: u32,
        function: Function,
        place: u32,
        at: usize,
    ) -> Result<(Counted, usize), Halt>
        ensures value { Gives (λ x. (tree x.0.expr, x.1)) result
            (read.argument (is_zero room) (read.deeper room) left function place
            (slice_get self.now.lexemes.now) at) }
        ensures count { IfOk result (λ x. x.0.left ≡ left - operators (tree x.0.expr)) }
    {
        let (open_at, next) = self.take_symbol(is_zero(room), Symbol::Open, at)?;
        let (inner, next) = self.inner(room, left, next)?;
        let (close_at, next) = self.symbol(Symbol::Close, next)?;
        let Counted { expr, left } = inner;
        let expr = Expr::Call {
            at: place,
            function,
            open_at,
            argument: Boxed::new(self.alloc, expr)?,
            close_at,
        };
        Ok((Counted { expr, left }, next))
    }

    // An expression of operators up to a level.
    #[cycle(expr)]
    #[tactic(auto, unfolding(crate::specs::Reading::climb))]
    fn climb(&self, level: u32, room: u32, left: u32, at: usize) -> Result<(Counted, usize), Halt>
        requires { level ≤ 5 }
        ensures value { Gives (λ x. (tree x.0.expr, x.1)) result
            (read.climb level (read.operand room) left (slice_get self.now.lexemes.now) at) }
        ensures count { IfOk result (λ x. x.0.left ≡ left - operators (tree x.0.expr)) }
    {
        if level == 0 {
            return self.operand(room, left, at);
        }
        if level == 3 {
            return self.comparison(room, left, at);
        }
        let (first, next) = self.climb(level - 1, room, left, at)?;
        self.chain(level, room, left, first, next)
    }

    // A sum, or one comparison of two.
    #[cycle(expr)]
    #[tactic(auto, unfolding(crate::specs::Reading::climb, crate::specs::Reading::once))]
    fn comparison(&self, room: u32, left: u32, at: usize) -> Result<(Counted, usize), Halt>
        ensures value { Gives (λ x. (tree x.0.expr, x.1)) result
            (read.climb 3 (read.operand room) left (slice_get self.now.lexemes.now) at) }
        ensures count { IfOk result (λ x. x.0.left ≡ left - operators (tree x.0.expr)) }
    {
        let (first, next) = self.climb(2, room, left, at)?;
        match self.operator(3, next) {
            None => Ok((first, next)),
            Some(op) => self.infix(2, room, first, op, next),
        }
    }

    // An operator and its right operand, behind the left one.
    #[cycle(expr)]
    fn infix(
        &self,
        below: u32,
        room: u32,
        first: Counted,
        op: Binary,
        at: usize,
    ) -> Result<(Counted, usize), Halt>
        requires { below ≤ 4 }
        ensures value { Gives (λ x. (tree x.0.expr, x.1)) result
            (read.joined first.left (read.climb below (read.operand room)) (tree first.expr) op
            (slice_get self.now.lexemes.now) at) }
        ensures count { IfOk result (λ x. x.0.left
            ≡ first.left - (operators (tree x.0.expr) - operators (tree first.expr))) }
        ensures more { IfOk result (λ x. operators (tree first.expr) < operators (tree x.0.expr)) }
    {
        let past = is_zero(first.left);
        let (place, next) = self.take_symbol(past, op.symbol(), at)?;
        let (second, next) = self.climb(below, room, first.left - 1, next)?;
        let left = second.left;
        let expr = Expr::Infix {
            left: Boxed::new(self.alloc, first.expr)?,
            at: place,
            op,
            right: Boxed::new(self.alloc, second.expr)?,
        };
        Ok((Counted { expr, left }, next))
    }

    // What follows a left operand, of operators of one level.
    #[cycle(expr)]
    fn chain(
        &self,
        level: u32,
        room: u32,
        left: u32,
        first: Counted,
        at: usize,
    ) -> Result<(Counted, usize), Halt>
        requires low { 0 < level }
        requires high { level ≤ 5 }
        requires count { first.left ≡ left - operators (tree first.expr) }
        ensures value { Gives (λ x. (tree x.0.expr, x.1)) result
            (read.chain (suc left) level (read.climb (level - 1) (read.operand room)) left
            (tree first.expr) (slice_get self.now.lexemes.now) at) }
        ensures count { IfOk result (λ x. x.0.left ≡ left - operators (tree x.0.expr)) }
    {
        let mut so_far = first;
        let mut here = at;
        for _ in 0..u64::from(left) + 1 {
            let Some(op) = self.operator(level, here) else {
                return Ok((so_far, here));
            };
            let (more, next) = self.infix(level - 1, room, so_far, op, here)?;
            so_far = more;
            here = next;
        }
        Err(Halt::Stopped(Fault::Expected, here))
    }

    /// The expression at a token, with room for so many levels, and the number of the token after it.
    #[tactic(auto, unfolding(crate::specs::Reading::expr))]
    pub fn expr(&self, room: u32, at: usize) -> Result<(Expr, usize), Halt>
        ensures { Gives (λ x. (tree x.0, x.1)) result
            (read.expr room (slice_get self.now.lexemes.now) at) }
    {
        let (counted, next) = self.climb(5, room, OPERATORS, at)?;
        Ok((counted.expr, next))
    }
}
