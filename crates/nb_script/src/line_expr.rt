//! Prints expressions and messages that are made.
ghost use Rattle.std.specs.Prelude.{◌≡◌, ◌++◌, ◌≤◌, ◌<◌, map, IfOk, OnOk};
ghost use Rattle.nb_script.specs.Spelling.{level, left_level};
ghost use Rattle.nb_script.specs.Tree as seen;
ghost use Rattle.nb_script.specs.Printing as spec;

use crate::expr::{Arg, Binary, Expr, Make, TypeName};
use crate::lexeme::Symbol;
use crate::line::Line;
use nb_base::NoMemory;

/// The level of the operators that bind most loosely: up to it nothing needs parentheses.
pub(crate) const LOOSEST: u32 = 5;

impl Binary {
    /// How loosely the operator binds, from 1.
    pub fn level(self) -> u32
        ensures value { result ≡ level self }
        ensures some { 0 < result }
    {
        match self {
            Binary::Times => 1,
            Binary::Plus | Binary::Minus | Binary::Join => 2,
            Binary::Equal
            | Binary::Unequal
            | Binary::Less
            | Binary::LessOrEqual
            | Binary::Greater
            | Binary::GreaterOrEqual => 3,
            Binary::And => 4,
            Binary::Or => 5,
        }
    }

    /// How loosely the operators on its left may bind.
    pub fn left_level(self) -> u32
        ensures { result ≡ left_level self }
    {
        match self {
            Binary::Times => 1,
            Binary::Plus | Binary::Minus | Binary::Join => 2,
            Binary::Equal
            | Binary::Unequal
            | Binary::Less
            | Binary::LessOrEqual
            | Binary::Greater
            | Binary::GreaterOrEqual => 2,
            Binary::And => 4,
            Binary::Or => 5,
        }
    }
}

impl Line {
    fn open_unless(&mut self, bare: bool) -> Result<(), NoMemory>
        ensures { OnOk result (self.new ≡ self.old ++ (spec.open_unless bare)) }
    {
        if bare {
            Ok(())
        } else {
            self.symbol(Symbol::Open)
        }
    }

    fn close_unless(&mut self, bare: bool) -> Result<(), NoMemory>
        ensures { OnOk result (self.new ≡ self.old ++ (spec.close_unless bare)) }
    {
        if bare {
            Ok(())
        } else {
            self.symbol(Symbol::Close)
        }
    }

    /// An expression, where operators up to this level need no parentheses.
    pub fn expr(&mut self, within: u32, e: &Expr) -> Result<(), NoMemory>
        ensures { OnOk result (self.new ≡ self.old ++ (spec.expr within (seen.tree e.now))) }
    {
        match e {
            Expr::Number { value, .. } => self.number(*value),
            Expr::Quoted { text, .. } => self.quoted(text.as_str()),
            Expr::Constant { constant, .. } => self.key(constant.keyword()),
            Expr::Field { holder, name, .. } => {
                self.key(holder.keyword())?;
                self.symbol(Symbol::Dot)?;
                self.word(name.as_str())
            }
            Expr::Name { name, .. } => self.word(name.as_str()),
            Expr::Call {
                function,
                argument,
                ..
            } => {
                self.key(function.keyword())?;
                self.symbol(Symbol::Open)?;
                self.expr(LOOSEST, argument.get())?;
                self.symbol(Symbol::Close)
            }
            Expr::Paren { inner, .. } => self.expr(within, inner.get()),
            Expr::Prefix { op, operand, .. } => {
                self.symbol(op.symbol())?;
                self.expr(0, operand.get())
            }
            Expr::Infix {
                left,
                op,
                right,
                ..
            } => {
                let bare = op.level() <= within;
                self.open_unless(bare)?;
                self.expr(op.left_level(), left.get())?;
                self.symbol(op.symbol())?;
                self.expr(op.level() - 1, right.get())?;
                self.close_unless(bare)
            }
        }
    }

    /// The name of a message's type.
    pub fn type_name(&mut self, name: &TypeName) -> Result<(), NoMemory>
        ensures { OnOk result (self.new ≡ self.old ++ (spec.type_name name.now)) }
    {
        self.word(name.name.as_str())?;
        for dotted in name.others.as_slice() {
            self.symbol(Symbol::Dot)?;
            self.word(dotted.name.as_str())?;
        }
        Ok(())
    }

    fn arg(&mut self, arg: &Arg) -> Result<(), NoMemory>
        ensures { OnOk result (self.new ≡ self.old ++ (spec.arg (seen.arg arg.now))) }
    {
        self.word(arg.name.as_str())?;
        self.symbol(Symbol::Colon)?;
        self.expr(LOOSEST, &arg.value)
    }

    // Arguments, each behind a comma.
    fn more_args(&mut self, args: &[Arg]) -> Result<(), NoMemory>
        ensures { OnOk result (self.new
            ≡ self.old ++ (spec.all_of (spec.behind_comma spec.arg) (map seen.arg args.now))) }
    {
        for arg in args {
            self.symbol(Symbol::Comma)?;
            self.arg(arg)?;
        }
        Ok(())
    }

    fn args(&mut self, args: &[Arg]) -> Result<(), NoMemory>
        ensures { OnOk result (self.new
            ≡ self.old ++ (spec.listed spec.arg (map seen.arg args.now))) }
    {
        match args {
            [] => Ok(()),
            [arg, others @ ..] => {
                self.arg(arg)?;
                self.more_args(others)
            }
        }
    }

    /// A message that is made.
    pub fn make(&mut self, make: &Make) -> Result<(), NoMemory>
        ensures { OnOk result (self.new ≡ self.old ++ (spec.make (seen.make make.now))) }
    {
        self.type_name(&make.name)?;
        self.symbol(Symbol::OpenBrace)?;
        self.args(make.args.as_slice())?;
        self.symbol(Symbol::CloseBrace)
    }
}
