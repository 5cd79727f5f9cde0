//! A script: its tree, and the text that it was read from.
ghost use Rattle.std.specs.Prelude.{◌≡◌, ◌≤◌, Some, length};
ghost use Rattle.nb_script.specs.declared.script.TheConstants.{MOST_BYTES};
ghost use Rattle.nb_script.specs.declared.lexer.Tail.TheVariants.{End};
ghost use Rattle.nb_script.specs.Lexing.{lexed};
ghost use Rattle.nb_script.specs.Reads.{reads};
ghost use Rattle.nb_script.specs.Tree.{script};

use crate::item::Item;
use crate::place::{Place, place_of};
use nb_base::Text;
use sqlite_items::Items;

/// A script, with the place of each token.
#[derive(Debug, Drop)]
pub struct Script {
    items: Items<Item>,
    text: Text,
    ghost short: { length text ≤ MOST_BYTES },
    ghost readable: { (lexed text).tail ≡ End },
    ghost read: { ∥ reads text ≡ Some (script items) ∥₁ },
}

impl Script {
    ghost use Rattle.std.specs.Prelude.{take};
    ghost use Rattle.nb_script.specs.Lexing.{line_of, column_of};
    ghost use Rattle.nb_script.specs.Parsing.{IsScriptText};
    ghost use Rattle.nb_script.specs.Scripts.{rows_of, items_of, text_of};

    /// The script of items that are read from a text.
    pub(crate) fn made(items: Items<Item>, text: Text) -> Script
        requires short { length text ≤ MOST_BYTES }
        requires readable { (lexed text).tail ≡ End }
        requires read { reads text ≡ Some (script items) }
        ensures rows { rows_of result ≡ items }
        ensures text { text_of result ≡ text }
    {
        Script { items, text }
    }

    /// The items in order.
    pub fn items(&self) -> &[Item]
        ensures { result.now ≡ rows_of self.now }
    {
        self.items.as_slice()
    }

    /// The text that it was read from.
    #[tactic(auto, using(crate::proofs::Rereading::is_script_text))]
    pub fn text(&self) -> &str
        ensures value { result.now ≡ text_of self.now }
        ensures spelled { ∥ IsScriptText (text_of self.now) (items_of self.now) ∥₁ }
    {
        self.text.as_str()
    }

    /// The line and the column of a place that a token of the script has.
    pub fn place(&self, at: u32) -> Place
        ensures line { result.line ≡ line_of (take at (text_of self.now)) }
        ensures column { result.column ≡ column_of (take at (text_of self.now)) }
    {
        place_of(self.text.as_str().as_bytes(), at as usize)
    }
}
