//! Prints scripts.
ghost use Rattle.std.specs.Prelude.{◌≡◌, ◌++◌, ◌∷◌, ◌≤◌, [], ℕ, length, IfOk, OnOk};
ghost use Rattle.nb_script.specs.declared.script.TheConstants.{MOST_BYTES};
ghost use Rattle.nb_script.specs.Tree as seen;
ghost use Rattle.nb_script.specs.Printing.{printed};
ghost use Rattle.nb_script.specs.Respelling.{IsRespelled};
ghost use Rattle.nb_script.specs.ReadBack.{IsReadBack};
ghost use Rattle.nb_script.specs.Scripts.{items_of};

use crate::item::Item;
use crate::line::Line;
use crate::printer::Printer;
use crate::tree::Script;
use nb_base::{NoMemory, Text};
use std::alloc::Global;

impl Printer {
    // An item and a line feed.
    fn item(&mut self, alloc: Global, item: &Item) -> Result<(), NoMemory>
        ensures { OnOk result (self.new ≡ self.old ++ printed (seen.item item.now ∷ [])) }
    {
        let mut line = Line::new(alloc);
        line.item(item)?;
        self.tokens(line.tokens())?;
        self.end_line()
    }

    fn items(&mut self, alloc: Global, items: &[Item]) -> Result<(), NoMemory>
        ensures { OnOk result (self.new ≡ self.old ++ printed (seen.script items.now)) }
    {
        for item in items {
            self.item(alloc, item)?;
        }
        Ok(())
    }
}

/// The text of a script: its tokens, each with a space behind it, with the parentheses that it needs and without its last
/// commas and its comments. Each item stands on a line. Where the text isn't too long for a script, it is that of one that is
/// the same but for places.
#[tactic(auto, using(crate::proofs::Reprinting::reprinted, crate::proofs::Reprinting::read_back))]
pub fn print(alloc: Global, script: &Script) -> Result<Text, NoMemory>
    ensures text { IfOk result (λ t. t ≡ printed (items_of script.now)) }
    ensures tokens { (f : ℕ → ℕ) → ∥ IsRespelled f (items_of script.now) ∥₁ }
    ensures back { IfOk result (λ t. length t ≤ MOST_BYTES
        → ∥ IsReadBack t (items_of script.now) ∥₁) }
{
    let mut printer = Printer::new(alloc);
    printer.items(alloc, script.items())?;
    printer.into_text()
}
