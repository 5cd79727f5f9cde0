//! Where a cell is.
ghost use Rattle.std.specs.Prelude.{◌≡◌, IfOk};

use nb_base::{Bytes, Copied, NoMemory};
use std::cmp::Ordering;

/// A space and a key, ordered by the space, and then by the bytes of the key.
#[derive(Debug, Drop)]
pub(crate) struct Place {
    pub space: u8,
    pub key: Bytes,
}

impl Place {
    /// A copy of its own.
    pub fn copy(&self) -> Result<Place, NoMemory>
        ensures { IfOk result (λ p. p ≡ self.now) }
    {
        let key = self.key.copy()?;
        Ok(Place {
            space: self.space,
            key,
        })
    }
}

impl PartialEq for Place {
    ghost use Rattle.std.specs.Prelude.{bytes_eq};
    ghost use Rattle.std.specs.Ordering.{on};
    ghost use Rattle.std.specs.Cmp.{partial_equiv_from_equiv};
    ghost use Rattle.std.specs.Cmp.Lexicographic.{on_texts_equal};
    ghost use Rattle.nb_cells.specs.Place.{place_bytes};

    ghost eq = { on place_bytes bytes_eq };

    ghost laws = { partial_equiv_from_equiv (on_texts_equal place_bytes) };

    fn eq(&self, other: &Place) -> bool {
        self.space == other.space && self.key.as_slice() == other.key.as_slice()
    }
}

impl Eq for Place {
    ghost use Rattle.std.specs.Cmp.Lexicographic.{on_texts_equal};
    ghost use Rattle.nb_cells.specs.Place.{place_bytes};

    ghost laws = { on_texts_equal place_bytes };
}

impl PartialOrd for Place {
    ghost use Rattle.std.specs.Prelude.{Some};
    ghost use Rattle.std.specs.Cmp.{po};
    ghost use Rattle.std.specs.Cmp.Lexicographic.{on_texts, texts_ties};
    ghost use Rattle.nb_cells.specs.Place.{place_bytes, place_cmp};

    ghost partial_cmp = { λ x y. Some (place_cmp x y) };

    ghost laws = { po (on_texts place_bytes) (λ x y. texts_ties (place_bytes x) (place_bytes y)) };

    fn partial_cmp(&self, other: &Place) -> Option<Ordering> {
        Some(self.cmp(other))
    }
}

impl Ord for Place {
    ghost use Rattle.std.specs.Prelude.{refl};
    ghost use Rattle.std.specs.Cmp.Lexicographic.{on_texts, texts_ties};
    ghost use Rattle.nb_cells.specs.Place.{place_bytes, place_cmp};

    ghost cmp = { place_cmp };

    ghost total = { on_texts place_bytes };

    ghost matches_partial_cmp = { λ x y. refl };

    ghost matches_eq = { λ x y. texts_ties (place_bytes x) (place_bytes y) };

    fn cmp(&self, other: &Place) -> Ordering {
        match self.space.cmp(&other.space) {
            Ordering::Equal => self.key.as_slice().cmp(other.key.as_slice()),
            order => order,
        }
    }
}
