// The luma rows of a chroma unit in its state. Its rows are two rings, five chroma rows and, behind them, five luma rows.
ghost use Rattle.std.specs.Prelude.{◌≡◌, [], ◌∷◌, ◌++◌, ◌≤◌, ◌<◌, length, take, drop};
ghost use Rattle.definition.specs.declared.Operation.TheVariants.{Chroma};
ghost use Rattle.definition.specs.Rows.{tab, index_count};
ghost use Rattle.history.proofs.Ring.{slid};
ghost use Rattle.model.proofs.Opening.{open_index};
ghost use Rattle.model.proofs.Step.{ring, LumaFetched};
ghost use Rattle.units.specs.Padded.{luma_lent_of};
ghost use Rattle.units.specs.Step.{Stays};

use crate::State;
use crate::rows::{first_row, is_own, open_index, slide};
use crate::unit::LumaRows;
use definition::{Given, INDEX_COUNT, Operation};
use std::array::from_fn;

// The first four indices of each ring take the value of the one behind them.
pub fn slide_both(indices: &mut [usize; INDEX_COUNT])
    requires { length indices.old ≡ index_count }
    ensures { indices.new ≡ slid 4 (take 5 indices.old) ++ slid 4 (drop 5 indices.old) }
{
    slide(&mut indices[..5], 4);
    slide(&mut indices[5..], 4);
}

// The five indices that an opening hands out for each ring.
pub fn open_indices(g: Given) -> [usize; INDEX_COUNT]
    ensures { result ≡ (tab 4 (open_index Chroma g) ++ (0 ∷ [])) ++ (tab 4 (open_index Chroma g) ++ (0 ∷ [])) }
{
    let f = first_row(Operation::Chroma, g);
    from_fn(|j| open_index(f, j % 5, 4))
}

impl State {
    // The newest luma row of the window: into the slot of the newest chroma row, or the row before it again.
    pub(crate) fn fetch_luma_row(&mut self, luma: &LumaRows, slot: usize)
        requires { (self.old.done < luma.now.given.h) × (slot ≤ 4) }
        ensures fetched { LumaFetched luma.now.given (luma_lent_of luma.now) self.old.done (ring self.old.rows self.old.indices slot) (ring self.new.rows self.new.indices slot) }
        ensures stays { Stays self.old self.new }
        ensures same { (self.new.next ≡ self.old.next) × (self.new.classes ≡ self.old.classes) }
    {
        if is_own(Operation::Chroma, luma.given, self.done + 4) {
            luma.pad_luma_row(self.done + 4, &mut self.rows, slot);
            self.indices[9] = slot;
        } else {
            self.indices[9] = self.indices[8];
        }
    }
}
