// The classes of a block row of a classed unit. That it is classed is asked: a type for it would hold the unit, a row of which is padded here, and each contract would go through both for this one fact.
ghost use Rattle.std.specs.Prelude.{◌≡◌, true, ℕ, ◌+◌, ◌*◌, ◌/◌, ◌%◌, ◌≤◌, ◌<◌, length, get_or, set};
ghost use Rattle.std.proofs.lemmas.List.Edits.{sets};
ghost use Rattle.definition.specs.Blocks.{side};
ghost use Rattle.definition.specs.Limits.{block_row_limit};
ghost use Rattle.definition.specs.Rows.{tab, row_bytes, index_count};
ghost use Rattle.definition.specs.Units.{classed};
ghost use Rattle.definition.specs.ClassIndex.{last_column};
ghost use Rattle.class_index.specs.Answers.{class_index_by};
ghost use Rattle.model.proofs.Step.{class_at};
ghost use Rattle.units.specs.Padded.{lent_of, padded};
ghost use Rattle.units.specs.Step.{ring_of, Stays};

use crate::State;
use crate::unit::Unit;
use class_index::Place;
use definition::SIDE;

// The class of a block, by its features. A u32 has no From to usize; the index is below the map's size.
fn class_of(unit: &Unit, sums: [u16; 3], place: Place) -> u8
    requires op_value { classed unit.now.op ≡ true }
    requires placed { (place.bx ≤ last_column) × (place.by < place.bh) × (place.bh ≤ block_row_limit) × (place.bh ≤ length unit.now.lent.now.noskip.now) }
    ensures { let l = lent_of unit.now in result ≡ get_or l.subclass (get_or l.map (class_index_by sums l.noskip l.q place.bx place.by place.bh).index 0) 0 }
{
    let l = unit.lent;
    let answer = class_index::class_of_features(sums, l.noskip, l.base_q, place).unwrap();
    l.subclass[usize::from(l.map[answer.index as usize])]
}

impl State {
    // The classes of the blocks of row `done`'s block row; those past the unit's width stay.
    fn classes_of_row(&mut self, unit: &Unit)
        requires op_value { (classed unit.now.op ≡ true) × (self.old.done < unit.now.given.h) }
        requires by_index { (j : ℕ) → j < index_count → get_or self.old.indices j 0 ≤ 9 }
        ensures classes_after { self.new.classes ≡ sets self.old.classes 0 (tab (unit.now.given.w / side) (class_at unit.now.given (lent_of unit.now) (ring_of self.old) self.old.done)) }
        ensures stays { Stays self.old self.new }
        ensures same { ring_of self.new ≡ ring_of self.old }
    {
        let n = unit.given.w / SIDE;
        let by = self.done / SIDE;
        let bh = unit.given.h / SIDE;
        let [vertical, falling, rising] = features::row_features(
            &self.rows,
            &self.indices,
            n,
        ).unwrap();
        for bx in 0..n {
            let sums = [vertical[bx], falling[bx], rising[bx]];
            self.classes[bx] = class_of(unit, sums, Place { bx, by, bh });
        }
    }

    // The start of a block row: the row five below is padded into the tenth slot, which the features alone look at, and the classes are worked out.
    pub(crate) fn block_row(&mut self, unit: &Unit)
        requires op_value { (classed unit.now.op ≡ true) × (self.old.done < unit.now.given.h) × (self.old.done % side ≡ 0) }
        requires by_index { (j : ℕ) → get_or self.old.indices j 0 ≤ 9 }
        ensures rows_after { (self.new.rows ≡ sets self.old.rows (9 * row_bytes) (padded unit.now (self.old.done + 9))) × (self.new.indices ≡ set self.old.indices 9 9) }
        ensures classes_after { self.new.classes ≡ sets self.old.classes 0 (tab (unit.now.given.w / side) (class_at unit.now.given (lent_of unit.now) (ring_of self.new) self.old.done)) }
        ensures stays { Stays self.old self.new }
        ensures same_next { self.new.next ≡ self.old.next }
    {
        unit.pad_row(self.done + 9, &mut self.rows, 9);
        self.indices[9] = 9;
        self.classes_of_row(unit);
    }
}
