// An advance of a unit of any operation: the table, then rows one after another.
ghost use Rattle.std.specs.Prelude.{◌≡◌, ◌+◌, ◌-◌, ◌≤◌, ◌<◌, length};
ghost use Rattle.definition.specs.Rows.{index_count};
ghost use Rattle.definition.specs.Answers.{status_from};
ghost use Rattle.definition.specs.Refusals.{sizes_of};
ghost use Rattle.definition.specs.Calls.{lists_lent, call_of};
ghost use Rattle.model.proofs.Step.{slid_by, Taken};
ghost use Rattle.units.specs.Windows.{Fit, Ringed, Sound};
ghost use Rattle.units.specs.Padded.{lent_of};
ghost use Rattle.units.specs.Step.{ring_of, Stays, OneRow, Gone};
ghost use Rattle.units.specs.Advances.{answer, advanced_of, Answered, status_by};

use crate::unit::{LumaRows, Unit};
use crate::{Advanced, State};
use definition::{INDEX_COUNT, Lists, Operation, Refusal, SIDE, Sizes};
use operations::{is_chroma, is_classed, number_of};

// The lengths of all that is lent, and whether the map is wrong.
pub fn sizes(op: Operation, p: &[u8], lent: &Lists) -> Sizes
    ensures { result ≡ sizes_of op (lists_lent op lent.now) p.now }
{
    let filters = match op {
        Operation::Pretrained => lent.wide.len(),
        Operation::Luma | Operation::User | Operation::Chroma => lent.filters.len(),
    };
    Sizes {
        plane: p.len(),
        left: lent.left.len(),
        top: lent.top.len(),
        bottom: lent.bottom.len(),
        luma_plane: lent.luma.len(),
        luma_top: lent.luma_top.len(),
        luma_bottom: lent.luma_bottom.len(),
        skip: lent.skip.len(),
        noskip: lent.noskip.len(),
        filters,
        bad_map: refusals::bad_map(op, lent.map, lent.subclass, filters),
    }
}

// The windows moved on by a row.
fn slide(op: Operation, indices: &mut [usize; INDEX_COUNT])
    requires { length indices.old ≡ index_count }
    ensures { indices.new ≡ slid_by op indices.old }
{
    if is_chroma(op) {
        crate::chroma::slide_both(indices);
    } else {
        crate::rows::slide(indices, 8);
    }
}

impl From<(State, Result<usize, Refusal>)> for Advanced {
    ghost from_gives = { λ r advanced. advanced ≡ advanced_of r.0 r.1 };

    fn from(r: (State, Result<usize, Refusal>)) -> Advanced {
        let (state, pieces) = r;
        match pieces {
            Ok(pieces) => Advanced {
                status: 0,
                pieces,
                state,
            },
            Err(refusal) => Advanced {
                status: refusal.into(),
                pieces: 0,
                state,
            },
        }
    }
}

// C may hand in any state, so its type cannot know what the table found of it: the functions of a row ask it.
impl State {
    // What a row is restored from: the newest row of each window, and at the start of a block row the classes of its blocks.
    fn take(&mut self, unit: &Unit)
        requires done_lt_h { self.old.done < unit.now.given.h }
        requires ringed { Ringed unit.now.op (ring_of self.old) }
        ensures taken { let u = unit.now in Taken u.op u.given (lent_of u) u.plane.now self.old.done self.old.classes (ring_of self.old) self.new.classes (ring_of self.new) }
        ensures stays { Stays self.old self.new }
    {
        let slot = self.next;
        self.fetch_row(unit);
        if is_chroma(unit.op) {
            let luma = LumaRows {
                given: unit.given,
                lent: unit.lent,
            };
            self.fetch_luma_row(&luma, slot);
        } else if is_classed(unit.op) && self.done % SIDE == 0 {
            self.block_row(unit);
        }
    }

    // One row: what it is restored from, the row restored, the windows moved on.
    fn row(&mut self, op: Operation, p: &mut [u8], lent: &Lists)
        requires done_lt_h { self.old.done < self.old.given.h }
        requires fit { Fit op self.old.given (lists_lent op lent.now) (length p.old) }
        requires sound { Sound op (length (lists_lent op lent.now).filters) self.old.classes (ring_of self.old) }
        ensures one_row { OneRow op (lists_lent op lent.now) self.old p.old self.new p.new }
        ensures sound_2 { Sound op (length (lists_lent op lent.now).filters) self.new.classes (ring_of self.new) }
        ensures next_row { (self.new.done ≡ self.old.done + 1) × (self.new.given ≡ self.old.given) }
    {
        let unit = Unit {
            op,
            given: self.given,
            plane: &*p,
            lent: &*lent,
        };
        self.take(&unit);
        self.restore(op, p, lent);
        slide(op, &mut self.indices);
        self.done += 1;
    }

    // The next n rows, one after another.
    fn restored_rows(&mut self, op: Operation, n: usize, p: &mut [u8], lent: &Lists)
        requires n_bound { self.old.done + n ≤ self.old.given.h }
        requires fit { Fit op self.old.given (lists_lent op lent.now) (length p.old) }
        requires sound { Sound op (length (lists_lent op lent.now).filters) self.old.classes (ring_of self.old) }
        ensures { Gone op (lists_lent op lent.now) self.old p.old n self.new p.new }
    {
        for i in 0..n {
            self.row(op, p, lent);
        }
    }

    // The table for an advance: the state's shape and the kept classes come first.
    fn refusal(&self, op: Operation, z: Sizes) -> Result<(), Refusal>
        ensures { status_from result ≡ status_by op self.now z }
    {
        let other = self.op != number_of(op);
        let misshapen = refusals::bad_shape(
            op,
            other,
            self.done,
            self.given.h,
            &self.indices,
            self.next,
        );
        if misshapen || refusals::bad_kept(op, &self.classes, z.filters) {
            return Err(Refusal::State);
        }
        refusals::unit_status(op, self.given, z)
    }

    // The next count rows, or all that remain, and their pieces: the state goes on where it stands. Refused, it stays as it is.
    pub fn advance_by(
        &mut self,
        op: Operation,
        count: usize,
        p: &mut [u8],
        lent: &Lists,
    ) -> Result<usize, Refusal>
        ensures { Answered (advanced_of self.new result) p.new (answer (call_of op count (lists_lent op lent.now)) self.old p.old) }
    {
        self.refusal(op, sizes(op, p, lent))?;
        let n = count.min(self.given.h - self.done);
        let pieces = crate::masks::pieces_of_rows(lent.skip, self.given.w / SIDE, self.done, n);
        self.restored_rows(op, n, p, lent);
        Ok(pieces)
    }

    // The same of a state that is handed over, and handed back.
    pub fn advance(self, op: Operation, count: usize, p: &mut [u8], lent: &Lists) -> Advanced
        ensures { Answered result p.new (answer (call_of op count (lists_lent op lent.now)) self p.old) }
    {
        let mut state = self;
        let pieces = state.advance_by(op, count, p, lent);
        (state, pieces).into()
    }
}
