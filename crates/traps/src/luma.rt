// Luma units.
use crate::lists::{self, BOTTOM, LIMITS, STRIDE, Samples, given, samples_of, unit};
use definition::{Given, Lists, NO_LISTS, Operation};
use std::array::from_fn;
use std::io;

// The card of docs/SCOPE.md. Row 1 is 25; with the row above as it is after it was restored it would be 28.
fn row_above(rt: &impl Print) -> io::Result<()> {
    let mut plane = [
        10u8, 10, 10, 10, 20, 20, 20, 20, 40, 40, 40, 40, 80, 80, 80, 80,
    ];
    let g = Given {
        stride: 4,
        ..given(4, 4)
    };
    let lent = Lists {
        filters: &[64, 0, 0, 0, 0, 0, 0, 0, 0, 0, 0, 0, 0, 0, 0, 0],
        skip: &[0; 4],
        ..NO_LISTS
    };
    lists::restore(rt, "row above: y", Operation::Luma, g, &mut plane, &lent)
}

pub fn all(rt: &impl Print) -> io::Result<()> {
    row_above(rt)?;
    let bottom: [u8; 4 * STRIDE] = samples_of(Samples::Bottom);
    let filters: [i8; 16] = from_fn(lists::number);
    let lent = Lists {
        bottom: &bottom,
        filters: &filters,
        skip: &[0; 64],
        ..NO_LISTS
    };
    // Rows 2 and 3 of the saved border below differ from row 1, and are not read.
    let g = Given {
        edges: BOTTOM,
        ..given(4, 4)
    };
    unit(rt, "bottom rows: y", Operation::Luma, g, &lent)?;
    for (w, h) in LIMITS {
        unit(rt, "limits: y", Operation::Luma, given(w, h), &lent)?;
    }
    Ok(())
}
