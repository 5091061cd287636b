// Chroma units, their luma subsampled horizontally.
use crate::lists::{self, BOTTOM, LIMITS, LUMA_STRIDE, STRIDE, Samples, samples_of, unit};
use definition::{Given, HEIGHT_LIMIT, Lists, NO_LISTS, Operation};
use std::array::from_fn;
use std::io;

fn given(w: usize, h: usize, ss_ver: usize, kind: usize) -> Given {
    Given {
        luma_stride: LUMA_STRIDE,
        ss_hor: 1,
        ss_ver,
        kind,
        ..lists::given(w, h)
    }
}

pub fn all(rt: &impl Print) -> io::Result<()> {
    let bottom: [u8; 4 * STRIDE] = samples_of(Samples::Bottom);
    let filters: [i8; 18] = from_fn(lists::number);
    let luma: [u8; HEIGHT_LIMIT * LUMA_STRIDE] = samples_of(Samples::Luma);
    let luma_bottom: [u8; 4 * LUMA_STRIDE] = samples_of(Samples::LumaBottom);
    let lent = Lists {
        bottom: &bottom,
        filters: &filters,
        luma: &luma,
        luma_bottom: &luma_bottom,
        skip: &[0; 64],
        ..NO_LISTS
    };
    let op = Operation::Chroma;
    // Rows 2 and 3 of luma's saved border below differ from row 1, and are not read.
    for kind in 0..3 {
        let g = Given {
            edges: BOTTOM,
            ..given(4, 4, 1, kind)
        };
        unit(
            rt,
            format_args!("bottom rows: c 4:2:0 kind {kind}"),
            op,
            g,
            &lent,
        )?;
    }
    // The last luma column differs from the even one before it, which is the one that repeats.
    unit(
        rt,
        "last luma column: c 4:2:2",
        op,
        given(4, 4, 0, 0),
        &lent,
    )?;
    for kind in 1..3 {
        let title = format_args!("last luma column: c 4:2:0 kind {kind}");
        unit(rt, title, op, given(4, 4, 1, kind), &lent)?;
    }
    for (w, h) in LIMITS {
        unit(rt, "limits: c", op, given(w, h, 0, 0), &lent)?;
    }
    Ok(())
}
