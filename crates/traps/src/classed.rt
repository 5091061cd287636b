// Units with user sets and with pretrained sets.
use crate::lists::{self, BOTTOM, LIMITS, STRIDE, Samples, given, samples_of, unit};
use definition::{Given, Lists, MAP_SIZE, NO_LISTS, Operation};
use std::array::from_fn;
use std::io;

// A unit of either operation, lent the filters of its own.
fn both(rt: &impl Print, title: &str, g: Given, lent: &Lists<'_>) -> io::Result<()> {
    let user = Lists { wide: &[], ..*lent };
    unit(rt, format_args!("{title}: n"), Operation::User, g, &user)?;
    let pretrained = Lists {
        filters: &[],
        ..*lent
    };
    unit(
        rt,
        format_args!("{title}: p"),
        Operation::Pretrained,
        g,
        &pretrained,
    )
}

// The noskip bits inside the unit are 1 and those from w/4 on 0: clipped to the unit's width the column would give another class.
fn noskip_column(rt: &impl Print, w: usize, mask: u16, lent: &Lists<'_>) -> io::Result<()> {
    let lent = Lists {
        noskip: &[mask; 16],
        base_q: -2000,
        ..*lent
    };
    both(rt, "noskip column", given(w, 4), &lent)
}

pub fn all(rt: &impl Print) -> io::Result<()> {
    let bottom: [u8; 4 * STRIDE] = samples_of(Samples::Bottom);
    let map: [u8; MAP_SIZE] = from_fn(lists::map_entry);
    // Below 4: narrowed by `as`.
    let subclass: [u8; 64] = from_fn(|i| (i % 4) as u8);
    let filters: [i8; 72] = from_fn(lists::number);
    let wide: [i16; 52] = from_fn(|i| i16::from(lists::number(i)));
    let lent = Lists {
        bottom: &bottom,
        filters: &filters,
        wide: &wide,
        map: &map,
        subclass: &subclass,
        noskip: &[65535; 16],
        skip: &[0; 64],
        ..NO_LISTS
    };
    noskip_column(rt, 4, 1, &lent)?;
    noskip_column(rt, 8, 3, &lent)?;
    // Sets of zeros are not neutral: every sample is 0.
    let zeros = Lists {
        filters: &[],
        wide: &[0; 52],
        ..lent
    };
    unit(
        rt,
        "zero set: p",
        Operation::Pretrained,
        given(8, 4),
        &zeros,
    )?;
    // Rows 2 and 3 of the saved border below differ from row 1, and are not read.
    let g = Given {
        edges: BOTTOM,
        ..given(4, 4)
    };
    both(rt, "bottom rows", g, &lent)?;
    for (w, h) in LIMITS {
        both(rt, "limits", given(w, h), &lent)?;
    }
    Ok(())
}
