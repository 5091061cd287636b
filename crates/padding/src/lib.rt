// looprestoration.rs: the three paddings. Each writes one padded row into the bytes that it is lent, and reads only what it is lent.
// edges: the bit of value 1 is left, of value 2 right; other bits are not looked at.
#![tactic(auto)]

ghost use Rattle.std.specs.Prelude.{◌≡◌, length};
ghost use Rattle.definition.specs.Answers.{status_from};
ghost use Rattle.definition.specs.Leaves.{backup_status, backup_row, lpf_status, lpf_row, luma_status, backup_luma_row, source};

mod backup_row;
mod backup_row_luma;
mod beside;

use backup_row::Row;
use backup_row_luma::{LumaRow, Sampling, source_len};
use definition::Refusal;

// The parameters of these three are those of the C functions: the Rust's, but that a luma row's one source is either of two lists, as the scope asks.
// A row of the unit: its left samples come from the list of them, those that end at left_off.
pub fn backup_row_8bpc(
    dst: &mut [u8],
    o: usize,
    src: &[u8],
    src_o: usize,
    left: &[u8],
    left_off: usize,
    w: usize,
    edge_len: usize,
    edges: usize,
) -> Result<(), Refusal>
    ensures value { status_from result ≡ backup_status (length dst.old) o (length src.now) src_o (length left.now) left_off w edge_len edges }
    ensures dst_after { dst.new ≡ backup_row dst.old o src.now src_o left.now left_off w edge_len edges }
{
    let row = Row {
        o,
        src_o,
        left_off,
        w,
        edge_len,
        edges,
    };
    row.status(dst.len(), src.len(), left.len())?;
    row.pad(dst, src, left);
    Ok(())
}

// A saved row, or a row of the plane outside the unit: its left samples stand before it. Inlined: behind a call of its own it took C 1.6 to 1.7 times
// the time.
#[tactic(auto, using(crate::proofs::Status::own_status, crate::proofs::Status::own_padded))]
#[inline(always)]
pub fn backup_row_lpf_8bpc(
    dst: &mut [u8],
    o: usize,
    src: &[u8],
    src_o: usize,
    w: usize,
    edge_len: usize,
    edges: usize,
) -> Result<(), Refusal>
    ensures value { status_from result ≡ lpf_status (length dst.old) o (length src.now) src_o w edge_len edges }
    ensures dst_after { dst.new ≡ lpf_row dst.old o src.now src_o w edge_len edges }
{
    backup_row_8bpc(dst, o, src, src_o, src, src_o, w, edge_len, edges)
}

// A luma row of a chroma unit, w luma samples wide, from the luma plane or from a saved border.
#[tactic(auto, unfolding(definition::specs::Leaves::luma_status))]
pub fn backup_row_luma_8bpc<'a>(
    dst: &mut [u8],
    o: usize,
    plane: &'a [u8],
    saved: &'a [u8],
    from_saved: bool,
    src_o: usize,
    src_stride: usize,
    w: usize,
    edges: usize,
    ss_hor: usize,
    ss_ver: usize,
    cfl_ds_flt: usize,
) -> Result<(), Refusal>
    ensures value { status_from result ≡ luma_status (length dst.old) o (length (source from_saved plane.now saved.now)) src_o src_stride w edges ss_hor ss_ver cfl_ds_flt }
    ensures dst_after { dst.new ≡ backup_luma_row dst.old o (source from_saved plane.now saved.now) src_o src_stride w edges ss_hor ss_ver cfl_ds_flt }
{
    let sampling = Sampling::of(ss_hor, ss_ver, cfl_ds_flt)?;
    let row = LumaRow {
        sampling,
        o,
        src_o,
        src_stride,
        w,
        edges,
    };
    row.status(dst.len(), source_len(plane, saved, from_saved))?;
    row.pad(dst, plane, saved, from_saved);
    Ok(())
}
