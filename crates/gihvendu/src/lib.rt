// The leaves, the whole units, the units that can be broken off, the texts of their states and whole planes, for programs in C or Rust: each function
// hands on what it is lent, and promises what the function promises that it calls.
// A slice is a pointer and a length, an array one pointer, a struct as C passes it.
// The operations on units and on a plane stand in a file each. Parameters are what C hands over, one by one.
#![tactic(auto)]

ghost use Rattle.std.specs.Prelude.{◌≡◌, length};
ghost use Rattle.definition.specs.Answers.{status_from};
ghost use Rattle.definition.specs.ClassIndex.{term, features_of};
ghost use Rattle.definition.specs.Refusals.{class_status};
ghost use Rattle.definition.specs.Leaves.{block_flat, term_status, or_zero_z, backup_status, backup_row, lpf_status, lpf_row, luma_status, backup_luma_row, source, run_status, uv_status, luma_run, pretrained_run, chroma_run};
ghost use Rattle.class_index.specs.Answers.{class_index_by, class_index_unless};
ghost use Rattle.units.specs.Advances.{is_finished};

use class_index::{Indexed, Place};
use definition::{INDEX_COUNT, Refusal};
use qval::Qval;
use units::State;

pub mod advance_c;
pub mod advance_n;
pub mod advance_p;
pub mod advance_y;
pub mod open_c;
pub mod open_n;
pub mod open_p;
pub mod open_y;
pub mod texts;
pub mod whole_c;
pub mod whole_n;
pub mod whole_p;
pub mod whole_plane;
pub mod whole_y;

// 0, or the number of the reason: so C has it.
fn status(r: Result<(), Refusal>) -> u8
    ensures { result ≡ status_from r }
{
    match r {
        Ok(()) => 0,
        Err(refusal) => refusal.into(),
    }
}

#[unsafe(no_mangle)]
pub extern "C" fn gihvendu_ns_wiener_fir_run(
    dst: &mut [u8],
    rows: &[u8],
    indices: &[usize; INDEX_COUNT],
    col0: usize,
    filter: &[i8; 16],
    n: usize,
) -> u8
    ensures value { result ≡ run_status (length dst.old) (length rows.now) indices.now col0 n }
    ensures dst_after { dst.new ≡ luma_run dst.old rows.now indices.now col0 filter.now n }
{
    status(filter::ns_wiener_fir_run(dst, rows, indices, col0, filter, n))
}

#[unsafe(no_mangle)]
pub extern "C" fn gihvendu_pc_wiener_fir_run(
    dst: &mut [u8],
    rows: &[u8],
    indices: &[usize; INDEX_COUNT],
    col0: usize,
    filter: &[i16; 13],
    n: usize,
) -> u8
    ensures value { result ≡ run_status (length dst.old) (length rows.now) indices.now col0 n }
    ensures dst_after { dst.new ≡ pretrained_run dst.old rows.now indices.now col0 filter.now n }
{
    status(filter::pc_wiener_fir_run(dst, rows, indices, col0, filter, n))
}

#[unsafe(no_mangle)]
pub extern "C" fn gihvendu_ns_wiener_uv_fir_run(
    dst: &mut [u8],
    rows: &[u8],
    indices: &[usize; INDEX_COUNT],
    col0: usize,
    lcol0: usize,
    step: usize,
    filter: &[i8; 18],
    n: usize,
) -> u8
    ensures value { result ≡ uv_status (length dst.old) (length rows.now) indices.now col0 lcol0 step n }
    ensures dst_after { dst.new ≡ chroma_run dst.old rows.now indices.now col0 lcol0 step filter.now n }
{
    status(filter::ns_wiener_uv_fir_run(dst, rows, indices, col0, lcol0, step, filter, n))
}

#[unsafe(no_mangle)]
pub extern "C" fn gihvendu_backup_row_8bpc(
    dst: &mut [u8],
    o: usize,
    src: &[u8],
    src_o: usize,
    left: &[u8],
    left_off: usize,
    w: usize,
    edge_len: usize,
    edges: usize,
) -> u8
    ensures value { result ≡ backup_status (length dst.old) o (length src.now) src_o (length left.now) left_off w edge_len edges }
    ensures dst_after { dst.new ≡ backup_row dst.old o src.now src_o left.now left_off w edge_len edges }
{
    status(padding::backup_row_8bpc(dst, o, src, src_o, left, left_off, w, edge_len, edges))
}

#[unsafe(no_mangle)]
pub extern "C" fn gihvendu_backup_row_lpf_8bpc(
    dst: &mut [u8],
    o: usize,
    src: &[u8],
    src_o: usize,
    w: usize,
    edge_len: usize,
    edges: usize,
) -> u8
    ensures value { result ≡ lpf_status (length dst.old) o (length src.now) src_o w edge_len edges }
    ensures dst_after { dst.new ≡ lpf_row dst.old o src.now src_o w edge_len edges }
{
    status(padding::backup_row_lpf_8bpc(dst, o, src, src_o, w, edge_len, edges))
}

#[unsafe(no_mangle)]
pub extern "C" fn gihvendu_backup_row_luma_8bpc<'a>(
    dst: &mut [u8],
    o: usize,
    plane: &'a [u8],
    saved: &'a [u8],
    from_saved: bool,
    src_o: usize,
    src_stride: usize,
    w: usize,
    edges: usize,
    ss_hor: usize,
    ss_ver: usize,
    cfl_ds_flt: usize,
) -> u8
    ensures value { result ≡ luma_status (length dst.old) o (length (source from_saved plane.now saved.now)) src_o src_stride w edges ss_hor ss_ver cfl_ds_flt }
    ensures dst_after { dst.new ≡ backup_luma_row dst.old o (source from_saved plane.now saved.now) src_o src_stride w edges ss_hor ss_ver cfl_ds_flt }
{
    status(padding::backup_row_luma_8bpc(
        dst, o, plane, saved, from_saved, src_o, src_stride, w, edges, ss_hor, ss_ver, cfl_ds_flt,
    ))
}

#[unsafe(no_mangle)]
pub extern "C" fn gihvendu_get_qval_given_tskip(qstep: i32, tskip: u8, i: usize) -> Qval
    ensures { (result.status ≡ term_status i) × (result.value ≡ or_zero_z (term_status i) (term qstep tskip i)) }
{
    Qval::from(qval::get_qval_given_tskip(qstep, tskip, i))
}

#[unsafe(no_mangle)]
pub extern "C" fn gihvendu_get_class_lut_idx_8bpc(
    rows: &[u8],
    indices: &[usize; INDEX_COUNT],
    noskip: &[u16],
    base_q: i32,
    bx: usize,
    by: usize,
    bh: usize,
) -> Indexed
    ensures status_value { result.status ≡ class_status (length rows.now) indices.now (length noskip.now) bx by bh }
    ensures index_value { result.class_index ≡ class_index_unless (class_status (length rows.now) indices.now (length noskip.now) bx by bh) (class_index_by (features_of (block_flat rows.now indices.now bx)) noskip.now base_q bx by bh) }
{
    let place = Place { bx, by, bh };
    Indexed::from(class_index::get_class_lut_idx_8bpc(rows, indices, noskip, base_q, place))
}

// Whether all rows of a unit are done.
#[unsafe(no_mangle)]
pub extern "C" fn gihvendu_finished(state: State) -> bool
    ensures { result ≡ is_finished state }
{
    state.finished()
}
