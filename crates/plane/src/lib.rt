// A whole luma plane, restored in place unit by unit, row by row from the top left. No second plane is kept: scratch has the rows above the units, and the samples to the
// left of a unit are listed before they are restored.
#![tactic(auto)]

ghost use Rattle.plane.specs.Plane.{PlaneRestored};
ghost use Rattle.whole.specs.Whole.{restored_of};

use cut::Plane;
use definition::Refusal;

mod cut;
mod saved;
mod walk;

// Does the first `count` units, or all, and answers their pieces; `scratch` is eight rows of the plane's width, of which nothing is promised but the length.
// The eight parameters are those of the exported function.
pub fn restore_plane(
    p: &mut [u8],
    w: usize,
    h: usize,
    unit: usize,
    count: usize,
    filter: &[i8],
    skip: &[u16],
    scratch: &mut [u8],
) -> Result<usize, Refusal>
    ensures { PlaneRestored (restored_of result) w h unit count filter.now skip.now scratch.old scratch.new p.old p.new }
{
    refusals::plane_status(w, h, unit, p.len(), skip.len(), filter.len(), scratch.len())?;
    let plane = Plane {
        w,
        h,
        unit,
        filter: &*filter,
        skip: &*skip,
    };
    Ok(plane.restore_units(p, count, scratch))
}
