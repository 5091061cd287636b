ghost use Rattle.plane.specs.Plane.{PlaneRestored};

use whole::Restored;

#[unsafe(no_mangle)]
pub extern "C" fn gihvendu_restore_plane(
    p: &mut [u8],
    w: usize,
    h: usize,
    unit: usize,
    count: usize,
    filter: &[i8],
    skip: &[u16],
    scratch: &mut [u8],
) -> Restored
    ensures { PlaneRestored result w h unit count filter.now skip.now scratch.old scratch.new p.old p.new }
{
    Restored::from(plane::restore_plane(p, w, h, unit, count, filter, skip, scratch))
}
