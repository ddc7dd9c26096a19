// Steps for the tests from Rust.
ghost use Rattle.std.specs.Prelude.{◌≡◌, ◌+◌, ◌*◌};
ghost use Rattle.faces.specs.Step.{facing_between, slope_between};

use faces::face::Face;
use faces::step::step_between;

// The face of a step, 0 for none, and 256 times its slope.
#[unsafe(no_mangle)]
pub extern "C" fn probe_step_between(x: i64, y: i64, z: i64, to_x: i64, to_y: i64, to_z: i64) -> u64
    ensures { result ≡ facing_between x y z to_x to_y to_z + 256 * slope_between x y z to_x to_y to_z }
{
    let step = step_between((x, y, z), (to_x, to_y, to_z));
    step.face.map_or(0, u64::from) + 256 * u64::from(step.slope)
}
