// The step from source to sink: its face, and whether it is level, rising or falling.
ghost use Rattle.std.specs.Prelude.{◌≡◌, cond, eqb};
ghost use Rattle.faces.specs.Codes.{face_number, slope_code};
ghost use Rattle.faces.specs.Ports.{NoFace};
ghost use Rattle.faces.specs.Step.{is_coordinate, shift_between, level_face, face_of, facing_between};
ghost use Rattle.faces.specs.Step.{Level, slope_of, slope_between};

use super::face::Face;
use lists::FAR;

// A difference of coordinates: -1, 0, 1, or no single step.
#[derive(Clone, Copy)]
pub enum Shift {
    Back,
    Same,
    Ahead,
    Far,
}

#[derive(Clone, Copy, PartialEq, Eq)]
pub enum Slope {
    Level,
    Rising,
    Falling,
}

impl From<Slope> for u64 {
    ghost from_gives = { λ slope number. number ≡ slope_code slope };

    fn from(slope: Slope) -> u64 {
        slope as u64
    }
}

// A step from one position to another. One without a face is level.
#[derive(Clone, Copy)]
pub struct Step {
    pub face: Option<Face>,
    pub slope: Slope,
}

fn is_coordinate(v: i64) -> bool
    ensures { result ≡ is_coordinate v }
{
    (-FAR <= v) & (v <= FAR)
}

// Sink minus source along one axis. Numbers that are no coordinates are no single step apart, and their difference may not fit.
fn shift_between(source: i64, sink: i64) -> Shift
    ensures { result ≡ shift_between source sink }
{
    if !(is_coordinate(source) & is_coordinate(sink)) {
        return Shift::Far;
    }
    // A difference, and no code.
    let d = sink - source;
    match d {
        -1 => Shift::Back,
        0 => Shift::Same,
        1 => Shift::Ahead,
        _ => Shift::Far,
    }
}

// The horizontal face of a step by its shifts, or `vertical` where it has no horizontal part.
fn level_face(vertical: Option<Face>, x: Shift, z: Shift) -> Option<Face>
    ensures { face_number result ≡ level_face (face_number vertical) x z }
{
    match (x, z) {
        (Shift::Same, Shift::Back) => Some(Face::North),
        (Shift::Ahead, Shift::Same) => Some(Face::East),
        (Shift::Same, Shift::Ahead) => Some(Face::South),
        (Shift::Back, Shift::Same) => Some(Face::West),
        (Shift::Same, Shift::Same) => vertical,
        _ => None,
    }
}

// The face of a step by its shifts. A horizontal step that rises or falls by one keeps its face.
fn face_of(x: Shift, y: Shift, z: Shift) -> Option<Face>
    ensures { face_number result ≡ face_of x y z }
{
    match y {
        Shift::Back => level_face(Some(Face::Down), x, z),
        Shift::Same => level_face(None, x, z),
        Shift::Ahead => level_face(Some(Face::Up), x, z),
        Shift::Far => None,
    }
}

// The slope of a step by its face and by its shift along y.
fn slope_of(face: Option<Face>, y: Shift) -> Slope
    ensures { slope_code result ≡ cond (eqb (face_number face) NoFace) Level (slope_of y) }
{
    if face.is_none() {
        return Slope::Level;
    }
    match y {
        Shift::Back => Slope::Falling,
        Shift::Ahead => Slope::Rising,
        Shift::Same | Shift::Far => Slope::Level,
    }
}

// The step from one position to another. Positions are any numbers.
pub fn step_between(from: (i64, i64, i64), to: (i64, i64, i64)) -> Step
    ensures face { face_number result.face ≡ facing_between from.0 from.1 from.2 to.0 to.1 to.2 }
    ensures slope { slope_code result.slope ≡ slope_between from.0 from.1 from.2 to.0 to.1 to.2 }
{
    let x = shift_between(from.0, to.0);
    let y = shift_between(from.1, to.1);
    let z = shift_between(from.2, to.2);
    let face = face_of(x, y, z);
    Step {
        face,
        slope: slope_of(face, y),
    }
}
