// The faces of a block, and the numbers that stand for them in lists: 1 North, 2 East, 3 South, 4 West, 5 Up, 6 Down.
ghost use Rattle.std.specs.Prelude.{◌≡◌};
ghost use Rattle.faces.specs.Ports.{opposite, face_or};
ghost use Rattle.faces.specs.Codes.{face_code, NamesFace};

#[derive(Clone, Copy, PartialEq, Eq)]
pub enum Face {
    North = 1,
    East = 2,
    South = 3,
    West = 4,
    Up = 5,
    Down = 6,
}

// A number that names no face.
#[derive(Clone, Copy, PartialEq, Eq)]
pub struct UnknownFace(pub u64);

impl TryFrom<u64> for Face {
    type Error = UnknownFace;

    ghost try_from_gives = { NamesFace };

    fn try_from(number: u64) -> Result<Self, UnknownFace> {
        match number {
            1 => Ok(Face::North),
            2 => Ok(Face::East),
            3 => Ok(Face::South),
            4 => Ok(Face::West),
            5 => Ok(Face::Up),
            6 => Ok(Face::Down),
            _ => Err(UnknownFace(number)),
        }
    }
}

impl From<Face> for u64 {
    ghost from_gives = { λ face number. number ≡ face_code face };

    fn from(face: Face) -> u64 {
        face as u64
    }
}

impl Face {
    #[tactic(auto, unfolding(crate::specs::Ports::opposite))]
    pub fn opposite(self) -> Self
        ensures { face_code result ≡ opposite (face_code self) }
    {
        match self {
            Face::North => Face::South,
            Face::East => Face::West,
            Face::South => Face::North,
            Face::West => Face::East,
            Face::Up => Face::Down,
            Face::Down => Face::Up,
        }
    }

    // The face of a number, or this one where it names none.
    pub(crate) fn unless(self, number: u64) -> Self
        ensures { face_code result ≡ face_or (face_code self) number }
    {
        Face::try_from(number).unwrap_or(self)
    }
}

// The number of the face opposite, 0 where the number is no face's.
#[tactic(auto, unfolding(crate::specs::Ports::opposite))]
pub fn opposite_face(number: u64) -> u64
    ensures { result ≡ opposite number }
{
    match Face::try_from(number) {
        Ok(face) => u64::from(face.opposite()),
        Err(_) => 0,
    }
}
