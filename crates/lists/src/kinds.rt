// The kinds of components, of connections and of port connections, and the numbers that stand for them in lists. The conversions are
// written out, here and of each enum of the product that has numbers: `rt ci` refuses an impl by a macro of the repository's own.
ghost use Rattle.std.specs.Prelude.{◌≡◌};
ghost use Rattle.lists.specs.Kinds.{transfer_number, NamesBlock, NamesConnection};

// A number that names no kind.
#[derive(Clone, Copy, PartialEq, Eq)]
pub struct UnknownKind(pub u64);

// What a component is.
#[derive(Clone, Copy, PartialEq, Eq)]
pub enum BlockKind {
    RedstoneWire,
    Repeater,
    Comparator,
    RedstoneTorch,
    Lever,
    Button,
    PressurePlate,
    RedstoneBlock,
    Piston,
    Solid,
    Transparent,
    RedstoneLamp,
    Air,
}

impl TryFrom<u64> for BlockKind {
    type Error = UnknownKind;

    ghost try_from_gives = { NamesBlock };

    fn try_from(number: u64) -> Result<Self, UnknownKind> {
        match number {
            0 => Ok(BlockKind::RedstoneWire),
            1 => Ok(BlockKind::Repeater),
            2 => Ok(BlockKind::Comparator),
            3 => Ok(BlockKind::RedstoneTorch),
            4 => Ok(BlockKind::Lever),
            5 => Ok(BlockKind::Button),
            6 => Ok(BlockKind::PressurePlate),
            7 => Ok(BlockKind::RedstoneBlock),
            8 => Ok(BlockKind::Piston),
            9 => Ok(BlockKind::Solid),
            10 => Ok(BlockKind::Transparent),
            11 => Ok(BlockKind::RedstoneLamp),
            12 => Ok(BlockKind::Air),
            _ => Err(UnknownKind(number)),
        }
    }
}

// What a connection is.
#[derive(Clone, Copy, PartialEq, Eq)]
pub enum ConnectionKind {
    Dust,
    DustRise,
    DustFallThroughConductor,
    WeakPower,
    StrongPower,
    DirectionalInput,
    DirectionalOutput,
    DirectSource,
    Control,
    Support,
}

impl TryFrom<u64> for ConnectionKind {
    type Error = UnknownKind;

    ghost try_from_gives = { NamesConnection };

    fn try_from(number: u64) -> Result<Self, UnknownKind> {
        match number {
            0 => Ok(ConnectionKind::Dust),
            1 => Ok(ConnectionKind::DustRise),
            2 => Ok(ConnectionKind::DustFallThroughConductor),
            3 => Ok(ConnectionKind::WeakPower),
            4 => Ok(ConnectionKind::StrongPower),
            5 => Ok(ConnectionKind::DirectionalInput),
            6 => Ok(ConnectionKind::DirectionalOutput),
            7 => Ok(ConnectionKind::DirectSource),
            8 => Ok(ConnectionKind::Control),
            9 => Ok(ConnectionKind::Support),
            _ => Err(UnknownKind(number)),
        }
    }
}

// What a port connection passes on.
#[derive(Clone, Copy, PartialEq, Eq)]
pub enum TransferKind {
    DustPropagation,
    DirectSignal,
    WeakPower,
    StrongPower,
    DirectionalDevice,
    SideControl,
    StructuralSupport,
}

impl From<TransferKind> for u64 {
    ghost from_gives = { λ kind number. number ≡ transfer_number kind };

    fn from(kind: TransferKind) -> u64 {
        kind as u64
    }
}
