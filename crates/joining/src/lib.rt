// Two plots joined, as lists (document 02, R-9): what sheets say is read and written elsewhere. The joined lists are never made: a cursor
// says which list has the next record of the merge, so that a writer prints it from where it stands.
#![tactic(auto)]

pub mod conflict;
pub mod joined;
pub mod merging;

ghost use Rattle.std.proofs.Props.{props};
ghost use Rattle.std.specs.Prelude.{◌≡◌, ◌%◌, length};
ghost use Rattle.lists.specs.Limits.{frontier_width};
ghost use Rattle.lists.specs.Within.{Components, Connections};

// The lists of a sheet that the checks of lengths and ranges accepted.
#[derive(Clone, Copy)]
pub struct Plot<'a> {
    pub components: &'a [i64],
    pub connections: &'a [i64],
    pub frontiers: &'a [i64],
    pub ghost components_within: { Components components.now } by { Prim.hlevel props },
    pub ghost connections_within: { Connections connections.now } by { Prim.hlevel props },
    pub ghost frontiers_whole: { length frontiers.now % frontier_width ≡ 0 },
}
