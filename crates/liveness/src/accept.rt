// The checks of a plot, and the plot that they accept.
ghost use Rattle.std.specs.Prelude.{◌≡◌, IfOk};
ghost use Rattle.checks.specs.Refusals.{liveness_lists};
ghost use Rattle.liveness.specs.Sets.{checked};
ghost use Rattle.liveness.specs.Given.{Given};

use super::plot::Plot;
use checks::refusals::liveness_lists;
use lists::ends::Ends;
use lists::{COMPONENT, COMPONENTS, CONNECTIONS, Refusal};

// What the checks fill: the table of the components' ids, and the ends of the port connections as members.
#[derive(Drop)]
pub struct Tables {
    keys: [u64; COMPONENTS],
    ends: [Ends; CONNECTIONS],
}

impl Tables {
    // All zero.
    pub fn new() -> Tables {
        Tables {
            keys: [0; COMPONENTS],
            ends: [Ends { source: 0, sink: 0 }; CONNECTIONS],
        }
    }

    // The refusal of the checks, or the plot, to be read in the tables. `enough`: whether the slices lent for its work are long enough.
    pub fn plot<'a>(
        &'a mut self,
        rules: u64,
        components: &'a [i64],
        ports: &'a [i64],
        frontiers: &'a [i64],
        enough: bool,
    ) -> Result<Plot<'a>, Refusal>
        ensures answer { checked result ≡ liveness_lists rules components.now ports.now frontiers.now enough }
        ensures given { IfOk result (Given rules components.now ports.now frontiers.now enough) }
    {
        let Tables { keys, ends } = self;
        liveness_lists(rules, components, ports, frontiers, enough, keys, ends)?;
        let count = components.len() / COMPONENT;
        Ok(Plot {
            keys: &keys[..count],
            components,
            ports,
            frontiers,
            rules,
            ends,
        })
    }
}
