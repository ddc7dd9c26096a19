// Sheets: text that says the three lists of a scene, and the rules by which it is read, in either form. The first pass takes the text alone
// and finds its first fault, or where the lists stand; the second stores the numbers. So a refusal changes no slice.
// Lent slices stay parameters: a struct of `&mut` fields would owe a ghost name for what each is left as.
#![tactic(auto)]

ghost use Rattle.lists.specs.Rules.{rules_limit};
ghost use Rattle.forms.specs.Sheet.{parse};
ghost use Rattle.sheet.specs.Entry.{SheetRead};

use checks::refusals::room_for;
use forms::list::store_list;
use forms::sheet::check_sheet;
use forms::{Counts, Style};
use lists::rules::RULES;
use lists::{COMPONENT, CONNECTION, FRONTIER, Fault, Refusal, Section};

// A sheet that was read: its form, its rules, and how many records each list has.
#[derive(Clone, Copy)]
pub struct Sheet {
    pub style: Style,
    pub rules: u64,
    pub counts: Counts,
}

// Reads a sheet into lent work lists. The limits, the most records of each list, are cut to those of a scene.
pub fn read_sheet(
    text: &[u8],
    limits: Counts,
    components: &mut [i64],
    connections: &mut [i64],
    frontiers: &mut [i64],
) -> Result<Sheet, Refusal>
    ensures { SheetRead (parse rules_limit limits.components limits.connections limits.frontiers text.now)
        components.old components.new connections.old connections.new frontiers.old frontiers.new result }
{
    let found = check_sheet(text, RULES, limits)?;
    let c = found.components;
    let p = found.connections;
    let f = found.frontiers;
    let enough = room_for(c.count, COMPONENT, components.len())
        & room_for(p.count, CONNECTION, connections.len())
        & room_for(f.count, FRONTIER, frontiers.len());
    if !enough {
        return Err(Refusal {
            fault: Fault::ShortSlice,
            list: None,
            item: 0,
        });
    }
    let style = found.style;
    store_list(text, style, Section::Components, c, components);
    store_list(text, style, Section::Connections, p, connections);
    store_list(text, style, Section::Frontiers, f, frontiers);
    Ok(Sheet {
        style,
        rules: found.rules,
        counts: Counts {
            components: c.count,
            connections: p.count,
            frontiers: f.count,
        },
    })
}
