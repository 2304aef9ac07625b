// The scan for suspect sets in the work bytes: from any node on, the lowest suspect node with the set that it reports.
// Reads the work bytes and writes to no lent slice. Used by `marks`.
#![tactic(auto)]

ghost use Rattle.std.specs.Prelude.{◌≡◌, ◌<◌, ◌≤◌, length};
ghost use Rattle.rules.specs.Records as Records;
ghost use Rattle.rules.specs.Paper.{finding_of};
ghost use Rattle.netlists.specs.Netlists.{flat_of, Sized};
ghost use Rattle.families.specs.Layers.{number_of};
ghost use Rattle.suspects.specs.Suspects.{reports_in, found_from, Within};

use families::Layer;
use netlists::Netlist;
use rules::Half;
use set_order::sets_in_order;
use suspect_sets::{classes_of, is_tested, suspect_in};

// The lowest suspect node from node `from` on in a layer and the set that it reports, or clear.
// The sets of a node are tried in the order of report, if it is tested and its family holds a suspect set.
pub fn scan(netlist: Netlist, layer: Layer, from: usize, work: &[u8]) -> Half
    requires { Sized netlist (length work.now) × (from ≤ netlist.count) }
    ensures found { (n : Records.Netlist) → netlist ≡ flat_of n →
        finding_of result ≡ found_from from (reports_in n (number_of layer) work.now) }
    ensures within { Within from netlist.count result }
{
    let classes = classes_of(netlist);
    let map = suspect_maps::suspect_map(classes.secrets, classes.masks);
    let order = sets_in_order();
    'nodes: {
        for i in from..netlist.count {
            let part = layer.part(i);
            if !is_tested(netlist.nodes[i].kind) || !suspect_maps::meets(work, part, map) {
                continue;
            }
            for set in &order {
                let set = usize::from(*set);
                if suspect_in(work, part, classes, set) {
                    break 'nodes Half::Suspect(i, set);
                }
            }
        }
        Half::Clear
    }
}
