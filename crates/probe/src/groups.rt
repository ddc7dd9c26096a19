// A fragment's nets for the tests from Rust.
ghost use Rattle.std.specs.Prelude.{◌≡◌, ◌&&◌, ltb};
ghost use Rattle.circuit.specs.Topology.{shares_member};
ghost use Rattle.probe.specs.Numbers.{as_number};
ghost use Rattle.lists.specs.Limits.{component_limit};

// 1 where the net shares a member with the fragment; a set has none from its limit on.
#[unsafe(no_mangle)]
pub extern "C" fn probe_fragment_net(
    nets: &[u64],
    fragments: &[u64],
    fragment: u64,
    net: usize,
) -> u64
    ensures { result ≡ as_number (ltb net component_limit && shares_member nets.now fragments.now fragment net) }
{
    u64::from(circuit::fragment_nets(nets, fragments, fragment).contains(net))
}
