// The ordering.
ghost use Rattle.std.specs.Prelude.{◌≡◌};
ghost use Rattle.node.specs.Promises.{OrderingStart};

// Genesis held at round 0, nothing else, and every last committed round 0.
pub fn tundrimela_ordering_start(
    setup: &[u8],
    genesis: &[u8],
    state: &mut [u8],
    table: &mut [u8],
) -> u64
    ensures { OrderingStart setup.now genesis.now state.old table.old result state.new table.new }
{
    refusal::long_code(ordering::start::start(setup, genesis, state, table))
}
