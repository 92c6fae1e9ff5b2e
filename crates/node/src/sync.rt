// Parents and payload of a header, and the known table.
ghost use Rattle.std.specs.Prelude.{◌≡◌};
ghost use Rattle.refusal.specs.Answers.{code_of};
ghost use Rattle.synchronizer.specs.Answers.{deliver_answer};
ghost use Rattle.node.specs.Promises.{GetParents, MissingPayload, Learn};

// The missing parents of a header, in parent order, at the front of out; how many there are.
pub fn tundrimela_get_parents<'a>(
    members: &[u8],
    genesis: &'a [u8],
    known: &'a [u8],
    header: &[u8],
    out: &mut [u8],
) -> u64
    ensures { GetParents members.now genesis.now known.now header.now out.old result out.new }
{
    refusal::code(synchronizer::answers::get_parents(members, genesis, known, header, out))
}

// Whether all parents of a certificate's header are there: 1 or 0.
pub fn tundrimela_deliver<'a>(
    members: &[u8],
    genesis: &'a [u8],
    known: &'a [u8],
    header: &[u8],
) -> u64
    ensures { result ≡ code_of (deliver_answer members.now genesis.now known.now header.now) }
{
    refusal::code(synchronizer::answers::deliver(members, genesis, known, header))
}

// The missing pairs of a header's payload, in payload order, at the front of out; how many there are.
pub fn tundrimela_missing_payload(own: &[u8], pairs: &[u8], header: &[u8], out: &mut [u8]) -> u64
    ensures { MissingPayload own.now pairs.now header.now out.old result out.new }
{
    refusal::code(synchronizer::answers::missing_payload(own, pairs, header, out))
}

// A record more in the known table: 1, or 0 where its digest is known.
pub fn tundrimela_learn(known: &mut [u8], new: &[u8]) -> u64
    ensures { Learn known.old new.now result known.new }
{
    refusal::code(synchronizer::answers::learn(known, new))
}
