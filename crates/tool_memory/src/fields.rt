// A field of a memory by its place. It is total: what a memory that is too short gives is stated too.
ghost use Rattle.std.specs.Prelude.{◌≡◌, ◌+◌, ◌≤◌};
ghost use Rattle.receiver_memory.specs.Fields.{field_at};
ghost use Rattle.tool_memory.specs.Layout.{size};

#[tactic(auto, unfolding(receiver_memory::specs::Fields::field_at))]
pub(crate) fn field_at<const N: usize>(memory: &[u8], at: usize) -> [u8; N]
    requires { at + N ≤ size }
    ensures { result ≡ field_at N memory.now at }
{
    octets::padded(octets::part(memory, at, at + N))
}
