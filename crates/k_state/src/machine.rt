//! One machine: its two moves, and whether it may make one.
ghost use Rattle.std.specs.Prelude.{◌≡◌, ◌<◌};
ghost use Rattle.k_state.specs.Machine.{is_privileged, root_moved};

/// The special machine's next value: one more, modulo `modulus`.
pub fn root_move(x: u16, modulus: u16) -> u16
    requires { x < modulus }
    ensures { result ≡ root_moved x modulus }
{
    (x + 1) % modulus
}

/// Every other machine's next value: the one that it sees before it.
pub fn copy_move(_x: u16, before: u16) -> u16
    ensures { result ≡ before }
{
    before
}

/// Whether a machine may move: `before` is the value that it sees before it. The special machine
/// may if that is its own value, every other machine if it is a different one.
pub fn privileged(special: bool, x: u16, before: u16) -> bool
    ensures { result ≡ is_privileged special x before }
{
    if special { x == before } else { x != before }
}
