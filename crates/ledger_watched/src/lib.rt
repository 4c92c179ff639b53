// The answers of `sent` and `accept` of src/sender/measurements.rs with the monitor of src/sender/session_state.rs, as the sender makes them: one
// call of two parts. Where either part is refused, neither changes. The calls themselves work on a host's words (crates host_watched_sent and
// host_watched_accept_words); their contracts cite the definitions of this crate.
ghost use Rattle.std.specs.Prelude.{◌≡◌};

use call_types::Reply;

// The monitor hears of the probe that a unique reply answers.
pub fn sender_of(reply: Reply) -> u32
    ensures { result ≡ reply.key.sender }
{
    reply.key.sender
}
