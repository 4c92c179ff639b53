// `ambrulicciu_observe`: the ledger's `observe`, on the words and the rooms that a host lends; crate host_observe_words serves it.
ghost use Rattle.std.specs.Prelude.{◌≡◌};
ghost use Rattle.host_observe_words.specs.Observe.{left, observe_leaves};

use host_ledger::LEDGER_WORDS;
use host_observe_words::observe;

// `flags` are those of document 01's observe record: 1 T4, 2 ordinal, 4 counters, 8 follow-up, 32 estimates, 64 PTP, 128 unknown
// mode, which counts only with 8; 16 and the bits above 128 are ignored.
// Words of `observation`: 0 t3 (u64), 2 round_trip (u64), 4 t4 (i64), 6 reference (i64), 8 reserved (2), 10 follow_up_timestamp (u64),
// 12 sender, 13 reflector, 14 ordinal, 15 s_txc, 16 r_rxc, 17 r_txc, 18 follow_up_sequence, 19 offset (i32),
// 20 sender_estimate (u16), reflector_estimate (u16), 21 flags, 22 unused (2).
#[unsafe(no_mangle)]
pub extern "C" fn ambrulicciu_observe(
    ledger: &mut [u64; LEDGER_WORDS],
    keys: &[[u64; 2]],
    slots: &mut [[u64; 3]],
    offsets: &mut [u32],
    links: &mut [[u16; 8]],
    observation: &[u32; 24],
) -> u8
    ensures { left result ledger.new slots.new offsets.new links.new ≡ observe_leaves ledger.old keys.now slots.old offsets.old links.old observation.now }
{
    limits::number(observe(ledger, keys, slots, offsets, links, observation))
}
