// The host's calls of crates quantiles and percentiles. The state is four lent words: 0 unless the values are signed, the count, the least and the
// greatest value. Values, and what is shown, are the room's words: a signed value is its two's complement word.
#![tactic(auto)]

ghost use Rattle.std.specs.Prelude.{◌≡◌};
ghost use Rattle.host_quantiles.specs.Calls.{quantiles_at, started, fresh_to, record_left, record_to, percentiles_left, percentiles_to};
ghost use Rattle.host_quantiles.specs.Kept.{state_of, kept, kept_by};

use limits::Refusal;
use quantiles::Quantiles;

// The state that the words say.
fn load(words: &[u64; 4]) -> Quantiles
    ensures { result ≡ quantiles_at words.now }
{
    Quantiles {
        signed: words[0] != 0,
        count: words[1],
        min: words[2],
        max: words[3],
    }
}

// The state of that kind, with the count, the least and the greatest value that the words say.
fn state_of(words: &[u64; 4], signed: bool) -> Quantiles
    ensures { result ≡ state_of words.now signed }
{
    Quantiles {
        signed: signed,
        count: words[1],
        min: words[2],
        max: words[3],
    }
}

// No samples yet. The room needs no preparation.
#[unsafe(no_mangle)]
pub extern "C" fn ambrulicciu_quantiles_fresh(quantiles: &mut [u64; 4], signed: u32) -> u8
    ensures { started result quantiles.new ≡ fresh_to quantiles.old signed }
{
    quantiles[0] = host_numbers::flag(signed != 0);
    quantiles[1] = 0;
    quantiles[2] = 0;
    quantiles[3] = 0;
    0
}

// The number of an answer; where a sample was counted, the words have the state with it.
fn keep(
    quantiles: &mut [u64; 4],
    recorded: &mut [u64; 1],
    answer: Result<Option<Quantiles>, Refusal>,
) -> u8
    ensures { kept result quantiles.new recorded.new ≡ kept_by answer quantiles.old recorded.old }
{
    match answer {
        Err(refusal) => u8::from(refusal),
        Ok(None) => {
            recorded[0] = 0;
            0
        }
        Ok(Some(next)) => {
            // the flag stays
            quantiles[1] = next.count;
            quantiles[2] = next.min;
            quantiles[3] = next.max;
            recorded[0] = 1;
            0
        }
    }
}

// Any sample.
fn record_any(quantiles: &mut [u64; 4], room: &mut [u64], value: u64, recorded: &mut [u64; 1]) -> u8
    ensures { record_left result quantiles.new room.new recorded.new ≡ record_to quantiles.old room.old value recorded.old }
{
    let state = load(quantiles);
    let answer = state.record(room, value);
    keep(quantiles, recorded, answer)
}

// One sample more: `recorded` has 1; or 0 at a count of 2^64-1, and then nothing else changes.
// A sample between the least and the greatest so far goes a way that is short for each kind, and writes the count alone. Any other is left to
// `record_any`, which stands by itself in the compiled code since two places call it.
#[unsafe(no_mangle)]
pub extern "C" fn ambrulicciu_quantiles_record(
    quantiles: &mut [u64; 4],
    room: &mut [u64],
    value: u64,
    recorded: &mut [u64; 1],
) -> u8
    ensures { record_left result quantiles.new room.new recorded.new ≡ record_to quantiles.old room.old value recorded.old }
{
    if quantiles[0] == 0 {
        let state = state_of(quantiles, false);
        if state.record_between(room, value) {
            quantiles[1] = state.count + 1;
            recorded[0] = 1;
            return 0;
        }
        return record_any(quantiles, room, value, recorded);
    }
    let state = state_of(quantiles, true);
    if state.record_between(room, value) {
        quantiles[1] = state.count + 1;
        recorded[0] = 1;
        return 0;
    }
    record_any(quantiles, room, value, recorded)
}

// The value of each percentile, in the word of `shown` that has its place: `present` has 1; or 0 without samples, and then `shown` stays.
#[unsafe(no_mangle)]
pub extern "C" fn ambrulicciu_quantiles_percentiles(
    quantiles: &[u64; 4],
    room: &[u64],
    percents: &[f64],
    shown: &mut [u64],
    present: &mut [u64; 1],
) -> u8
    ensures { percentiles_left result shown.new present.new ≡ percentiles_to quantiles.now room.now percents.now shown.old present.old }
{
    let state = load(quantiles);
    let answer = percentiles::percentiles(state, room, percents, shown);
    match answer {
        Err(refusal) => u8::from(refusal),
        Ok(values) => {
            present[0] = host_numbers::flag(values);
            0
        }
    }
}
