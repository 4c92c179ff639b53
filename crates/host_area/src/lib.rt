// The host's calls for the extension area of a packet (RFC 8972, section 4; crates area_items, area_read, area_fields, area_observation and
// area_write), over lent bytes. An item is one word, as ambrulicciu_bit_observation takes it: its header's four bytes as they stand in the
// area, then 32 bits of where its value begins.
#![tactic(auto)]

ghost use Rattle.std.specs.Prelude.{◌≡◌, ◌≤◌};
ghost use Rattle.host_numbers.specs.Numbers.{lower, upper, flag_word};
ghost use Rattle.record_parts.specs.Parts.{counters_flag};
ghost use Rattle.area_fields.specs.Fields.{counters_table, follow_up_table};
ghost use Rattle.host_area.specs.Words.{sighted_flag, unknown_flag, sequence_of, timestamp_of, flags_with, told_words};
ghost use Rattle.host_area.specs.Calls.{room_left, read_to, write_to, words_left, counters_to, follow_up_to, observation_to, number_of_answer, bytes_left, fields_to, point_from, item_from};

use area_fields::FollowUpItem;
use area_observation::{Sighting, Told};
use call_types::{CounterPoint, ReflectorRx, ReflectorTx, SenderTx};
use limits::Refusal;

// The items of an area, as many as the room has place for; `count` has how many there are.
#[unsafe(no_mangle)]
pub extern "C" fn ambrulicciu_area_read(bytes: &[u8], items: &mut [u64], count: &mut [u64; 1]) -> u8
    ensures { room_left result items.new count.new ≡ read_to bytes.now items.old count.old }
{
    match area_read::read(bytes, items) {
        Err(refusal) => u8::from(refusal),
        Ok(found) => {
            count[0] = found as u64;
            0
        }
    }
}

// The items in a row at the start of the bytes; `length` has how many bytes they take.
#[unsafe(no_mangle)]
pub extern "C" fn ambrulicciu_area_write(
    items: &[u64],
    values: &[u8],
    bytes: &mut [u8],
    length: &mut [u64; 1],
) -> u8
    ensures { room_left result bytes.new length.new ≡ write_to items.now values.now bytes.old length.old }
{
    match area_write::write(items, values, bytes) {
        Err(refusal) => u8::from(refusal),
        Ok(count) => {
            length[0] = count as u64;
            0
        }
    }
}

// The value of an item of type 5.
// Words of `counters`: 0 s_txc, 1 r_rxc, 2 r_txc.
#[unsafe(no_mangle)]
pub extern "C" fn ambrulicciu_counters_read(value: &[u8], counters: &mut [u32; 3]) -> u8
    ensures { words_left result counters.new ≡ counters_to value.now counters.old }
{
    match area_fields::read_counters(value) {
        Err(refusal) => u8::from(refusal),
        Ok(point) => {
            counters[0] = point.sender.0;
            counters[1] = point.received.0;
            counters[2] = point.transmitted.0;
            0
        }
    }
}

// The value of an item of type 7.
// Words of `follow`: 0 sequence, 1 timestamp, 2 mode.
#[unsafe(no_mangle)]
pub extern "C" fn ambrulicciu_follow_up_read(value: &[u8], follow: &mut [u64; 3]) -> u8
    ensures { words_left result follow.new ≡ follow_up_to value.now follow.old }
{
    match area_fields::read_follow_up(value) {
        Err(refusal) => u8::from(refusal),
        Ok(item) => {
            follow[0] = item.sequence as u64;
            follow[1] = item.timestamp;
            follow[2] = item.mode as u64;
            0
        }
    }
}

// The number of an answer with nothing else to it.
fn number_of(answer: Result<(), Refusal>) -> u8
    ensures { result ≡ number_of_answer answer }
{
    match answer {
        Err(refusal) => u8::from(refusal),
        Ok(()) => 0,
    }
}

// The value of an item of type 5, at the start of the bytes.
#[unsafe(no_mangle)]
pub extern "C" fn ambrulicciu_counters_write(
    bytes: &mut [u8],
    sender: u32,
    received: u32,
    transmitted: u32,
) -> u8
    ensures { bytes_left result bytes.new ≡ fields_to 12 (counters_table (point_from sender received transmitted)) bytes.old }
{
    let point = CounterPoint {
        sender: SenderTx(sender),
        received: ReflectorRx(received),
        transmitted: ReflectorTx(transmitted),
    };
    number_of(area_fields::write_counters(bytes, point))
}

// The value of an item of type 7, at the start of the bytes.
#[unsafe(no_mangle)]
pub extern "C" fn ambrulicciu_follow_up_write(
    bytes: &mut [u8],
    sequence: u32,
    timestamp: u64,
    mode: u8,
) -> u8
    ensures { bytes_left result bytes.new ≡ fields_to 16 (follow_up_table (item_from sequence timestamp mode)) bytes.old }
{
    let item = FollowUpItem {
        sequence,
        timestamp,
        mode,
    };
    number_of(area_fields::write_follow_up(bytes, item))
}

fn counters_flag(counters: Option<CounterPoint>) -> u32
    ensures { (result ≡ counters_flag counters) × (result ≤ 1) }
{
    match counters {
        None => 0,
        Some(point) => 1,
    }
}

fn sighted_flag(follow: Option<Sighting>) -> u32
    ensures { (result ≡ sighted_flag follow) × (result ≤ 1) }
{
    match follow {
        None => 0,
        Some(item) => 1,
    }
}

fn flag_word(set: bool) -> u32
    ensures { (result ≡ flag_word set) × (result ≤ 1) }
{
    if set { 1 } else { 0 }
}

fn unknown_flag(follow: Option<Sighting>) -> u32
    ensures { (result ≡ unknown_flag follow) × (result ≤ 1) }
{
    match follow {
        None => 0,
        Some(item) => flag_word(item.unknown),
    }
}

fn sequence_of(follow: Option<Sighting>) -> u32
    ensures { result ≡ sequence_of follow }
{
    match follow {
        None => 0,
        Some(item) => item.sequence,
    }
}

fn timestamp_of(follow: Option<Sighting>) -> u64
    ensures { result ≡ timestamp_of follow }
{
    match follow {
        None => 0,
        Some(item) => item.timestamp,
    }
}

fn flags_with(old: u32, counters: u32, follow: u32, unknown: u32) -> u32
    requires { (counters ≤ 1) × (follow ≤ 1) × (unknown ≤ 1) }
    ensures { result ≡ flags_with old counters follow unknown }
{
    old % 4 + 4 * counters + 8 * follow + old / 16 % 8 * 16 + 128 * unknown + old / 256 * 256
}

// Counters and follow-up, over their words of an observation.
fn tell(told: Told, observation: &mut [u32; 24])
    ensures { observation.new ≡ told_words told observation.old }
{
    let counters = told.counters;
    let follow = told.follow;
    let timestamp = timestamp_of(follow);
    let flags = flags_with(
        observation[21],
        counters_flag(counters),
        sighted_flag(follow),
        unknown_flag(follow),
    );
    observation[10] = host_numbers::low(timestamp);
    observation[11] = host_numbers::high(timestamp);
    observation[15] = record_parts::sender_count(counters);
    observation[16] = record_parts::received_count(counters);
    observation[17] = record_parts::transmitted_count(counters);
    observation[18] = sequence_of(follow);
    observation[21] = flags;
}

// What a reply's area tells `observe`, over the words of an observation that say counters and follow-up.
#[unsafe(no_mangle)]
pub extern "C" fn ambrulicciu_area_observation(bytes: &[u8], observation: &mut [u32; 24]) -> u8
    ensures { words_left result observation.new ≡ observation_to bytes.now observation.old }
{
    match area_observation::told_of(bytes) {
        Err(refusal) => u8::from(refusal),
        Ok(told) => {
            tell(told, observation);
            0
        }
    }
}
