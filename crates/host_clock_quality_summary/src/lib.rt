// The host's call that shows a clock quality: the words that a snapshot shows of one (crate host_snapshot_words).
ghost use Rattle.host_clock_quality_summary.specs.Summary.{Summary};

use host_clock_quality_words::QUALITY_WORDS;

// What the words say; any words are shown. A value that is not there is 0, with a 0 before it; the 16 bits are 0 where the error is known.
// Words of `shown`: 0 samples, 1 both, 2 unsynchronized, 3 invalid, 4 unknown,
// 5 invalid_sender, 6 invalid_reflector, 7 invalid_both,
// 8 sender.seen, 9 sender.synchronized, 10 sender.ptp, 11 sender.scale, 12 sender.multiplier, 13 sender.error_known,
// 14 sender.error (f64), 15 sender.received,
// 16 reflector.seen, 17 reflector.synchronized, 18 reflector.ptp, 19 reflector.scale, 20 reflector.multiplier,
// 21 reflector.error_known, 22 reflector.error (f64), 23 reflector.received, 24 largest_known, 25 largest (f64).
#[unsafe(no_mangle)]
pub extern "C" fn ambrulicciu_clock_quality_summary(
    quality: &[u64; QUALITY_WORDS],
    shown: &mut [u64; 26],
) -> u8
    ensures { Summary quality.now result shown.new }
{
    let state = host_clock_quality_words::load(quality);
    host_snapshot_words::place_quality(shown, 0, state);
    0
}
