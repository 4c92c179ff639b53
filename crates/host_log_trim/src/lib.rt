// What a host calls to make a log of one that was cut short on the way (document 02, Q-11).
ghost use Rattle.std.specs.Prelude.{◌≡◌};
ghost use Rattle.host_log_trim.specs.Told.{left, cut_words, trim_told};

use log_trim::Cut;

fn cut_words(cut: Cut) -> [u64; 3]
    ensures { result ≡ cut_words cut }
{
    [cut.kept as u64, cut.stop as u64, cut.dropped as u64]
}

// The records from byte 0 up to the first that is bad or incomplete, with a new trailer: a log of `stop` + 24 bytes at the start of `bytes`. A log that the
// reader accepts, with no leading matter, is given back as it is. 9 above 65,536 bytes, then 12 where `bytes` is too short.
// Words of `answer`: 0 kept, 1 stop, 2 dropped.
#[unsafe(no_mangle)]
pub extern "C" fn ambrulicciu_log_trim(
    log: &[u8],
    copies: u16,
    threshold: u16,
    timeout: u64,
    bytes: &mut [u8],
    answer: &mut [u64; 3],
) -> u8
    ensures { left result bytes.new answer.new ≡ trim_told log.now copies threshold timeout bytes.old answer.old }
{
    let trimmed = log_trim::trim(log, copies, threshold, timeout, bytes);
    match trimmed {
        Ok(cut) => {
            *answer = cut_words(cut);
            0
        }
        Err(refusal) => u8::from(refusal),
    }
}
