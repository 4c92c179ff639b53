// What a host is told of a report that was written, or refused: the number of the answer, and the length of the text in a lent word.
ghost use Rattle.std.specs.Prelude.{◌≡◌};
ghost use Rattle.limits.specs.Numbers.{numbered};
ghost use Rattle.host_report_answer.specs.Told.{number_of, word_after};

use limits::Refusal;

// The text's length into the lent word, and 0; or the refusal's number, and the word stays as it was.
pub fn tell(answer: Result<usize, Refusal>, length: &mut [u64; 1]) -> u8
    ensures { (result ≡ number_of (numbered answer)) × (length.new ≡ word_after (numbered answer) length.old) }
{
    match answer {
        Ok(end) => {
            let words = [end as u64];
            *length = words;
            0
        }
        Err(refusal) => u8::from(refusal),
    }
}
