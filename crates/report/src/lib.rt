// The text of the report (document 01, 'Log and program'): its template, filled from its figures and written into a lent buffer.
pub mod figures;
mod values;

ghost use Rattle.std.specs.Prelude.{◌≡◌};
ghost use Rattle.limits.specs.Numbers.{numbered};
ghost use Rattle.report.specs.Report.{outcome, report_of};

use crate::figures::Figures;
use limits::Refusal;
pub use template::words;

// The size of the buffer: the template with the greatest number at each place fits it.
pub const REPORT_ROOM: usize = 1024;

// Writes the report at the start of the buffer and leaves all bytes behind it as they are: the length of the text. A buffer of another size is refused.
pub fn report(buffer: &mut [u8], figures: Figures) -> Result<usize, Refusal>
    ensures { outcome (numbered result) buffer.new ≡ report_of buffer.old figures }
{
    if buffer.len() != REPORT_ROOM {
        return Err(Refusal::WrongRoom);
    }
    let values = values::values_of(figures);
    let end = template::fill(
        buffer,
        b"records # turned away #\n\
        requested # unobserved # thousandths #\n\
        unique # duplicate # unknown #\n\
        answered # additional # late #\n\
        reordered # independent #\n\
        followup # matched # repeated # unmatched # ambiguous # unavailable #\n\
        direct # unavailable # discontinuities # reordered #\n\
        missing forward # reverse #\n\
        state # losses #\n\
        rtt samples # min # max #\n\
        evicted unanswered #\n",
        values,
    );
    Ok(end)
}
