// The second count of a log (document 02, Q-13) for a host: the text that the program linkrecount prints of a log that is good.
ghost use Rattle.std.specs.Prelude.{◌≡◌};
ghost use Rattle.host_report_answer.specs.Told.{told};
ghost use Rattle.host_recount_log.specs.LogTold.{left, recount_log_to};

// The report of a log, counted straight from its records, at the start of `text`, and its length. The rooms and the text may hold anything; 5 where
// one has another size. A log that is refused is refused with its number, 9, 7 or 8. A refusal changes nothing that is lent.
#[unsafe(no_mangle)]
pub extern "C" fn ambrulicciu_recount_log(
    log: &[u8],
    marks: &mut [u8],
    fronts: &mut [u32],
    text: &mut [u8],
    length: &mut [u64; 1],
) -> u8
    ensures { left (told result text.new length.new) marks.new fronts.new ≡ recount_log_to log.now marks.old fronts.old text.old length.old }
{
    let answer = recount::recount_log(log, marks, fronts, text);
    host_report_answer::tell(answer, length)
}
