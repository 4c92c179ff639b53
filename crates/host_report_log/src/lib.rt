// The report of a log (document 01, 'Log and program') for a host: the text that the program linkreport prints of a log that is good.
ghost use Rattle.std.specs.Prelude.{◌≡◌};
ghost use Rattle.log_play_parts.specs.Parts.{rooms_of};
ghost use Rattle.host_report_answer.specs.Told.{told};
ghost use Rattle.host_report_log.specs.LogTold.{left, report_log_to};

use probe_queue::QueuedProbe;

// The report of a log at the start of `text`, and its length. The rooms, the queue and the text may hold anything; 5 where one has another size.
// A log that is refused is refused with its number, 9, 7 or 8. A refusal changes nothing that is lent.
#[unsafe(no_mangle)]
pub extern "C" fn ambrulicciu_report_log(
    log: &[u8],
    secret: &[u32; 8],
    keys: &mut [[u64; 2]],
    slots: &mut [[u64; 3]],
    probes: &mut [[u64; 4]],
    offsets: &mut [u32],
    links: &mut [[u16; 8]],
    queue: &mut [QueuedProbe],
    text: &mut [u8],
    length: &mut [u64; 1],
) -> u8
    ensures { let before = rooms_of keys.old slots.old probes.old offsets.old links.old in
        let after = rooms_of keys.new slots.new probes.new offsets.new links.new in
        left (told result text.new length.new) queue.new after ≡ report_log_to log.now secret.now queue.old before text.old length.old }
{
    let answer = link_report::report_log(
        log, secret, keys, slots, probes, offsets, links, queue, text,
    );
    host_report_answer::tell(answer, length)
}
