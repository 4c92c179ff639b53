// A summary of delays in the seven words that a host is shown.
ghost use Rattle.std.specs.Prelude.{◌≡◌};
ghost use Rattle.std.proofs.lemmas.List.Edits.{sets};
ghost use Rattle.host_summary.specs.Words.{ms_known, ms_bits, summary_words};

use delays::DelaySummary;

fn ms_known(ms: Option<f64>) -> u64
    ensures { result ≡ ms_known ms }
{
    match ms {
        None => 0,
        Some(value) => 1,
    }
}

fn ms_bits(ms: Option<f64>) -> u64
    ensures { result ≡ ms_bits ms }
{
    match ms {
        None => 0,
        Some(value) => host_numbers::bits_of(value),
    }
}

// Samples; then minimum, average and maximum, each with whether it is there.
pub fn show(shown: &mut [u64; 7], summary: DelaySummary)
    ensures { shown.new ≡ sets shown.old 0 (summary_words summary) }
{
    let least = summary.min;
    let average = summary.average;
    let most = summary.max;
    shown[0] = summary.samples;
    shown[1] = ms_known(least);
    shown[2] = ms_bits(least);
    shown[3] = ms_known(average);
    shown[4] = ms_bits(average);
    shown[5] = ms_known(most);
    shown[6] = ms_bits(most);
}
