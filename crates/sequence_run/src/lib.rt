// The run of ascending sequences at the end of a queue, as plain numbers: how many are queued, and how many of the last of them are known to
// ascend. While the run covers the queue, no sequence is queued twice. It stands apart from `monitor`, which keeps these numbers: nothing here
// needs the queue itself.
#![tactic(auto)]

ghost use Rattle.std.specs.Prelude.{◌≡◌, ◌+◌, ◌<◌, ltb, leb, eqb};
ghost use Rattle.limits.specs.Limits.{capacity};
ghost use Rattle.probe_queue.specs.Queue.{choose};

// Whether the run covers the queue.
pub fn covers(queued: usize, run: usize) -> bool
    ensures { result ≡ leb queued run }
{
    queued <= run
}

// Of so many pops, how many unmark what stays queued: none where no sequence is queued twice.
pub fn repeats(queued: usize, run: usize, count: usize) -> usize
    ensures { result ≡ choose (leb queued run) 0 count }
{
    if covers(queued, run) { 0 } else { count }
}

// The run once one more sequence is queued behind the latest.
pub fn longer(queued: usize, run: usize, latest: u32, sequence: u32) -> usize
    requires { queued < capacity }
    ensures { result ≡ choose (eqb queued 0) 1 (choose (ltb latest sequence) (choose (leb run queued) run queued + 1) 1) }
{
    if queued == 0 {
        return 1;
    }
    if latest >= sequence {
        return 1;
    }
    if run <= queued { run + 1 } else { queued + 1 }
}
