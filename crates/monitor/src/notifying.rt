// `Summary` and `transition` of src/sender/session_state.rs: the state, the losses and the notification counts.
// All are by value, and none is the host's to call.
ghost use Rattle.std.specs.Prelude.{◌≡◌, false};
ghost use Rattle.monitor.specs.Refusals.{counted};
ghost use Rattle.monitor.specs.States.{same, losing, enters, transition, saturated, loses, hears, stops};

use crate::{State, Summary};

// `saturating_add`, for many at once.
fn saturating(losses: u32, count: usize) -> u32
    ensures { result ≡ saturated losses count }
{
    let left = (u32::MAX - losses) as usize;
    if count <= left {
        losses + count as u32
    } else {
        u32::MAX
    }
}

impl Summary {
    // Whether a notification count is at its bound.
    pub fn full(self) -> bool
        ensures { result ≡ counted self }
    {
        self.active_notifications >= limits::COUNT_BOUND
            || self.failed_notifications >= limits::COUNT_BOUND
            || self.idle_notifications >= limits::COUNT_BOUND
    }

    // A state is entered, which notifies.
    pub fn entered(self, to: State) -> Summary
        requires { counted self ≡ false }
        ensures { result ≡ enters to self }
    {
        match to {
            State::Idle => Summary {
                state: State::Idle,
                consecutive_losses: 0,
                idle_notifications: self.idle_notifications + 1,
                ..self
            },
            State::Active => Summary {
                state: State::Active,
                consecutive_losses: 0,
                active_notifications: self.active_notifications + 1,
                ..self
            },
            State::Failed => Summary {
                state: State::Failed,
                failed_notifications: self.failed_notifications + 1,
                ..self
            },
        }
    }

    // `transition`: only a change of state notifies.
    pub fn turned(self, to: State) -> Summary
        requires { counted self ≡ false }
        ensures { result ≡ transition to self }
    {
        if to == self.state {
            return self;
        }
        self.entered(to)
    }

    // The summary with other losses.
    pub fn losing(self, losses: u32) -> Summary
        ensures { result ≡ losing losses self }
    {
        Summary {
            consecutive_losses: losses,
            ..self
        }
    }

    // The loop of `advance`, for `count` probes that were due: the losses only rise, so that the last one tells whether any is at the threshold.
    pub fn lost(self, count: usize) -> Summary
        requires { counted self ≡ false }
        ensures { result ≡ loses count self }
    {
        if count == 0 {
            return self;
        }
        let losses = saturating(self.consecutive_losses, count);
        let next = self.losing(losses);
        if losses >= self.loss_threshold as u32 {
            return next.turned(State::Failed);
        }
        next
    }

    // What any reply while transmitting does.
    pub fn heard(self) -> Summary
        requires { counted self ≡ false }
        ensures { result ≡ hears self }
    {
        self.losing(0).turned(State::Active)
    }

    // What `idle` does.
    pub fn stopped(self, transmitting: bool) -> Summary
        requires { counted self ≡ false }
        ensures { result ≡ stops transmitting self }
    {
        if self.state != State::Idle {
            return self.entered(State::Idle);
        }
        if !transmitting {
            return self;
        }
        Summary {
            idle_notifications: self.idle_notifications + 1,
            ..self
        }
    }
}
