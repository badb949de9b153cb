//! The wake order: when the terminal's radio is needed again. It is set on an alarm, or waived by staying awake, and never
//! forgotten.
ghost use Rattle.std.specs.Prelude.{◌≡◌, Some, None};
ghost use Rattle.receiver.specs.Views.{seen_latest};
ghost use Rattle.receiver.specs.Wakes.{wake_of};

use crate::numbers::Latest;

/// When the radio is needed again.
#[derive(Clone, Copy, PartialEq, Eq, Debug)]
pub enum Wake {
    /// At this moment, in ms.
    At(u64),
    /// No more: no further burst will come.
    EndOfService,
    /// No section said when.
    Unknown,
}

impl Wake {
    // By the section that was taken last, if any was.
    pub(crate) fn after(latest: Option<Latest>) -> Wake
        ensures { result ≡ wake_of (seen_latest latest) }
    {
        match latest {
            None => Wake::Unknown,
            Some(Latest { delta_t: 0, .. }) => Wake::EndOfService,
            Some(latest) => Wake::At(u64::from(latest.arrival) + 10 * u64::from(latest.delta_t)),
        }
    }
}

/// The alarm of a terminal, and what is set on it.
#[derive(Clone, Copy, PartialEq, Eq, Debug)]
pub struct Alarm {
    pub wake: Option<Wake>,
}

/// A wake order. Whoever has one must spend it, by one of its two calls: it is not `Drop`, and nothing else takes it apart.
/// Only close makes one.
pub struct WakeOrder {
    wake: Wake,
}

impl WakeOrder {
    pub(crate) fn new(wake: Wake) -> WakeOrder
        ensures { result.wake ≡ wake }
    {
        WakeOrder { wake }
    }

    /// Sets it on an alarm, which then goes off when the radio is needed again.
    pub fn set_on(self, alarm: &mut Alarm)
        ensures { alarm.new.wake ≡ Some self.wake }
    {
        let WakeOrder { wake } = self;
        alarm.wake = Some(wake);
    }

    /// Waives it: the radio stays on, and the alarm is empty.
    pub fn stay_awake(self, alarm: &mut Alarm)
        ensures { alarm.new.wake ≡ None }
    {
        let WakeOrder { wake: _ } = self;
        alarm.wake = None;
    }
}
