//! The words of schedules.

ghost use Rattle.std.specs.Prelude.{◌≡◌};
ghost use Rattle.schedule_text.specs.Words.{service_text, side_text, timer_text};

use mon_types::Side;
use mon_wire::{Service, Timer};

/// The word of a service.
pub fn service_word(service: Service) -> &'static str
    ensures { result.now ≡ service_text service }
{
    match service {
        Service::Kv => "kv",
        Service::Log => "log",
    }
}

/// The word of a disk, `a` or `b`.
pub fn side_word(side: Side) -> &'static str
    ensures { result.now ≡ side_text side }
{
    match side {
        Side::A => "a",
        Side::B => "b",
    }
}

/// The word of a timer.
pub fn timer_word(timer: Timer) -> &'static str
    ensures { result.now ≡ timer_text timer }
{
    match timer {
        Timer::Probe => "probe",
        Timer::Election => "election",
        Timer::Collect => "collect",
        Timer::Accept => "accept",
        Timer::Renew => "renew",
        Timer::LeaseAck => "leaseack",
        Timer::Lease => "lease",
        Timer::Sync => "sync",
        Timer::Step => "step",
        Timer::Propose => "propose",
        Timer::Ping => "ping",
    }
}
