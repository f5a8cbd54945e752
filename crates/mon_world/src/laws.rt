//! What is known of a schedule's trace before it is run.

ghost use Rattle.std.specs.Prelude.{List};
ghost use Rattle.quorum_model.specs.Monitors.{Monitors};
ghost use Rattle.schedule_text.specs.declared.event.Event.{Event};
ghost use Rattle.mon_world.specs.Traced.{TracesRun};

/// After any events of a schedule the trace has reached the world of their run. What stops the one stops the other. Its
/// lines report each reply and each message of that run, in order, and no others.
pub fn law_traced()
    ensures { (ms : Monitors) (events : List Event) → TracesRun ms events }
{}
